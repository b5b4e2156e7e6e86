// The calls, on pages with room and without.
use super::page::{Define, Field, Page, Source};
use super::parts::{BOOL, INT, UINT};
use super::*;
use std::test::Fail;

const NO_FIELD: Field = Field {
    kind: 0,
    at: 0,
    len: 0,
    place: 0,
    value: 0,
};

const LAKE: &str =
    "#define_import_path lake\n#import noise::{ripple, swell as wave}\n#define LAYERS 3\n#ifdef WAVES\nripple(#SCALE)\n#else\nwave(0)\n#endif\n";

// A field's text.
fn text_of(alloc: Global, out: &[u8], field: Field) -> Result<String, AllocError> {
    let end = field.at.saturating_add(field.len);
    let bytes = out.get(field.at..end).unwrap_or(&[]);
    String::from_str(alloc, str::from_utf8(bytes).unwrap_or("?"))
}

// A status and the fields of a page: a line for each field.
fn shown(alloc: Global, status: u32, page: &Page<'_>) -> Result<String, AllocError> {
    let mut reply = format!(in alloc; "{status}: {} bytes, {} fields\n", page.bytes, page.count)?;
    for field in page.fields.iter().filter(|field| field.kind != 0) {
        let text = text_of(alloc, page.out, *field)?;
        let (kind, place, value) = (field.kind, field.place, field.value);
        reply.push_str(format!(in alloc; "{kind} {place} {value} {text:?}\n")?.as_str())?;
    }
    Ok(reply)
}

// The status and the fields of preprocessing a text, on a page with this room.
fn preprocessed_on(
    alloc: Global,
    text: &[u8],
    definitions: &[Define<'_>],
    room: usize,
) -> Result<String, AllocError> {
    let mut out = Vec::from_elem(alloc, 0u8, room)?;
    let mut fields = Vec::from_elem(alloc, NO_FIELD, 8)?;
    let mut page = Page {
        out: out.as_mut_slice(),
        fields: fields.as_mut_slice(),
        bytes: 7,
        count: 7,
    };
    let source = Source {
        path: b"lake.wgsl",
        text,
    };
    let status = yettuvam_preprocess(alloc, &source, definitions, &mut page);
    shown(alloc, status, &page)
}

// The status and the fields of a text's metadata.
fn metadata_on(alloc: Global, text: &[u8], allow_defines: bool) -> Result<String, AllocError> {
    let mut out = Vec::from_elem(alloc, 0u8, 400)?;
    let mut fields = Vec::from_elem(alloc, NO_FIELD, 16)?;
    let mut page = Page {
        out: out.as_mut_slice(),
        fields: fields.as_mut_slice(),
        bytes: 7,
        count: 7,
    };
    let source = Source {
        path: b"lake.wgsl",
        text,
    };
    let status = yettuvam_metadata(alloc, &source, allow_defines, &mut page);
    shown(alloc, status, &page)
}

fn is(reply: Result<String, AllocError>, want: &str) -> Result<(), Fail> {
    match reply {
        Ok(reply) if reply.as_str() == want => Ok(()),
        Ok(reply) => Err(Fail::from(reply.as_str())),
        Err(_) => Err(Fail::from("no memory")),
    }
}

fn definition(name: &[u8], kind: u32, value: i64) -> Define<'_> {
    Define { name, kind, value }
}

#[test]
fn a_text_becomes_another(rt: HostRuntime) -> Result<(), Fail> {
    let alloc = rt.alloc();
    let definitions = [definition(b"WAVES", BOOL, 1), definition(b"SCALE", INT, -4)];
    is(
        preprocessed_on(alloc, LAKE.as_bytes(), &definitions, 400),
        "0: 162 bytes, 3 fields\n1 0 0 \"                        \\n                                      \\n                \\n            \\nrippleX_naga_oil_mod_XNZXWS43FX(-4)\\n     \\n       \\n      \\n\"\n2 94 0 \"noise\"\n3 0 0 \"ripple\"\n",
    )
}

#[test]
fn a_page_without_room(rt: HostRuntime) -> Result<(), Fail> {
    let alloc = rt.alloc();
    is(
        preprocessed_on(alloc, LAKE.as_bytes(), &[], 165),
        "5: 166 bytes, 3 fields\n",
    )?;
    is(
        preprocessed_on(alloc, LAKE.as_bytes(), &[], 166),
        "0: 166 bytes, 3 fields\n1 0 0 \"                        \\n                                      \\n                \\n            \\n              \\n     \\nswellX_naga_oil_mod_XNZXWS43FX(0)\\n      \\n\"\n2 115 0 \"noise\"\n3 0 0 \"swell\"\n",
    )
}

#[test]
fn a_fault_has_its_place(rt: HostRuntime) -> Result<(), Fail> {
    is(
        preprocessed_on(rt.alloc(), b"a\n#if DEPTH > 1\n#endif", &[], 400),
        "1: 54 bytes, 1 fields\n10 2 0 \"error: Unknown shader def: 'DEPTH'\\n  at lake.wgsl:2:1\\n\"\n",
    )
}

#[test]
fn other_bytes_and_values(rt: HostRuntime) -> Result<(), Fail> {
    let alloc = rt.alloc();
    is(
        preprocessed_on(alloc, b"\xff", &[], 400),
        "3: 0 bytes, 0 fields\n",
    )?;
    let definitions = [definition(b"A", UINT, 4), definition(b"A", UINT, -1)];
    is(
        preprocessed_on(alloc, b"", &definitions, 400),
        "4: 0 bytes, 1 fields\n",
    )
}

#[test]
fn metadata(rt: HostRuntime) -> Result<(), Fail> {
    is(
        metadata_on(rt.alloc(), LAKE.as_bytes(), true),
        "0: 165 bytes, 9 fields\n1 0 0 \"#define_import_path lake\\n#import noise::{ripple, swell as wave}\\n#define LAYERS 3\\n#ifdef WAVES\\nripple(#SCALE)\\n#else\\nwave(0)\\n#endif\"\n4 0 0 \"lake\"\n2 94 0 \"noise\"\n3 0 0 \"ripple\"\n3 0 0 \"swell\"\n7 0 3 \"LAYERS\"\n8 0 0 \"SCALE\"\n8 0 0 \"WAVES\"\n9 0 0 \"\"\n",
    )
}

#[test]
fn faults_of_metadata(rt: HostRuntime) -> Result<(), Fail> {
    let alloc = rt.alloc();
    is(
        metadata_on(alloc, LAKE.as_bytes(), false),
        "1: 100 bytes, 1 fields\n10 64 0 \"error: #define statements are only allowed at the start of the top-level shaders\\n  at lake.wgsl:3:1\\n\"\n",
    )?;
    is(
        metadata_on(alloc, b"\nenable  ;\n", false),
        "1: 96 bytes, 1 fields\n11 1 0 \"error: Invalid WGSL directive 'enable  ;' at line 1: No extensions specified\\n  at lake.wgsl:2:1\\n\"\n",
    )
}
