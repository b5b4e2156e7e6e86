// The metadata of a text, as lines.
ghost use Rattle.std.specs.Prelude.{◌≡◌, ◌++◌, true, OnOk, IfOk, IfErr, map, string_bytes, option_map};
ghost use Rattle.naga_oil_imports.specs.Uses.{import_of, use_of};
ghost use Rattle.naga_oil_pre.specs.Metadata.{metadata};
ghost use Rattle.naga_oil_pre.specs.MetadataView.{metadata_of};
ghost use Rattle.naga_oil_conditions.specs.View.{Fails};
ghost use Rattle.naga_oil_registry.specs.Registered.{defs_of};
ghost use Rattle.naga_oil_words.specs.Texts.{texts};
ghost use Rattle.naga_oil_mini_symbols.specs.NameTable.{texts_of};
ghost use Rattle.std.specs.List.{flat_map};
ghost use Rattle.naga_oil_mini.specs.Listing.{escaped_byte, field, line, path_lines, import_line, define_lines, name_lines, IsListing, IsListed};
ghost use Rattle.naga_oil_mini.specs.Shown.{Reports};

use super::definitions::Definitions;
use super::refusal::Refusal;
use naga_oil::compose::report::report;
use naga_oil_conditions::replace::push_value;
use naga_oil_imports::{ImportDefWithOffset, ImportDefinition};
use naga_oil_pre::{ComposerErrorInner, Preprocessor, PreprocessorMetaData};
use naga_oil_words::AllocResult;
use std::alloc::Global;
use std::collections::BTreeSet;

// Pushes a byte of a field. A tab, a line end and a backslash become a backslash and a character.
fn push_byte(out: &mut Vec<u8>, byte: u8) -> AllocResult
    ensures { OnOk result (out.new.items ≡ out.old.items ++ escaped_byte byte) }
{
    match byte {
        b'\t' => out.extend_from_slice(b"\\t"),
        b'\n' => out.extend_from_slice(b"\\n"),
        b'\r' => out.extend_from_slice(b"\\r"),
        b'\\' => out.extend_from_slice(b"\\\\"),
        _ => out.extend_from_slice(&[byte]),
    }
}

// Pushes a tab and a field.
fn push_field(out: &mut Vec<u8>, text: &str) -> AllocResult
    ensures { OnOk result (out.new.items ≡ out.old.items ++ field text.now) }
{
    out.extend_from_slice(b"\t")?;
    for byte in text.as_bytes() {
        push_byte(out, *byte)?;
    }
    Ok(())
}

// Pushes a line: its kind and its fields.
fn push_line(out: &mut Vec<u8>, kind: &str, fields: &[&str]) -> AllocResult
    ensures { OnOk result (out.new.items ≡ out.old.items ++ line kind.now (texts_of fields.now)) }
{
    out.extend_from_slice(kind.as_bytes())?;
    for text in fields {
        push_field(out, *text)?;
    }
    out.extend_from_slice(b"\n")
}

// Pushes the line of the import path, if there is one.
fn push_path(out: &mut Vec<u8>, path: &Option<String>) -> AllocResult
    ensures { let lines = path_lines (option_map string_bytes path.now) in
        OnOk result (out.new.items ≡ out.old.items ++ lines) }
{
    match path {
        Some(name) => push_line(out, "path", &[name.as_str()]),
        None => Ok(()),
    }
}

// Pushes the line of a module and its items that are used.
fn push_import(out: &mut Vec<u8>, import: &ImportDefinition) -> AllocResult
    ensures { OnOk result (out.new.items ≡ out.old.items ++ import_line (import_of import.now)) }
{
    out.extend_from_slice(b"import")?;
    push_field(out, import.import.as_str())?;
    for item in &import.items {
        push_field(out, item.as_str())?;
    }
    out.extend_from_slice(b"\n")
}

// Pushes the lines of the modules that are used.
fn push_imports(out: &mut Vec<u8>, imports: &[ImportDefWithOffset]) -> AllocResult
    ensures { let used = map (λ u. u.import) (map use_of imports.now) in
        OnOk result (out.new.items ≡ out.old.items ++ flat_map import_line used) }
{
    for import in imports {
        push_import(out, import.definition())?;
    }
    Ok(())
}

// Pushes the lines of defines, in the order of their names.
fn push_defines(alloc: Global, out: &mut Vec<u8>, defines: &Definitions) -> AllocResult
    ensures { OnOk result (out.new.items ≡ out.old.items ++ define_lines (defs_of defines.now)) }
{
    for (name, value) in defines {
        let mut text = String::new(alloc);
        push_value(&mut text, *value)?;
        push_line(out, "define", &[name.as_str(), text.as_str()])?;
    }
    Ok(())
}

// Pushes the lines of names, in their order.
fn push_names(out: &mut Vec<u8>, names: &BTreeSet<String>) -> AllocResult
    ensures { OnOk result (out.new.items ≡ out.old.items ++ name_lines (texts names.now.keys)) }
{
    for name in names {
        push_line(out, "name", &[name.as_str()])?;
    }
    Ok(())
}

/// The lines of metadata.
pub fn listing(alloc: Global, of: &PreprocessorMetaData) -> AllocResult<Vec<u8>>
    ensures { IfOk result (λ t. IsListing (metadata_of of.now) t.items) }
{
    // The contracts of `len` say that the names of a map and of a set are sorted and distinct.
    let (_defines, _names) = (of.defines.len(), of.effective_defs.len());
    let mut out = Vec::new(alloc);
    push_path(&mut out, &of.name)?;
    push_imports(&mut out, of.imports.as_slice())?;
    push_defines(alloc, &mut out, &of.defines)?;
    push_names(&mut out, &of.effective_defs)?;
    Ok(out)
}

// The lines of a text's metadata.
fn listed(alloc: Global, text: &str) -> Result<Vec<u8>, ComposerErrorInner>
    ensures ok { IfOk result (λ t. IsListed text.now t.items) }
    ensures err { IfErr result (λ e. Fails e (metadata true text.now)) }
{
    let of = Preprocessor.get_preprocessor_metadata(alloc, text, true)?;
    Ok(listing(alloc, &of)?)
}

/// The lines of a file's metadata, or the report of an error.
pub fn listed_file<'a>(alloc: Global, file: &str, text: &str) -> Result<Vec<u8>, Refusal<'a>>
    ensures ok { IfOk result (λ t. IsListed text.now t.items) }
    ensures err { IfErr result (Reports file.now text.now (metadata true text.now)) }
{
    match listed(alloc, text) {
        Ok(lines) => Ok(lines),
        Err(inner) if inner.is_memory() => Err(Refusal::Memory),
        Err(inner) => Err(Refusal::Fault(report(alloc, file, text, 0, &inner)?)),
    }
}
