use naga_oil_lines::decorate::{
    DECORATION_OVERRIDE_PRE, DECORATION_PRE, decode, decorated_name, undecorate,
};
use std::alloc::{AllocError, Global};
use std::test::Fail;

fn is(told: Result<String, AllocError>, want: &str) -> bool {
    match told {
        Ok(told) => told.as_str() == want,
        Err(_) => false,
    }
}

// A module, an item, and the item's name. Under an empty item name the code of a module is seen alone: these are the
// test vectors of RFC 4648 section 10.
static NAMES: [(Option<&str>, &str, &str); 11] = [
    (None, "f", "f"),
    (None, "", ""),
    (Some("a"), "f", "fX_naga_oil_mod_XMEX"),
    (Some("a::b"), "g", "gX_naga_oil_mod_XME5DUYQX"),
    (Some(""), "f", "fX_naga_oil_mod_XX"),
    (Some("f"), "", "X_naga_oil_mod_XMYX"),
    (Some("fo"), "", "X_naga_oil_mod_XMZXQX"),
    (Some("foo"), "", "X_naga_oil_mod_XMZXW6X"),
    (Some("foob"), "", "X_naga_oil_mod_XMZXW6YQX"),
    (Some("fooba"), "", "X_naga_oil_mod_XMZXW6YTBX"),
    (Some("foobar"), "", "X_naga_oil_mod_XMZXW6YTBOIX"),
];

#[test]
fn decorates_names(rt: HostRuntime) -> Result<(), Fail> {
    for (module_name, item, want) in &NAMES {
        if !is(decorated_name(rt.alloc(), *module_name, item), want) {
            return Err(Fail::from(*want));
        }
    }
    if DECORATION_PRE.len() == DECORATION_OVERRIDE_PRE.len() {
        Ok(())
    } else {
        Err(Fail::from(DECORATION_OVERRIDE_PRE))
    }
}

fn is_module(decoded: Result<Option<String>, AllocError>, want: Option<&str>) -> bool {
    match decoded {
        Ok(Some(name)) => want == Some(name.as_str()),
        Ok(None) => want.is_none(),
        Err(_) => false,
    }
}

// Codes, each with the module of which it is the code.
static CODES: [(&str, Option<&str>); 12] = [
    ("", Some("")),
    ("ME", Some("a")),
    ("ME5DUYQ", Some("a::b")),
    ("MZXW6YTBOI", Some("foobar")),
    ("ME======", None),
    ("MF", None),
    ("M", None),
    ("AAA", None),
    ("me", None),
    ("1", None),
    ("M0", None),
    ("74", None),
];

#[test]
fn decodes_modules(rt: HostRuntime) -> Result<(), Fail> {
    for (code, want) in &CODES {
        if !is_module(decode(rt.alloc(), code), *want) {
            return Err(Fail::from(*code));
        }
    }
    Ok(())
}

// Texts, each as a reader is shown it.
static SHOWN: [(&str, &str); 14] = [
    ("", ""),
    ("f(x)", "f(x)"),
    ("fX_naga_oil_mod_XMEXYZ", "a::fYZ"),
    ("fX_naga_oil_mod_X1X", "fX_naga_oil_mod_X1X"),
    (
        "fX_naga_oil_vrt_XMEXX_naga_oil_mod_XMIX",
        "b::foverride fn a::",
    ),
    (
        "call of gX_naga_oil_mod_XNUX, hX_naga_oil_mod_XME5DUYQX.",
        "call of m::g, a::b::h.",
    ),
    ("X_naga_oil_mod_XMEX", "X_naga_oil_mod_XMEX"),
    ("-X_naga_oil_mod_XMEX", "-X_naga_oil_mod_XMEX"),
    ("fX_naga_oil_mod_XME", "fX_naga_oil_mod_XME"),
    ("fX_naga_oil_mod_XX", "::f"),
    (
        "fX_naga_oil_mod_XMEX_naga_oil_mod_XMIX",
        "b::fX_naga_oil_mod_XME",
    ),
    (
        "fX_naga_oil_mod_XMEXX_naga_oil_mod_X1X",
        "fX_naga_oil_mod_XMEXX_naga_oil_mod_X1X",
    ),
    ("\u{e9}X_naga_oil_mod_XMEX", "a::\u{e9}"),
    (
        "X_naga_oil_vrt_X1X X_naga_oil_vrt_XMEXf",
        "X_naga_oil_vrt_X1X override fn a::f",
    ),
];

#[test]
fn undecorates_names(rt: HostRuntime) -> Result<(), Fail> {
    for (text, want) in &SHOWN {
        if !is(undecorate(rt.alloc(), text), want) {
            return Err(Fail::from(*text));
        }
    }
    Ok(())
}
