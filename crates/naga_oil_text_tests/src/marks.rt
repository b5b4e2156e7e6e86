use naga_oil_words::{add_decoration, has_module_mark};
use std::test::Fail;

/// Names, and what they are with the decoration of the module `a`.
static NAMES: [(&str, &str); 6] = [
    ("f", "fX_naga_oil_mod_XMEX"),
    ("", "X_naga_oil_mod_XMEX"),
    ("X_naga_oil_mod_", "X_naga_oil_mod_X_naga_oil_mod_XMEX"),
    ("fX_naga_oil_mod_XMIX", "fX_naga_oil_mod_XMIX"),
    ("X_naga_oil_mod_X", "X_naga_oil_mod_X"),
    (
        "fX_naga_oil_vrt_XMIX",
        "fX_naga_oil_vrt_XMIXX_naga_oil_mod_XMEX",
    ),
];

#[test]
fn names_get_a_decoration_once(rt: HostRuntime) -> Result<(), Fail> {
    for (name, wanted) in &NAMES {
        let mut text = String::from_str(rt.alloc(), name)?;
        let got = add_decoration(&mut text, "X_naga_oil_mod_XMEX")?;
        if text.as_str() != *wanted || got == has_module_mark(name) {
            return Err(Fail::from(*name));
        }
    }
    Ok(())
}
