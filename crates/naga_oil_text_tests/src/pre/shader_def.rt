use naga_oil_pre::{ShaderDefValue, defined_value};
use std::test::Fail;

// The texts after names, each with its value.
static VALUES: [(Option<&str>, Option<ShaderDefValue>); 11] = [
    (None, Some(ShaderDefValue::Bool(true))),
    (Some("7"), Some(ShaderDefValue::UInt(7))),
    (Some("4294967295"), Some(ShaderDefValue::UInt(4294967295))),
    (Some("4294967296"), None),
    (Some("-3"), Some(ShaderDefValue::Int(-3))),
    (Some("-2147483648"), Some(ShaderDefValue::Int(-2147483648))),
    (Some("-2147483649"), None),
    (Some("true"), Some(ShaderDefValue::Bool(true))),
    (Some("false"), Some(ShaderDefValue::Bool(false))),
    (Some("x1"), None),
    (Some(""), None),
];

#[test]
fn reads_defined_values() -> Result<(), Fail> {
    for (text, value) in &VALUES {
        if defined_value(*text) != *value {
            return Err(Fail::from(*text));
        }
    }
    if ShaderDefValue::default() == ShaderDefValue::Bool(true) {
        Ok(())
    } else {
        Err(Fail::from("another default"))
    }
}
