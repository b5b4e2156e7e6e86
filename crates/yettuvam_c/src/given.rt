// The definitions of a caller.
ghost use Rattle.std.specs.Prelude.{◌≡◌, [], Some, Ok, OnOk, IfOk, IfErr};
ghost use Rattle.std.specs.BTreeMap.{get_by_text};
ghost use Rattle.naga_oil_pre.specs.Metadata.{none_defined, with_definition};
ghost use Rattle.naga_oil_registry.specs.Merged.{with_def};
ghost use Rattle.naga_oil_registry.specs.Registered.{defs_of};
ghost use Rattle.yettuvam_c.specs.Given.{given_value, defined_by, listed, RefusesOne, RefusesGiven};

use super::parts::{BOOL, INT, UINT};
use super::*;

pub type Definitions = BTreeMap<String, ShaderDefValue>;

/// The errors of a call.
#[derive(Drop)]
pub enum Refusal {
    Memory,
    /// A path, a text or a name isn't UTF-8.
    NotUtf8,
    /// The index of the first definition with an unknown kind, or a value that its kind can't hold.
    BadDefinition(usize),
}

impl From<AllocError> for Refusal {
    ghost use Rattle.std.specs.Prelude.{◌≡◌};
    ghost use Rattle.yettuvam_c.specs.declared.given.Refusal.TheVariants.{Memory};

    ghost from_gives = { λ _ e. e ≡ Memory };

    fn from(_: AllocError) -> Self {
        Refusal::Memory
    }
}

// The value with a kind, if the kind is known and can hold the value.
fn value_of(kind: u32, value: i64) -> Option<ShaderDefValue>
    ensures { result ≡ given_value kind value }
{
    match kind {
        BOOL => Some(ShaderDefValue::Bool(value != 0)),
        INT => Some(ShaderDefValue::Int(i32::try_from(value).ok()?)),
        UINT => Some(ShaderDefValue::UInt(u32::try_from(value).ok()?)),
        _ => None,
    }
}

// The name and the value of a definition, or an error.
fn read<'a>(index: usize, definition: &Define<'a>) -> Result<(&'a str, ShaderDefValue), Refusal>
    ensures name { IfOk result (λ r. r.0.now ≡ definition.now.name.now) }
    ensures value { let of = definition.now in
        IfOk result (λ r. given_value of.kind of.value ≡ Some r.1) }
    ensures err { IfErr result (RefusesOne index definition.now) }
{
    let Ok(name) = str::from_utf8(definition.name) else {
        return Err(Refusal::NotUtf8);
    };
    let Some(value) = value_of(definition.kind, definition.value) else {
        return Err(Refusal::BadDefinition(index));
    };
    Ok((name, value))
}

// Defines a name, and replaces its value if there is one.
fn define(
    alloc: Global,
    defs: &mut Definitions,
    name: &str,
    value: ShaderDefValue,
) -> Result<(), AllocError>
    ensures found { let defined = with_definition (get_by_text defs.old) name.now value in
        OnOk result (get_by_text defs.new ≡ defined) }
    ensures listed { let defined = with_def (defs_of defs.old) (name.now, value) in
        OnOk result (defs_of defs.new ≡ defined) }
{
    defs.insert(String::from_str(alloc, name)?, value)?;
    Ok(())
}

/// Reads definitions. The last with a name counts.
pub fn given(alloc: Global, definitions: &[Define<'_>]) -> Result<Definitions, Refusal>
    ensures ok { let reply = defined_by 0 none_defined definitions.now in
        IfOk result (λ defs. reply ≡ Ok (get_by_text defs)) }
    // In byte order of the names.
    ensures listed { IfOk result (λ defs. defs_of defs ≡ listed [] definitions.now) }
    ensures err { IfErr result (RefusesGiven definitions.now) }
{
    let mut defs = BTreeMap::new(alloc);
    for (index, definition) in definitions.iter().enumerate() {
        let (name, value) = read(index, definition)?;
        define(alloc, &mut defs, name, value)?;
    }
    Ok(defs)
}
