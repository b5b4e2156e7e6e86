// Evaluates conditions.
ghost use Rattle.std.specs.Prelude.{◌≡◌, IfOk, Some};
ghost use Rattle.std.specs.BTreeMap.{get_by_text};
ghost use Rattle.naga_oil_conditions.specs.Fault.{Definitions, comparison, evaluated, invalid_value, order_of, expected_by};
ghost use Rattle.naga_oil_conditions.specs.KindView.{condition_of};
ghost use Rattle.naga_oil_conditions.specs.Values.{operator_holds};
ghost use Rattle.naga_oil_conditions.specs.View.{Gives, fault_of};

use super::*;
use std::cmp::Ordering;

// Whether the operator holds for two values with this ordering.
fn is_ordered(operator: &str, ordering: Ordering) -> Option<bool>
    ensures { result ≡ operator_holds operator.now ordering }
{
    if operator == "==" {
        Some(ordering.is_eq())
    } else if operator == "!=" {
        Some(ordering.is_ne())
    } else if operator == ">" {
        Some(ordering.is_gt())
    } else if operator == ">=" {
        Some(ordering.is_ge())
    } else if operator == "<" {
        Some(ordering.is_lt())
    } else if operator == "<=" {
        Some(ordering.is_le())
    } else {
        None
    }
}

// The ordering of a definition and a value, if the value can be read.
#[tactic(auto, using(crate::proofs::ValueLemmas::parses_bool, crate::proofs::ValueLemmas::parses_i32, crate::proofs::ValueLemmas::parses_u32))]
fn order_of(definition: ShaderDefValue, value: &str) -> Option<Ordering>
    ensures { result ≡ order_of definition value.now }
{
    match definition {
        ShaderDefValue::Bool(defined) => Some(defined.cmp(&value.parse::<bool>().ok()?)),
        ShaderDefValue::Int(defined) => Some(defined.cmp(&value.parse::<i32>().ok()?)),
        ShaderDefValue::UInt(defined) => Some(defined.cmp(&value.parse::<u32>().ok()?)),
    }
}

fn expected_by(definition: ShaderDefValue) -> &'static str
    ensures { result.now ≡ expected_by definition }
{
    match definition {
        ShaderDefValue::Bool(_) => "bool",
        ShaderDefValue::Int(_) => "int",
        ShaderDefValue::UInt(_) => "uint",
    }
}

// Whether a comparison holds.
#[tactic(auto, unfolding(crate::specs::Fault::comparison))]
fn compare(
    alloc: Global,
    name: &str,
    operator: &str,
    value: &str,
    offset: usize,
    definitions: &BTreeMap<String, ShaderDefValue>,
) -> Result<bool, ComposerErrorInner>
    ensures { let found = get_by_text definitions.now name.now in
        Gives (λ b. b) result (comparison offset name.now operator.now value.now found) }
{
    let Some(definition) = definitions.get(name) else {
        return Err(ComposerErrorInner::UnknownShaderDef {
            pos: offset,
            shader_def_name: String::from_str(alloc, name)?,
        });
    };
    let Some(ordering) = order_of(*definition, value) else {
        return Err(ComposerErrorInner::InvalidShaderDefComparisonValue {
            pos: offset,
            shader_def_name: String::from_str(alloc, name)?,
            expected: String::from_str(alloc, expected_by(*definition))?,
            value: String::from_str(alloc, value)?,
        });
    };
    let Some(holds) = is_ordered(operator, ordering) else {
        return Err(ComposerErrorInner::UnknownShaderDefOperator {
            pos: offset,
            operator: String::from_str(alloc, operator)?,
        });
    };
    Ok(holds)
}

// Whether a condition at the offset holds.
pub fn evaluate(
    alloc: Global,
    condition: Condition<'_>,
    offset: usize,
    definitions: &BTreeMap<String, ShaderDefValue>,
) -> Result<bool, ComposerErrorInner>
    ensures { let asked = condition_of condition.entry in
        Gives (λ b. b) result (evaluated (get_by_text definitions.now) offset asked) }
{
    match condition {
        Condition::Defined(name) => Ok(definitions.contains_key(name)),
        Condition::Undefined(name) => Ok(!definitions.contains_key(name)),
        Condition::Compares {
            name,
            operator,
            value,
        } => compare(alloc, name, operator, value, offset, definitions),
        Condition::Otherwise => Ok(true),
    }
}
