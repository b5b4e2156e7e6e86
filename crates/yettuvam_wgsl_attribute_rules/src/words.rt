//! The attributes of WGSL by their names.
ghost use Rattle.std.specs.Prelude.{◌≡◌};
ghost use Rattle.yettuvam_wgsl_names.specs.Codes.{code_of};
ghost use Rattle.yettuvam_wgsl_names.specs.Table.{named};
ghost use Rattle.yettuvam_wgsl_attribute_rules.specs.Words as spec;

use yettuvam_wgsl_names::context::ATTRIBUTES;

/// An attribute.
#[derive(Clone, Copy, Debug, PartialEq, Eq)]
pub enum Attribute {
    Align,
    Binding,
    BlendSrc,
    BuiltIn,
    Compute,
    Const,
    Diagnostic,
    Fragment,
    Group,
    Id,
    Interpolate,
    Invariant,
    Location,
    MustUse,
    Size,
    Vertex,
    WorkgroupSize,
}

/// The attribute of a code in the table of attributes.
fn attribute_with(code: u64) -> Option<Attribute>
    ensures { result ≡ spec.attribute_with code }
{
    match code {
        1 => Some(Attribute::Align),
        2 => Some(Attribute::Binding),
        3 => Some(Attribute::BlendSrc),
        4 => Some(Attribute::BuiltIn),
        5 => Some(Attribute::Compute),
        6 => Some(Attribute::Const),
        7 => Some(Attribute::Diagnostic),
        8 => Some(Attribute::Fragment),
        9 => Some(Attribute::Group),
        10 => Some(Attribute::Id),
        11 => Some(Attribute::Interpolate),
        12 => Some(Attribute::Invariant),
        13 => Some(Attribute::Location),
        14 => Some(Attribute::MustUse),
        15 => Some(Attribute::Size),
        16 => Some(Attribute::Vertex),
        17 => Some(Attribute::WorkgroupSize),
        _ => None,
    }
}

/// The code of the first row with a name.
fn code_in(table: &[(u64, &'static str)], name: &[u8]) -> Option<u64>
    ensures { result ≡ code_of (named table.now) name.now }
{
    let mut rest = table;
    while let [(code, each), more @ ..] = rest {
        if name == each.as_bytes() {
            return Some(*code);
        }
        rest = more;
    }
    None
}

/// Returns the attribute of a name, if WGSL has one.
pub fn attribute_of(name: &[u8]) -> Option<Attribute>
    ensures { result ≡ spec.attribute_of name.now }
{
    attribute_with(code_in(&ATTRIBUTES, name)?)
}

/// Returns whether two attributes have one name.
pub fn is_same(a: Attribute, b: Attribute) -> bool
    ensures { result ≡ spec.is_same a b }
{
    a == b
}
