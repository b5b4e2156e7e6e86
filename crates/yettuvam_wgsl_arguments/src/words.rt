//! Words among template arguments: address spaces, access modes and texel formats.

ghost use Rattle.std.specs.Prelude.{◌≡◌};
ghost use Rattle.yettuvam_wgsl_machine.specs.Machine.{node_view};
ghost use Rattle.yettuvam_wgsl_scope.specs.Items.{name_view};
ghost use Rattle.yettuvam_wgsl_scope.specs.Refused.{Gives};
ghost use Rattle.yettuvam_wgsl_values.specs.Value.{value_view, values_view};
ghost use Rattle.yettuvam_wgsl_arguments.specs.Words as spec;

use yettuvam_wgsl_machine::symbol::Node;
use yettuvam_wgsl_predeclared::{access, format, space, word_of};
use yettuvam_wgsl_scope::{Name, Reason, Refusal, refused};
use yettuvam_wgsl_values::{Value, What};

/// What the access mode is multiplied by in the code of an address space.
pub const ACCESS_UNIT: u64 = 16;

/// A template argument that has to be there.
#[tactic(auto, unfolding(crate::specs::Words::argument), using(crate::proofs::Lists::got))]
pub fn argument<'t>(args: &[Value<'t>], place: usize, node: Node<'t>) -> Result<Value<'t>, Refusal>
    ensures { Gives value_view result
        (spec.argument (values_view args.now) place (node_view node.entry)) }
{
    match args.get(place) {
        Some(value) => Ok(*value),
        None => Err(refused(Reason::Template, node.span)),
    }
}

/// A template argument that has to be a word.
#[tactic(auto, unfolding(crate::specs::Words::word_at))]
fn word_at<'t>(args: &[Value<'t>], place: usize, node: Node<'t>) -> Result<Name<'t>, Refusal>
    ensures { Gives name_view result
        (spec.word_at (values_view args.now) place (node_view node.entry)) }
{
    let value = argument(args, place, node)?;
    match value.what {
        What::Word(name) => Ok(name),
        _ => Err(refused(Reason::Template, node.span)),
    }
}

/// The code that a word has, or a fault at the word.
fn code_or_fault(code: Option<u64>, name: Name<'_>) -> Result<u64, Refusal>
    ensures { Gives (λ c. c) result (spec.code_or_fault code (name_view name.entry)) }
{
    match code {
        Some(code) => Ok(code),
        None => Err(refused(Reason::UnknownName, name.span)),
    }
}

/// The code of the address space that is an argument.
#[tactic(auto, unfolding(crate::specs::Words::space_argument))]
pub fn space_argument<'t>(args: &[Value<'t>], place: usize, node: Node<'t>) -> Result<u64, Refusal>
    ensures { Gives (λ c. c) result
        (spec.space_argument (values_view args.now) place (node_view node.entry)) }
{
    let name = word_at(args, place, node)?;
    code_or_fault(space(word_of(name.text)), name)
}

/// The code of the access mode that is an argument.
#[tactic(auto, unfolding(crate::specs::Words::access_argument))]
pub fn access_argument<'t>(args: &[Value<'t>], place: usize, node: Node<'t>) -> Result<u64, Refusal>
    ensures { Gives (λ c. c) result
        (spec.access_argument (values_view args.now) place (node_view node.entry)) }
{
    let name = word_at(args, place, node)?;
    code_or_fault(access(word_of(name.text)), name)
}

/// The code of the texel format that is an argument.
#[tactic(auto, unfolding(crate::specs::Words::format_argument))]
pub fn format_argument<'t>(args: &[Value<'t>], place: usize, node: Node<'t>) -> Result<u64, Refusal>
    ensures { Gives (λ c. c) result
        (spec.format_argument (values_view args.now) place (node_view node.entry)) }
{
    let name = word_at(args, place, node)?;
    code_or_fault(format(word_of(name.text)), name)
}

/// The code of the access mode that is an argument, 0 if it is left out.
#[tactic(auto, unfolding(crate::specs::Words::optional_access), using(crate::proofs::Lists::counted))]
fn optional_access<'t>(args: &[Value<'t>], place: usize, node: Node<'t>) -> Result<u64, Refusal>
    ensures { Gives (λ c. c) result
        (spec.optional_access (values_view args.now) place (node_view node.entry)) }
{
    if place < args.len() {
        access_argument(args, place, node)
    } else {
        Ok(0)
    }
}

/// The code of an address space, the first argument, and of an access mode, which may be left out.
#[tactic(auto, unfolding(crate::specs::Words::space_arguments))]
pub fn space_arguments<'t>(
    args: &[Value<'t>],
    access_place: usize,
    node: Node<'t>,
) -> Result<u64, Refusal>
    ensures { Gives (λ c. c) result
        (spec.space_arguments (values_view args.now) access_place (node_view node.entry)) }
{
    let space = space_argument(args, 0, node)?;
    let access = optional_access(args, access_place, node)?;
    Ok(access.wrapping_mul(ACCESS_UNIT).wrapping_add(space))
}
