//! The arguments of a call: their expressions, and what is known of them.

ghost use Rattle.std.specs.Prelude.{◌≡◌, IfOk, map};
ghost use Rattle.yettuvam_wgsl_machine.specs.Machine.{node_view};
ghost use Rattle.yettuvam_wgsl_scope.specs.Refused.{Gives};
ghost use Rattle.yettuvam_wgsl_values.specs.Value.{values_view};
ghost use Rattle.yettuvam_wgsl_arguments.specs.Arguments as spec;

use naga_oil_ir::{ArraySize, Operand};
use std::alloc::{AllocError, Global};
use yettuvam_wgsl_machine::symbol::Node;
use yettuvam_wgsl_names::functions::{ABS, CLAMP, MAX, MIN};
use yettuvam_wgsl_scope::{Reason, Refusal, refused};
use yettuvam_wgsl_shape::{Kind, Number, clamped, converted, greatest, least, magnitude};
use yettuvam_wgsl_values::{Value, handle_of};

/// The codes of the types `i32` and `u32`.
const SIGNED: u64 = 2;

const UNSIGNED: u64 = 3;

/// The expression of an argument, if there is one.
#[tactic(auto, unfolding(crate::specs::Arguments::handle_at), using(crate::proofs::Lists::got))]
pub fn handle_at(args: &[Value<'_>], place: usize) -> Option<Operand>
    ensures { result ≡ spec.handle_at (values_view args.now) place }
{
    match args.get(place) {
        Some(value) => Some(handle_of(*value)),
        None => None,
    }
}

/// The number that is known of an argument.
#[tactic(auto, unfolding(crate::specs::Arguments::number_at), using(crate::proofs::Lists::got))]
pub fn number_at(args: &[Value<'_>], place: usize) -> Option<Number>
    ensures { result ≡ spec.number_at (values_view args.now) place }
{
    match args.get(place) {
        Some(value) => value.number,
        None => None,
    }
}

/// The expression of an argument that has to be there.
#[tactic(auto, unfolding(crate::specs::Arguments::operand_at))]
pub fn operand_at(args: &[Value<'_>], place: usize, node: Node<'_>) -> Result<Operand, Refusal>
    ensures { Gives (λ h. h) result
        (spec.operand_at (values_view args.now) place (node_view node.entry)) }
{
    match handle_at(args, place) {
        Some(handle) => Ok(handle),
        None => Err(refused(Reason::Arguments, node.span)),
    }
}

fn handle_in(value: Value<'_>) -> Operand
    ensures { result ≡ spec.handle_in value.entry }
{
    handle_of(value)
}

fn collected(alloc: Global, values: &[Value<'_>]) -> Result<Vec<Operand>, AllocError>
    ensures { IfOk result (λ v. v.items ≡ map spec.handle_in values.now) }
{
    values.iter().map(|value| handle_in(*value)).collect(alloc)
}

/// The expressions of some values.
#[tactic(auto, using(crate::proofs::Lists::handled))]
pub fn handles(alloc: Global, values: &[Value<'_>]) -> Result<Vec<Operand>, AllocError>
    ensures { IfOk result (λ v. v.items ≡ spec.handles (values_view values.now)) }
{
    collected(alloc, values)
}

fn absolute(number: Option<Number>) -> Option<Number>
    ensures { result ≡ spec.absolute number }
{
    match number {
        Some(number) => Some(magnitude(number)),
        None => None,
    }
}

/// The number that a mathematical function of integers gives.
#[tactic(auto, unfolding(crate::specs::Arguments::math_number))]
pub fn math_number(code: u64, args: &[Value<'_>]) -> Option<Number>
    ensures { result ≡ spec.math_number code (values_view args.now) }
{
    match code {
        ABS => absolute(number_at(args, 0)),
        MIN => least(number_at(args, 0), number_at(args, 1)),
        MAX => greatest(number_at(args, 0), number_at(args, 1)),
        CLAMP => clamped(number_at(args, 0), number_at(args, 1), number_at(args, 2)),
        _ => None,
    }
}

fn converted_to(scalar: u64, number: Option<Number>) -> Option<Number>
    ensures { result ≡ spec.converted_to scalar number }
{
    match scalar {
        SIGNED => converted(Kind::Signed, number),
        UNSIGNED => converted(Kind::Unsigned, number),
        _ => None,
    }
}

fn only_number(args: &[Value<'_>]) -> Option<Number>
    ensures { result ≡ spec.only_number (values_view args.now) }
{
    match args {
        [value] => value.number,
        _ => None,
    }
}

/// The number that a conversion gives, of one argument to the scalar type with a code.
#[tactic(auto, unfolding(crate::specs::Arguments::conversion))]
pub fn conversion(scalar: Option<u64>, args: &[Value<'_>]) -> Option<Number>
    ensures { result ≡ spec.conversion scalar (values_view args.now) }
{
    match scalar {
        Some(scalar) => converted_to(scalar, only_number(args)),
        None => None,
    }
}

/// A value that is an unsigned number of 32 bits.
pub fn natural(value: i64) -> Option<u32>
    ensures { result ≡ spec.natural value }
{
    u32::try_from(value).ok()
}

fn size_of(size: u32, node: Node<'_>) -> Result<ArraySize, Refusal>
    ensures { Gives (λ s. s) result (spec.size_of size (node_view node.entry)) }
{
    if size == 0 {
        Err(refused(Reason::NoNumber, node.span))
    } else {
        Ok(ArraySize::Constant(size))
    }
}

/// The size of an array by a number that is known: at least 1.
#[tactic(auto, unfolding(crate::specs::Arguments::known_size))]
pub fn known_size(number: Number, node: Node<'_>) -> Result<ArraySize, Refusal>
    ensures { Gives (λ s. s) result (spec.known_size number (node_view node.entry)) }
{
    match natural(number.value()) {
        Some(size) => size_of(size, node),
        None => Err(refused(Reason::NoNumber, node.span)),
    }
}
