// How stores are written.
ghost use Rattle.std.specs.Prelude.{◌≡◌};
ghost use Rattle.yettuvam_wgsl_requests.specs.Requests.{is_declared_at};
ghost use Rattle.yettuvam_wgsl_write_bodies.specs.Setting.{setting_of};
ghost use Rattle.yettuvam_wgsl_write_bodies.specs.Stores as spec;

use crate::setting::{Setting, expression_at, local_type};
use naga_oil_ir::Operand;
use yettuvam_wgsl_counts::Declared;
use yettuvam_wgsl_counts::locals::local_at;
use yettuvam_wgsl_uses::compounds::compound;
use yettuvam_wgsl_write_statements::{Store, is_nowhere, is_zero_of};

// Whether a local variable is declared by the store at a place.
fn is_declared_by(locals: &[Declared], local: usize, at: usize) -> bool
    ensures { result ≡ is_declared_at locals.now local at }
{
    match locals.get(local) {
        Some(Declared::At(place)) => *place == at,
        _ => false,
    }
}

// The local variable that a store at a place declares.
fn declared_local(s: &Setting<'_, '_>, at: usize, pointer: Operand) -> Option<usize>
    ensures { result ≡ spec.declared_local (setting_of s.now) at pointer }
{
    match local_at(&s.of.expressions, pointer) {
        Some(local) => {
            if is_declared_by(&s.uses.locals, local, at) {
                Some(local)
            } else {
                None
            }
        }
        None => None,
    }
}

fn is_zero_at(s: &Setting<'_, '_>, value: Operand, ty: usize) -> bool
    ensures { result ≡ spec.is_zero_at (setting_of s.now) value ty }
{
    match expression_at(s.of, value) {
        Some(expression) => is_zero_of(expression, ty),
        None => false,
    }
}

fn is_nowhere_at(s: &Setting<'_, '_>, pointer: Operand) -> bool
    ensures { result ≡ spec.is_nowhere_at (setting_of s.now) pointer }
{
    match expression_at(s.of, pointer) {
        Some(expression) => is_nowhere(s.context, expression),
        None => false,
    }
}

fn compound_store(of: Option<(u64, Operand)>) -> Store
    ensures { result ≡ spec.compound_store of }
{
    match of {
        Some((op, right)) => Store::Compound { op, right },
        None => Store::Assignment,
    }
}

// How an assignment is written.
fn assigned(s: &Setting<'_, '_>, pointer: Operand, value: Operand) -> Store
    ensures { result ≡ spec.assigned (setting_of s.now) pointer value }
{
    if is_nowhere_at(s, pointer) {
        Store::Nowhere
    } else {
        compound_store(compound(&s.of.expressions, &s.uses.is_let, pointer, value))
    }
}

// A declaration of a local variable with its first value.
fn declaration(s: &Setting<'_, '_>, local: usize, value: Operand) -> Store
    ensures { result ≡ spec.declaration (setting_of s.now) local value }
{
    let ty = local_type(s.of, local);
    Store::Declaration {
        ty,
        is_zero: is_zero_at(s, value, ty),
    }
}

/// Returns how the store at a place is written.
pub fn store_at(s: &Setting<'_, '_>, at: usize, pointer: Operand, value: Operand) -> Store
    ensures { result ≡ spec.store_at (setting_of s.now) at pointer value }
{
    match declared_local(s, at, pointer) {
        Some(local) => declaration(s, local, value),
        None => assigned(s, pointer, value),
    }
}
