// What is known of a statement beyond its operands.
ghost use Rattle.std.specs.Prelude.{◌≡◌, option_map};
ghost use Rattle.yettuvam_wgsl_write_bodies.specs.Given as spec;
ghost use Rattle.yettuvam_wgsl_write_bodies.specs.Setting.{setting_of};
ghost use Rattle.yettuvam_wgsl_write_statements.specs.Calls.{given_of};

use crate::setting::Setting;
use crate::stores::store_at;
use naga_oil_ir::{Index, Operand};
use yettuvam_wgsl_counts::locals::local_at;
use yettuvam_wgsl_lines::groups::is_set;
use yettuvam_wgsl_statements::simple::Simple;
use yettuvam_wgsl_write_blocks::PartKind;
use yettuvam_wgsl_write_statements::{Given, Store, result_of};

fn operand_at(place: usize) -> Operand
    ensures { result ≡ place }
{
    Index::new(place)
}

// The name of the local variable that is stored to.
fn stored_name<'m>(s: &Setting<'_, 'm>, pointer: Operand) -> Option<&'m str>
    ensures { option_map (λ n. n.now) result ≡ spec.stored_name (setting_of s.now) pointer }
{
    match local_at(&s.of.expressions, pointer) {
        Some(local) => s.local_name(local),
        None => None,
    }
}

// The name of the function that is called, or of the local variable that is stored to.
fn item_name<'m>(s: &Setting<'_, 'm>, of: Simple) -> Option<&'m str>
    ensures { option_map (λ n. n.now) result ≡ spec.item_name (setting_of s.now) of }
{
    match of {
        Simple::Call { callee, .. } => s.function_name(callee),
        Simple::Store { pointer, .. } => stored_name(s, operand_at(pointer)),
        _ => None,
    }
}

fn store_of(s: &Setting<'_, '_>, at: usize, of: Simple) -> Store
    ensures { result ≡ spec.store_of (setting_of s.now) at of }
{
    match of {
        Simple::Store { pointer, value } => {
            store_at(s, at, operand_at(pointer), operand_at(value))
        }
        _ => Store::Assignment,
    }
}

fn is_merged_at(s: &Setting<'_, '_>, made: Option<usize>) -> bool
    ensures { result ≡ spec.is_merged_at (setting_of s.now) made }
{
    match made {
        Some(made) => is_set(&s.uses.merged, operand_at(made)),
        None => false,
    }
}

fn result_name<'m>(s: &Setting<'_, 'm>, made: Option<usize>) -> Option<&'m str>
    ensures { option_map (λ n. n.now) result ≡ spec.result_name (setting_of s.now) made }
{
    match made {
        Some(made) => s.value_name(made),
        None => None,
    }
}

/// Returns what is known of the statement at a place beyond its operands.
pub fn given_at<'m>(s: &Setting<'_, 'm>, at: usize, of: Simple) -> Given<'m>
    ensures { given_of result ≡ spec.given_at (setting_of s.now) at of }
{
    let made = result_of(of);
    Given {
        is_merged: is_merged_at(s, made),
        result: result_name(s, made),
        item: item_name(s, of),
        store: store_of(s, at, of),
    }
}

fn stored_kind(store: Store) -> PartKind
    ensures { result ≡ spec.stored_kind store }
{
    match store {
        Store::Declaration { .. } => PartKind::Declaration,
        _ => PartKind::Update,
    }
}

fn made_kind(name: Option<&str>) -> PartKind
    ensures { result ≡ spec.made_kind (option_map (λ n. n.now) name.entry) }
{
    match name {
        Some(_) => PartKind::Declaration,
        None => PartKind::Update,
    }
}

/// Returns what a statement without blocks is to the statements around it.
pub fn kind_of(of: Simple, given: &Given<'_>) -> PartKind
    ensures { result ≡ spec.kind_of of (given_of given.now) }
{
    match of {
        Simple::Break => PartKind::Break,
        Simple::Continue | Simple::Discard | Simple::Return { .. } => PartKind::Other,
        Simple::Barrier { .. } | Simple::ImageStore { .. } => PartKind::Update,
        Simple::Store { .. } => stored_kind(given.store),
        _ => made_kind(given.result),
    }
}
