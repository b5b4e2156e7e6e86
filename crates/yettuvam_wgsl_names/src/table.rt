//! Lookups in tables that are ordered by their names, or by their codes.
ghost use Rattle.std.specs.Prelude.{◌≡◌, IsTrue, nat_eq};
ghost use Rattle.std.specs.Ordering.{nat_cmp};
ghost use Rattle.std.specs.Map.{lookup};
ghost use Rattle.yettuvam_wgsl_names.specs.Table.{rows, is_ordered, is_ordered_by, meaning};

use std::cmp::Ordering;

/// Returns the value of the row with a name, if there is one. Takes time logarithmic in the number of rows.
pub fn find<V: Copy>(table: &[(&str, V)], name: &str) -> Option<V>
    requires { IsTrue (is_ordered (rows table.now)) }
    ensures { result ≡ meaning (rows table.now) name.now }
{
    let (front, rest) = table.split_at(table.len() / 2);
    let [(found, value), back @ ..] = rest else {
        return None;
    };
    match name.cmp(found) {
        Ordering::Less => find(front, name),
        Ordering::Equal => Some(*value),
        Ordering::Greater => find(back, name),
    }
}

/// Returns the value of the row with a code, if there is one. Takes time logarithmic in the number of rows.
pub fn find_code<V: Copy>(table: &[(u64, V)], code: u64) -> Option<V>
    requires { IsTrue (is_ordered_by nat_cmp table.now) }
    ensures { result ≡ lookup (nat_eq code) table.now }
{
    let (front, rest) = table.split_at(table.len() / 2);
    let [(found, value), back @ ..] = rest else {
        return None;
    };
    match code.cmp(found) {
        Ordering::Less => find_code(front, code),
        Ordering::Equal => Some(*value),
        Ordering::Greater => find_code(back, code),
    }
}
