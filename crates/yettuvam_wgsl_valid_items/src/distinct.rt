//! Numbers that stand twice in a list.
ghost use Rattle.std.specs.Prelude.{◌≡◌, length};
ghost use Rattle.yettuvam_wgsl_valid_items.specs.Distinct as spec;

/// Returns whether a number is in a list.
pub fn contains(numbers: &[u64], number: u64) -> bool
    ensures { result ≡ spec.contains number numbers.now }
{
    let mut rest = numbers;
    while let [other, more @ ..] = rest {
        if *other == number {
            return true;
        }
        rest = more;
    }
    false
}

/// Returns whether no number is in a list twice.
pub fn are_distinct(numbers: &[u64]) -> bool
    ensures { result ≡ spec.are_distinct numbers.now }
{
    let mut rest = numbers;
    while let [number, more @ ..] = rest {
        if contains(more, *number) {
            return false;
        }
        rest = more;
    }
    true
}
