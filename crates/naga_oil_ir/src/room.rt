//! The capacity that is reserved ahead.
ghost use Rattle.std.specs.Prelude.{◌≤◌, ◌<◌, ◌/◌, ◌^◌, max};
ghost use Rattle.std.specs.Int.{IsPowerOfTwo};

// Counts from here on are not rounded.
const MOST: usize = 4_611_686_018_427_387_904;

/// Returns a capacity for at least `count` items or bytes: a power of two, so that lists that grow from one module to the next
/// reuse the memory of earlier lists.
pub fn rounded_room(count: usize) -> usize
    ensures enough { count ≤ result }
    ensures little { result / 2 < max 1 count }
    ensures power { count < 2 ^ 62 → IsPowerOfTwo result }
{
    if count < MOST {
        count.next_power_of_two()
    } else {
        count
    }
}
