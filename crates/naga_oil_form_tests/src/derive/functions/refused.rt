//! Where memory is refused, a result is that with ample memory, or out of memory, and each function that was there keeps
//! its handle. So these tests pass whichever one allocation is refused. They are to be run with the first allocation refused,
//! then with the second, and so on until no test comes to the one that is refused.
use super::entered::is_entry;
use super::*;

const FIVE: Span = Span { start: 5, end: 6 };

const SEVEN: Span = Span { start: 7, end: 8 };

static ALL: Case = Case {
    rows: &[
        (Leaf, "f"),
        (Caller, "g"),
        (Summed, "sum"),
        (Initialised, "initialised"),
        (Merged, "merged"),
    ],
    is_entered: true,
    offset: 100,
    calls: &[
        (Alone, 2, 0),
        (Alone, 3, 0),
        (Alone, 4, 0),
        (Mapped, 1, 1),
        (IfNew(SEVEN), 1, 1),
        (Again(FIVE), 1, 2),
        (Mapped, 1, 2),
        (IfNew(SEVEN), 2, 3),
        (Mapped, 3, 4),
        (Again(FIVE), 4, 5),
        (IfNew(SEVEN), 0, 0),
    ],
    ends: None,
};

/// That what was tested holds, or its source found no memory.
fn holds_refused(is_so: Result<bool, AllocError>) -> Result<(), Fail> {
    match is_so {
        Ok(is_so) => holds(is_so),
        Err(_) => Ok(()),
    }
}

#[test]
fn a_refused_copy_moves_no_function(rt: HostRuntime) -> Result<(), Fail> {
    holds_refused(is_case(&ALL, 2, rt.alloc()))
}

#[test]
fn a_refused_entry_point_is_no_other(rt: HostRuntime) -> Result<(), Fail> {
    holds_refused(is_entry(2, rt.alloc()))
}
