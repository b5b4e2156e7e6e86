//! Where memory is refused, a result is that with ample memory, or out of memory, and a refused redirection changes
//! nothing. So these tests pass whichever one allocation is refused. They are to be run with the first allocation refused, then
//! with the second, and so on until no test comes to the one that is refused.
use super::*;

/// One of two runs of a case has its expected results, each of its calls by one of two.
fn holds_refused(case: &Case, alloc: Global) -> Result<(), Fail> {
    for _ in 0..2 {
        if let Ok(Some(is_so)) = is_case(case, 2, alloc) {
            return holds(Some(is_so));
        }
    }
    Err(Fail::from("refused twice"))
}

#[test]
fn a_refused_redirection_changes_nothing(rt: HostRuntime) -> Result<(), Fail> {
    holds_refused(&CHAIN, rt.alloc())
}

#[test]
fn a_refused_error_is_no_other(rt: HostRuntime) -> Result<(), Fail> {
    holds_refused(&WIDE, rt.alloc())
}

#[test]
fn a_refused_order_is_no_other(rt: HostRuntime) -> Result<(), Fail> {
    holds_refused(&AFTER, rt.alloc())
}

#[test]
fn a_refused_circle_is_no_order(rt: HostRuntime) -> Result<(), Fail> {
    holds_refused(&CIRCLE, rt.alloc())
}
