//! Where memory is refused, a result is that with ample memory, or out of memory, and each item that was there keeps its
//! handle. So these tests pass whichever one allocation is refused. They are to be run with the first allocation refused, then
//! with the second, and so on until no test comes to the one that is refused.
use super::*;

/// Equal items merge, and the first ray description is used in place of the second.
static ALL: Case = Case {
    first: Source {
        parts: &[
            Scalar(1, TEN),
            Scalar(2, NONE),
            Scalar(1, NONE),
            Sized("a"),
            Rays(32),
            Scalar(1, NONE),
            SecondValue,
        ],
        offset: 2_097_152,
        mapped: SHIFTED,
        copies: &[(Item(Size, 0), 0), (Item(Ty, 1), 2)],
    },
    second: Some(Source {
        parts: &[
            Scalar(1, TEN),
            Scalar(2, NONE),
            Scalar(1, NONE),
            Sized("b"),
            Rays(16),
            Scalar(1, NONE),
            SecondValue,
        ],
        offset: 4_194_304,
        mapped: Span {
            start: 4_194_314,
            end: 4_194_324,
        },
        copies: &[
            (Item(Ty, 2), 3),
            (Item(Var, 0), 0),
            (Item(Const, 0), 0),
            (Item(Value, 1), 0),
            (Named(1, "Base"), 4),
            (Named(1, "Again"), 4),
            (Item(Ty, 1), 4),
        ],
    }),
    is_special: true,
    items: &[
        (Ty, 0, (SHIFTED, "RayDesc", "struct", 32)),
        (Ty, 1, (SHIFTED, "", "scalar", 1)),
        (Ty, 2, (NONE, "", "scalar", 2)),
        (Ty, 3, (NONE, "", "size", 1)),
        (Ty, 4, (NONE, "Base", "scalar", 2)),
        (Size, 0, (NONE, "a", "type", 1)),
        (Size, 1, (NONE, "b", "type", 1)),
        (Var, 0, (NONE, "rays", "type", 0)),
        (Value, 0, (NONE, "", "bits", 3)),
        (Const, 0, (NONE, "N", "value", 0)),
    ],
    counts: [5, 1, 2, 1, 1],
};

#[test]
fn a_refused_copy_moves_no_item(rt: HostRuntime) -> Result<(), Fail> {
    match is_case(&ALL, 2, rt.alloc()) {
        Ok(is_so) => holds(is_so),
        Err(_) => Ok(()),
    }
}
