//! The operators of expressions.

/// The unary operators by their codes.
#[rattlefmt::skip]
pub static UNARY_OPERATORS: [(u64, &str); 3] = [
    (1, "-"), (2, "!"), (3, "~"),
];

/// The binary operators by their codes.
#[rattlefmt::skip]
pub static BINARY_OPERATORS: [(u64, &str); 18] = [
    (1, "+"), (2, "-"), (3, "*"), (4, "/"), (5, "%"), (6, "&"), (7, "|"), (8, "^"), (9, "<<"), (10, ">>"),
    (11, "=="), (12, "!="), (13, "<"), (14, "<="), (15, ">"), (16, ">="), (17, "&&"), (18, "||"),
];
