// Operators and how strongly they bind.
ghost use Rattle.std.specs.Prelude.{◌≡◌};
ghost use Rattle.yettuvam_wgsl_written.specs.Operators as spec;

use yettuvam_wgsl_pieces::Sign;

/// What stands at the top of a written expression.
#[derive(Clone, Copy, PartialEq, Eq, Debug)]
pub enum Level {
    /// A name, a literal, a call, an expression in parentheses, or a member or an element of these.
    Singular,
    Unary,
    Product,
    Sum,
    Shift,
    Relation,
    /// `&&`
    And,
    /// `||`
    Or,
    /// `&`
    BitAnd,
    /// `|`
    BitOr,
    /// `^`
    BitXor,
}

/// An operator of two operands.
#[derive(Clone, Copy, PartialEq, Eq, Debug)]
pub struct Operator {
    pub sign: Sign,
    /// The sign of the assignment by the operator, if there is one.
    pub assignment: Option<Sign>,
    pub level: Level,
}

fn assigning(sign: Sign, assignment: Sign, level: Level) -> Option<Operator>
    ensures { result ≡ spec.assigning sign assignment level }
{
    let assignment = Some(assignment);
    Some(Operator {
        sign,
        assignment,
        level,
    })
}

fn comparing(sign: Sign, level: Level) -> Option<Operator>
    ensures { result ≡ spec.comparing sign level }
{
    Some(Operator {
        sign,
        assignment: None,
        level,
    })
}

/// Returns the operator of a code, if it has one.
#[rattlefmt::skip]
pub fn binary_operator(code: u64) -> Option<Operator>
    ensures { result ≡ spec.binary_operator code }
{
    match code {
        1 => assigning(Sign::Plus, Sign::PlusEqual, Level::Sum),
        2 => assigning(Sign::Minus, Sign::MinusEqual, Level::Sum),
        3 => assigning(Sign::Star, Sign::StarEqual, Level::Product),
        4 => assigning(Sign::Slash, Sign::SlashEqual, Level::Product),
        5 => assigning(Sign::Percent, Sign::PercentEqual, Level::Product),
        6 => assigning(Sign::And, Sign::AndEqual, Level::BitAnd),
        7 => assigning(Sign::Or, Sign::OrEqual, Level::BitOr),
        8 => assigning(Sign::Xor, Sign::XorEqual, Level::BitXor),
        9 => assigning(Sign::ShiftLeft, Sign::ShiftLeftEqual, Level::Shift),
        10 => assigning(Sign::ShiftRight, Sign::ShiftRightEqual, Level::Shift),
        11 => comparing(Sign::EqualEqual, Level::Relation),
        12 => comparing(Sign::NotEqual, Level::Relation),
        13 => comparing(Sign::Less, Level::Relation),
        14 => comparing(Sign::LessEqual, Level::Relation),
        15 => comparing(Sign::Greater, Level::Relation),
        16 => comparing(Sign::GreaterEqual, Level::Relation),
        17 => comparing(Sign::AndAnd, Level::And),
        18 => comparing(Sign::OrOr, Level::Or),
        _ => None,
    }
}

/// Returns the sign of a code of an operator of one operand, if it has one.
pub fn unary_operator(code: u64) -> Option<Sign>
    ensures { result ≡ spec.unary_operator code }
{
    match code {
        1 => Some(Sign::Negate),
        2 => Some(Sign::Not),
        3 => Some(Sign::Complement),
        _ => None,
    }
}

/// Returns whether an expression may stand where WGSL wants a unary one.
pub fn is_unary(level: Level) -> bool
    ensures { result ≡ spec.is_unary level }
{
    match level {
        Level::Singular | Level::Unary => true,
        _ => false,
    }
}

fn is_product(level: Level) -> bool
    ensures { result ≡ spec.is_product level }
{
    match level {
        Level::Singular | Level::Unary | Level::Product => true,
        _ => false,
    }
}

fn is_sum(level: Level) -> bool
    ensures { result ≡ spec.is_sum level }
{
    match level {
        Level::Singular | Level::Unary | Level::Product | Level::Sum => true,
        _ => false,
    }
}

fn is_relation(level: Level) -> bool
    ensures { result ≡ spec.is_relation level }
{
    match level {
        Level::Relation => true,
        _ => is_sum(level),
    }
}

/// Returns whether an expression is a name, a literal, a call, or a part of these.
pub fn is_singular(level: Level) -> bool
    ensures { result ≡ spec.is_singular level }
{
    match level {
        Level::Singular => true,
        _ => false,
    }
}

/// Returns whether an operand of a level needs no parentheses right of an operator. A shift after a comparison has them, since a
/// template list may be read up to its `>>`.
pub fn fits_right(operator: Level, operand: Level) -> bool
    ensures { result ≡ spec.fits_right operator operand }
{
    match operator {
        Level::Sum => is_product(operand),
        Level::Relation => is_sum(operand),
        Level::And | Level::Or => is_relation(operand),
        Level::Singular => is_singular(operand),
        _ => is_unary(operand),
    }
}

// Whether an operator may be repeated without parentheses.
fn repeats(operator: Level, operand: Level) -> bool
    ensures { result ≡ spec.repeats operator operand }
{
    match (operator, operand) {
        (Level::Product, Level::Product)
        | (Level::Sum, Level::Sum)
        | (Level::And, Level::And)
        | (Level::Or, Level::Or)
        | (Level::BitAnd, Level::BitAnd)
        | (Level::BitOr, Level::BitOr)
        | (Level::BitXor, Level::BitXor) => true,
        _ => false,
    }
}

/// Returns whether an operand of a level needs no parentheses left of an operator.
pub fn fits_left(operator: Level, operand: Level) -> bool
    ensures { result ≡ spec.fits_left operator operand }
{
    repeats(operator, operand) || fits_right(operator, operand)
}

/// Returns whether an expression of a level may hold a `<` that would begin a template list where a `>` follows.
pub fn may_open(level: Level) -> bool
    ensures { result ≡ spec.may_open level }
{
    match level {
        Level::Relation | Level::And | Level::Or => true,
        _ => false,
    }
}
