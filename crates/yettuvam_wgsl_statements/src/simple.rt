//! The statements without blocks, read from the tokens of a body. The operands of a statement are places of expressions.
ghost use Rattle.std.specs.Prelude.{◌≡◌, ◌≤◌, length};
ghost use Rattle.std.specs.List.{prefix_len};
ghost use Rattle.yettuvam_wgsl_statements.specs.Simple as spec;

use naga_oil_ir::Token;

// ---- kinds of statements

/// The kind of `break`.
pub const BREAK_HEAD: u64 = 5;

/// The kind of `continue`.
pub const CONTINUE_HEAD: u64 = 6;

/// The kind of `discard`.
pub const DISCARD_HEAD: u64 = 7;

/// The kind of a barrier.
pub const BARRIER_HEAD: u64 = 8;

/// The kind of `return`.
pub const RETURN_HEAD: u64 = 10;

/// The kind of a store.
pub const STORE_HEAD: u64 = 11;

/// The kind of a store to a texture.
pub const IMAGE_STORE_HEAD: u64 = 12;

/// The kind of an atomic function.
pub const ATOMIC_HEAD: u64 = 13;

/// The kind of `workgroupUniformLoad`.
pub const UNIFORM_LOAD_HEAD: u64 = 15;

/// The kind of a call of a function of the module.
pub const CALL_HEAD: u64 = 16;

/// The kind of a ballot of a subgroup.
pub const BALLOT_HEAD: u64 = 18;

/// The kind of a function that reads a value of another invocation of the subgroup.
pub const GATHER_HEAD: u64 = 19;

/// The kind of a collective operation of a subgroup.
pub const COLLECTIVE_HEAD: u64 = 20;

/// A statement without blocks.
#[derive(Clone, Copy, PartialEq, Eq, Debug)]
#[rattlefmt::skip]
pub enum Simple {
    Break,
    Continue,
    Discard,
    Barrier { function: u64 },
    Return { value: Option<usize> },
    Store { pointer: usize, value: usize },
    ImageStore { image: usize, coordinate: usize, array_index: Option<usize>, value: usize },
    Atomic { function: u64, compare: Option<usize>, pointer: usize, value: usize, result: Option<usize> },
    UniformLoad { pointer: usize, result: usize },
    /// A call with the number of its arguments, which follow the head and the callee.
    Call { callee: usize, arguments: usize, result: Option<usize> },
    Ballot { result: usize, predicate: Option<usize> },
    Gather { function: u64, index: Option<usize>, argument: usize, result: usize },
    Collective { function: u64, argument: usize, result: usize },
}

/// A statement and the number of its tokens, if it is one.
pub type Found = Option<(Simple, usize)>;

// The place of an operand or of a result, if it is there.
fn place_of(token: Token) -> Option<usize>
    ensures { result ≡ spec.place_of token }
{
    match token {
        Token::Use(place) | Token::Give(place) | Token::GiveCall(_, place) => Some(place.index()),
        _ => None,
    }
}

fn is_use(token: Token) -> bool
    ensures { result ≡ spec.is_use token }
{
    matches!(token, Token::Use(_))
}

// The number of operands at the front.
fn use_count(tokens: &[Token]) -> usize
    ensures value { result ≡ prefix_len spec.is_use tokens.now }
    ensures within { result ≤ length tokens.now }
{
    tokens.iter().take_while(|t| is_use(**t)).count()
}

fn barrier(rest: &[Token]) -> Found
    ensures { result ≡ spec.barrier rest.now }
{
    let [Token::Plain(function), ..] = rest else {
        return None;
    };
    let function = *function;
    Some((Simple::Barrier { function }, 2))
}

fn return_(rest: &[Token]) -> Found
    ensures { result ≡ spec.return_ rest.now }
{
    let [value, ..] = rest else {
        return None;
    };
    let value = place_of(*value);
    Some((Simple::Return { value }, 2))
}

fn store(rest: &[Token]) -> Found
    ensures { result ≡ spec.store rest.now }
{
    let [Token::Use(pointer), Token::Use(value), ..] = rest else {
        return None;
    };
    let (pointer, value) = (pointer.index(), value.index());
    Some((Simple::Store { pointer, value }, 3))
}

#[rattlefmt::skip]
fn image_store(rest: &[Token]) -> Found
    ensures { result ≡ spec.image_store rest.now }
{
    let [Token::Use(image), Token::Use(coordinate), array_index, Token::Use(value), ..] = rest else {
        return None;
    };
    let (image, coordinate, value) = (image.index(), coordinate.index(), value.index());
    let array_index = place_of(*array_index);
    Some((Simple::ImageStore { image, coordinate, array_index, value }, 5))
}

#[rattlefmt::skip]
fn atomic(rest: &[Token]) -> Found
    ensures { result ≡ spec.atomic rest.now }
{
    let [Token::Plain(function), compare, Token::Use(pointer), Token::Use(value), result, ..] = rest else {
        return None;
    };
    let (function, compare, result) = (*function, place_of(*compare), place_of(*result));
    let (pointer, value) = (pointer.index(), value.index());
    Some((Simple::Atomic { function, compare, pointer, value, result }, 6))
}

fn uniform_load(rest: &[Token]) -> Found
    ensures { result ≡ spec.uniform_load rest.now }
{
    let [Token::Use(pointer), Token::Give(result), ..] = rest else {
        return None;
    };
    let (pointer, result) = (pointer.index(), result.index());
    Some((Simple::UniformLoad { pointer, result }, 3))
}

fn call(rest: &[Token]) -> Found
    ensures { result ≡ spec.call rest.now }
{
    let [Token::Callee(callee), more @ ..] = rest else {
        return None;
    };
    let (callee, arguments) = (callee.index(), use_count(more));
    let result = place_of(*more.get(arguments)?);
    let simple = Simple::Call {
        callee,
        arguments,
        result,
    };
    Some((simple, arguments + 3))
}

fn ballot(rest: &[Token]) -> Found
    ensures { result ≡ spec.ballot rest.now }
{
    let [Token::Give(result), predicate, ..] = rest else {
        return None;
    };
    let (result, predicate) = (result.index(), place_of(*predicate));
    Some((Simple::Ballot { result, predicate }, 3))
}

#[rattlefmt::skip]
fn gather(rest: &[Token]) -> Found
    ensures { result ≡ spec.gather rest.now }
{
    let [Token::Plain(function), index, Token::Use(argument), Token::Give(result), ..] = rest else {
        return None;
    };
    let (function, index) = (*function, place_of(*index));
    let (argument, result) = (argument.index(), result.index());
    Some((Simple::Gather { function, index, argument, result }, 5))
}

#[rattlefmt::skip]
fn collective(rest: &[Token]) -> Found
    ensures { result ≡ spec.collective rest.now }
{
    let [Token::Plain(function), Token::Plain(_), Token::Use(argument), Token::Give(result), ..] = rest else {
        return None;
    };
    let (function, argument, result) = (*function, argument.index(), result.index());
    Some((Simple::Collective { function, argument, result }, 5))
}

// The statement of a kind with the tokens after its head.
fn after_head(kind: u64, rest: &[Token]) -> Found
    ensures { result ≡ spec.after_head kind rest.now }
{
    match kind {
        BREAK_HEAD => Some((Simple::Break, 1)),
        CONTINUE_HEAD => Some((Simple::Continue, 1)),
        DISCARD_HEAD => Some((Simple::Discard, 1)),
        BARRIER_HEAD => barrier(rest),
        RETURN_HEAD => return_(rest),
        STORE_HEAD => store(rest),
        IMAGE_STORE_HEAD => image_store(rest),
        ATOMIC_HEAD => atomic(rest),
        UNIFORM_LOAD_HEAD => uniform_load(rest),
        CALL_HEAD => call(rest),
        BALLOT_HEAD => ballot(rest),
        GATHER_HEAD => gather(rest),
        COLLECTIVE_HEAD => collective(rest),
        _ => None,
    }
}

/// Returns the statement at the front of the tokens of a body and the number of its tokens, or `None` if it has blocks or WGSL
/// has no such statement.
pub fn simple_at(tokens: &[Token]) -> Found
    ensures { result ≡ spec.simple_at tokens.now }
{
    let [Token::Head(kind), rest @ ..] = tokens else {
        return None;
    };
    after_head(*kind, rest)
}
