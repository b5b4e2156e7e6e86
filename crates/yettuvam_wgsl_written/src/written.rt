// Written expressions and the parentheses that they need.
ghost use Rattle.std.specs.Prelude.{◌≡◌, ◌++◌, OnOk, IfOk, map};
ghost use Rattle.yettuvam_wgsl_pieces.specs.Pieces.{piece_of};
ghost use Rattle.yettuvam_wgsl_written.specs.Written as spec;
ghost use Rattle.yettuvam_wgsl_written.specs.Written.{written_of};

use crate::operators::{Level, is_singular, may_open};
use std::alloc::{AllocError, Global};
use yettuvam_wgsl_pieces::{Piece, Sign};

/// What the text of an expression is.
#[derive(Clone, Copy, PartialEq, Eq, Debug)]
pub enum Role {
    Value,
    /// A place in memory; the expression means the place, or a pointer to it.
    Place,
    /// The name of a pointer; the expression means the pointer, or its place.
    Pointer,
}

/// An expression as pieces.
#[derive(Drop)]
pub struct Written<'m> {
    pub pieces: Vec<Piece<'m>>,
    pub level: Level,
    pub role: Role,
}

impl<'m> Written<'m> {
    /// Returns an expression that isn't written.
    pub fn nothing(alloc: Global) -> Written<'m>
        ensures { written_of result ≡ spec.nothing }
    {
        Written {
            pieces: Vec::new(alloc),
            level: Level::Singular,
            role: Role::Value,
        }
    }

    /// Returns an expression that is a name.
    ///
    /// # Errors
    /// If out of memory.
    pub fn name(alloc: Global, name: &'m str, role: Role) -> Result<Written<'m>, AllocError>
        ensures { IfOk result (λ w. written_of w ≡ spec.name name.now role) }
    {
        let mut pieces = Vec::new(alloc);
        pieces.push(Piece::Word(name))?;
        Ok(Written {
            pieces,
            level: Level::Singular,
            role,
        })
    }
}

/// Returns the level of an expression as a value, or as a pointer.
pub fn value_level(written: &Written<'_>) -> Level
    ensures { result ≡ spec.value_level (written_of written.now) }
{
    match written.role {
        Role::Place => Level::Unary,
        _ => written.level,
    }
}

/// Returns the level of an expression as a place.
pub fn place_level(written: &Written<'_>) -> Level
    ensures { result ≡ spec.place_level (written_of written.now) }
{
    match written.role {
        Role::Pointer => Level::Unary,
        _ => written.level,
    }
}

/// Appends a piece if a condition holds.
fn push_if<'m>(out: &mut Vec<Piece<'m>>, holds: bool, sign: Sign) -> Result<(), AllocError>
    ensures { OnOk result (map piece_of out.new.items ≡ map piece_of out.old.items ++ spec.sign_if holds sign) }
{
    if holds {
        out.push(Piece::Sign(sign))?;
    }
    Ok(())
}

fn is_place(role: Role) -> bool
    ensures { result ≡ spec.is_place role }
{
    match role {
        Role::Place => true,
        _ => false,
    }
}

fn is_pointer(role: Role) -> bool
    ensures { result ≡ spec.is_pointer role }
{
    match role {
        Role::Pointer => true,
        _ => false,
    }
}

/// Appends an expression as a value or as a pointer, in parentheses unless it fits.
///
/// # Errors
/// If out of memory.
pub fn push_value<'m>(
    out: &mut Vec<Piece<'m>>,
    written: &Written<'m>,
    fits: bool,
) -> Result<(), AllocError>
    ensures { OnOk result (map piece_of out.new.items ≡ map piece_of out.old.items ++ spec.value_pieces (written_of written.now) fits) }
{
    push_if(out, !fits, Sign::LeftParen)?;
    push_if(out, is_place(written.role), Sign::AddressOf)?;
    out.extend_from_slice(&written.pieces)?;
    push_if(out, !fits, Sign::RightParen)
}

/// Appends an expression as a place, in parentheses unless it fits.
///
/// # Errors
/// If out of memory.
pub fn push_place<'m>(
    out: &mut Vec<Piece<'m>>,
    written: &Written<'m>,
    fits: bool,
) -> Result<(), AllocError>
    ensures { OnOk result (map piece_of out.new.items ≡ map piece_of out.old.items ++ spec.place_pieces (written_of written.now) fits) }
{
    push_if(out, !fits, Sign::LeftParen)?;
    push_if(out, is_pointer(written.role), Sign::Indirection)?;
    out.extend_from_slice(&written.pieces)?;
    push_if(out, !fits, Sign::RightParen)
}

/// Appends an expression, of which a member or an element follows.
///
/// # Errors
/// If out of memory.
pub fn push_base<'m>(out: &mut Vec<Piece<'m>>, written: &Written<'m>) -> Result<(), AllocError>
    ensures { OnOk result (map piece_of out.new.items ≡ map piece_of out.old.items ++ spec.base_pieces (written_of written.now)) }
{
    match written.role {
        Role::Value => push_value(out, written, is_singular(written.level)),
        _ => push_place(out, written, is_singular(place_level(written))),
    }
}

/// Appends an argument, and a comma unless it is the last one.
///
/// # Errors
/// If out of memory.
pub fn push_argument<'m>(
    out: &mut Vec<Piece<'m>>,
    written: &Written<'m>,
    is_last: bool,
) -> Result<(), AllocError>
    ensures { OnOk result (map piece_of out.new.items ≡ map piece_of out.old.items ++ spec.argument_pieces (written_of written.now) is_last) }
{
    let fits = is_last || !may_open(value_level(written));
    push_value(out, written, fits)?;
    push_if(out, !is_last, Sign::Comma)
}
