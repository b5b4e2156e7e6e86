// Blocks and loops, of which some are written as `while` or `for`.
ghost use Rattle.std.specs.Prelude.{◌≡◌, [], IfOk, map, option_map};
ghost use Rattle.yettuvam_wgsl_pieces.specs.Pieces.{piece_of};
ghost use Rattle.yettuvam_wgsl_write_blocks.specs.Loops as spec;
ghost use Rattle.yettuvam_wgsl_write_blocks.specs.Parts.{part_of, parts_of};
ghost use Rattle.yettuvam_wgsl_write_items.specs.Text.{Adds};

use crate::parts::{
    Part, PartKind, Pieces, other_part, push_block, push_braced, push_parts, texts,
};
use std::alloc::{AllocError, Global};
use yettuvam_wgsl_pieces::{Piece, Sign};

fn is_guard(kind: PartKind) -> bool
    ensures { result ≡ spec.is_guard kind }
{
    match kind {
        PartKind::Guard => true,
        _ => false,
    }
}

fn is_block(kind: PartKind) -> bool
    ensures { result ≡ spec.is_block kind }
{
    match kind {
        PartKind::Block => true,
        _ => false,
    }
}

fn is_loop(kind: PartKind) -> bool
    ensures { result ≡ spec.is_loop kind }
{
    match kind {
        PartKind::Loop => true,
        _ => false,
    }
}

fn is_update(kind: PartKind) -> bool
    ensures { result ≡ spec.is_update kind }
{
    match kind {
        PartKind::Update => true,
        _ => false,
    }
}

// Whether a statement may begin the head of a `for`.
fn may_begin(kind: PartKind) -> bool
    ensures { result ≡ spec.may_begin kind }
{
    match kind {
        PartKind::Declaration | PartKind::Update => true,
        _ => false,
    }
}

// ---- `for` and `while`

// Appends `for (INITIAL; CONDITION; STEP) {..}`, where the head follows INITIAL.
#[tactic(auto, unfolding(crate::specs::Loops::for_text))]
fn push_for<'m>(
    out: &mut Pieces<'m>,
    initial: &[Piece<'m>],
    head: &[Piece<'m>],
    inside: &[Piece<'m>],
) -> Result<(), AllocError>
    ensures { Adds (spec.for_text (map piece_of initial.now) (map piece_of head.now) (map piece_of inside.now)) result out.old out.new }
{
    out.push(Piece::Sign(Sign::ForWord))?;
    out.push(Piece::Sign(Sign::LeftParen))?;
    out.extend_from_slice(initial)?;
    out.extend_from_slice(head)?;
    push_braced(out, inside)
}

#[tactic(auto, unfolding(crate::specs::Loops::while_text))]
fn push_while<'m>(
    out: &mut Pieces<'m>,
    condition: &[Piece<'m>],
    inside: &[Piece<'m>],
) -> Result<(), AllocError>
    ensures { Adds (spec.while_text (map piece_of condition.now) (map piece_of inside.now)) result out.old out.new }
{
    out.push(Piece::Sign(Sign::WhileWord))?;
    out.extend_from_slice(condition)?;
    push_braced(out, inside)
}

// Returns the head of a `for` from the first `;` on.
#[tactic(auto, unfolding(crate::specs::Loops::for_head))]
fn for_head<'m>(
    alloc: Global,
    condition: &[Piece<'m>],
    step: &[Piece<'m>],
) -> Result<Pieces<'m>, AllocError>
    ensures { IfOk result (λ v. map piece_of v.items ≡ spec.for_head (map piece_of condition.now) (map piece_of step.now)) }
{
    let mut head = Vec::new(alloc);
    head.push(Piece::Sign(Sign::HeadSemicolon))?;
    head.extend_from_slice(condition)?;
    head.push(Piece::Sign(Sign::HeadSemicolon))?;
    head.extend_from_slice(step)?;
    head.push(Piece::Sign(Sign::RightParen))?;
    Ok(head)
}

fn has_none(pieces: &[Piece<'_>]) -> bool
    ensures { result ≡ spec.has_none (map piece_of pieces.now) }
{
    match pieces {
        [] => true,
        [_, ..] => false,
    }
}

// Whether a loop is written as `while`: it has a condition and no step.
fn is_while(condition: &[Piece<'_>], step: &[Piece<'_>]) -> bool
    ensures { result ≡ spec.is_while (map piece_of condition.now) (map piece_of step.now) }
{
    !has_none(condition) && has_none(step)
}

fn push_head_loop<'m>(
    out: &mut Pieces<'m>,
    condition: &[Piece<'m>],
    step: &[Piece<'m>],
    head: &[Piece<'m>],
    inside: &[Piece<'m>],
) -> Result<(), AllocError>
    ensures { Adds (spec.head_loop_text (map piece_of condition.now) (map piece_of step.now) (map piece_of head.now) (map piece_of inside.now)) result out.old out.new }
{
    if is_while(condition, step) {
        push_while(out, condition, inside)
    } else {
        push_for(out, &[], head, inside)
    }
}

// Returns a loop with a condition, a step and a body, of which the first two may be empty.
#[tactic(auto, unfolding(crate::specs::Loops::head_loop))]
fn head_loop<'m>(
    alloc: Global,
    condition: &[Piece<'m>],
    step: &[Piece<'m>],
    inside: &[Piece<'m>],
) -> Result<Part<'m>, AllocError>
    ensures { IfOk result (λ p. part_of p ≡ spec.head_loop (map piece_of condition.now) (map piece_of step.now) (map piece_of inside.now)) }
{
    let head = for_head(alloc, condition, step)?;
    let mut text = Vec::new(alloc);
    push_head_loop(&mut text, condition, step, &head, inside)?;
    let inside = Vec::from_slice(alloc, inside)?;
    Ok(Part {
        kind: PartKind::Loop,
        text,
        head,
        inside,
    })
}

// ---- the form of a body

// The statement, if it is a block.
fn block_only<'p, 'm>(part: &'p Part<'m>) -> Option<&'p Part<'m>>
    ensures { option_map (λ p. part_of p.now) result ≡ spec.block_only (part_of part.now) }
{
    if is_block(part.kind) {
        Some(part)
    } else {
        None
    }
}

// The condition of the guard before the block of a loop's body; of no guard, no pieces.
fn guard_condition<'p, 'm>(body: &'p [Part<'m>]) -> &'p [Piece<'m>]
    ensures { map piece_of result.now ≡ spec.guard_condition (parts_of body.now) }
{
    match body {
        [guard, _] => {
            if is_guard(guard.kind) {
                &guard.head
            } else {
                &[]
            }
        }
        _ => &[],
    }
}

// The block of a loop's body that has nothing else but a guard.
fn body_block<'p, 'm>(body: &'p [Part<'m>]) -> Option<&'p Part<'m>>
    ensures { option_map (λ p. part_of p.now) result ≡ spec.body_block (parts_of body.now) }
{
    match body {
        [block] => block_only(block),
        [guard, block] => {
            if is_guard(guard.kind) {
                block_only(block)
            } else {
                None
            }
        }
        _ => None,
    }
}

fn no_pieces<'p, 'm>() -> &'p [Piece<'m>]
    ensures { result.now ≡ [] }
{
    &[]
}

// The step of a `for` that does what a statement does.
fn update_step<'p, 'm>(update: &'p Part<'m>) -> Option<&'p [Piece<'m>]>
    ensures { option_map (λ s. map piece_of s.now) result ≡ spec.update_step (part_of update.now) }
{
    if is_update(update.kind) {
        Some(update.head.as_slice())
    } else {
        None
    }
}

// The step of a `for` that does what a `continuing` block does.
fn step_of<'p, 'm>(continuing: &'p [Part<'m>]) -> Option<&'p [Piece<'m>]>
    ensures { option_map (λ s. map piece_of s.now) result ≡ spec.step_of (parts_of continuing.now) }
{
    match continuing {
        [] => Some(no_pieces()),
        [update] => update_step(update),
        _ => None,
    }
}

// ---- `loop`

fn push_break_if<'m>(out: &mut Pieces<'m>, break_if: Option<&[Piece<'m>]>) -> Result<(), AllocError>
    ensures { Adds (spec.break_if_text (option_map (λ c. map piece_of c.now) break_if.entry)) result out.old out.new }
{
    let Some(condition) = break_if else {
        return Ok(());
    };
    out.push(Piece::Sign(Sign::BreakWord))?;
    out.push(Piece::Sign(Sign::IfWord))?;
    out.extend_from_slice(condition)?;
    Ok(out.push(Piece::Sign(Sign::Semicolon))?)
}

#[tactic(auto, unfolding(crate::specs::Loops::continuing_block))]
fn push_continuing_block<'m>(
    out: &mut Pieces<'m>,
    continuing: &[Part<'m>],
    break_if: Option<&[Piece<'m>]>,
) -> Result<(), AllocError>
    ensures { Adds (spec.continuing_block (parts_of continuing.now) (option_map (λ c. map piece_of c.now) break_if.entry)) result out.old out.new }
{
    out.push(Piece::Sign(Sign::ContinuingWord))?;
    out.push(Piece::Sign(Sign::LeftBrace))?;
    push_parts(out, continuing)?;
    push_break_if(out, break_if)?;
    Ok(out.push(Piece::Sign(Sign::RightBrace))?)
}

fn is_empty(continuing: &[Part<'_>], break_if: Option<&[Piece<'_>]>) -> bool
    ensures { result ≡ spec.is_empty (parts_of continuing.now) (option_map (λ c. map piece_of c.now) break_if.entry) }
{
    match (continuing, break_if) {
        ([], None) => true,
        _ => false,
    }
}

// Appends the `continuing` block, unless it has nothing.
fn push_continuing<'m>(
    out: &mut Pieces<'m>,
    continuing: &[Part<'m>],
    break_if: Option<&[Piece<'m>]>,
) -> Result<(), AllocError>
    ensures { Adds (spec.continuing_text (parts_of continuing.now) (option_map (λ c. map piece_of c.now) break_if.entry)) result out.old out.new }
{
    if is_empty(continuing, break_if) {
        return Ok(());
    }
    push_continuing_block(out, continuing, break_if)
}

#[tactic(auto, unfolding(crate::specs::Loops::loop_text))]
fn push_loop<'m>(
    out: &mut Pieces<'m>,
    body: &[Part<'m>],
    continuing: &[Part<'m>],
    break_if: Option<&[Piece<'m>]>,
) -> Result<(), AllocError>
    ensures { Adds (spec.loop_text (parts_of body.now) (parts_of continuing.now) (option_map (λ c. map piece_of c.now) break_if.entry)) result out.old out.new }
{
    out.push(Piece::Sign(Sign::LoopWord))?;
    out.push(Piece::Sign(Sign::LeftBrace))?;
    push_parts(out, body)?;
    push_continuing(out, continuing, break_if)?;
    Ok(out.push(Piece::Sign(Sign::RightBrace))?)
}

fn plain_loop<'m>(
    alloc: Global,
    body: &[Part<'m>],
    continuing: &[Part<'m>],
    break_if: Option<&[Piece<'m>]>,
) -> Result<Part<'m>, AllocError>
    ensures { IfOk result (λ p. part_of p ≡ spec.plain_loop (parts_of body.now) (parts_of continuing.now) (option_map (λ c. map piece_of c.now) break_if.entry)) }
{
    let mut text = Vec::new(alloc);
    push_loop(&mut text, body, continuing, break_if)?;
    Ok(other_part(alloc, text))
}

// Returns a loop without the condition that ends it after the `continuing` block.
#[tactic(auto, unfolding(crate::specs::Loops::endless_loop))]
fn endless_loop<'m>(
    alloc: Global,
    body: &[Part<'m>],
    continuing: &[Part<'m>],
) -> Result<Part<'m>, AllocError>
    ensures { IfOk result (λ p. part_of p ≡ spec.endless_loop (parts_of body.now) (parts_of continuing.now)) }
{
    match (body_block(body), step_of(continuing)) {
        (Some(block), Some(step)) => head_loop(alloc, guard_condition(body), step, &block.inside),
        _ => plain_loop(alloc, body, continuing, None),
    }
}

/// Returns a loop of its body, its `continuing` block, and the condition that ends it.
///
/// # Errors
/// If out of memory.
pub fn loop_part<'m>(
    alloc: Global,
    body: &[Part<'m>],
    continuing: &[Part<'m>],
    break_if: Option<&[Piece<'m>]>,
) -> Result<Part<'m>, AllocError>
    ensures { IfOk result (λ p. part_of p ≡ spec.loop_part (parts_of body.now) (parts_of continuing.now) (option_map (λ c. map piece_of c.now) break_if.entry)) }
{
    match break_if {
        Some(condition) => plain_loop(alloc, body, continuing, Some(condition)),
        None => endless_loop(alloc, body, continuing),
    }
}

// ---- blocks

// Appends a block, which is a `for` if it has the form of one.
fn push_block_statement<'m>(out: &mut Pieces<'m>, parts: &[Part<'m>]) -> Result<(), AllocError>
    ensures { Adds (spec.block_statement (parts_of parts.now)) result out.old out.new }
{
    match parts {
        [first, second] => {
            if may_begin(first.kind) && is_loop(second.kind) {
                push_for(out, &first.head, &second.head, &second.inside)
            } else {
                push_block(out, parts)
            }
        }
        _ => push_block(out, parts),
    }
}

/// Returns a block that stands among statements.
///
/// # Errors
/// If out of memory.
pub fn block_part<'m>(alloc: Global, parts: &[Part<'m>]) -> Result<Part<'m>, AllocError>
    ensures { IfOk result (λ p. part_of p ≡ spec.block_part (parts_of parts.now)) }
{
    let mut text = Vec::new(alloc);
    push_block_statement(&mut text, parts)?;
    let inside = texts(alloc, parts)?;
    Ok(Part {
        kind: PartKind::Block,
        text,
        head: Vec::new(alloc),
        inside,
    })
}
