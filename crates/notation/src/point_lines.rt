//! The lines that list points: the marked ones, and the moves that take a chain.

ghost use Rattle.std.specs.Prelude.{◌≡◌, false, length, IfOk, string_bytes, slice_index_or};
ghost use Rattle.notation.specs.Lines.{points_text, chosen, marks_text, taken_text};

use chains::colour::Colour;
use std::alloc::{AllocError, Global};

/// A colour's marked points, or that there are none.
pub fn marks_line(heap: Global, colour: Colour, marked: &[bool]) -> Result<String, AllocError>
    ensures { IfOk result (λ text. string_bytes text ≡ marks_text colour (λ p. slice_index_or marked.now p false) (length marked.now)) }
{
    let points = marked_points(heap, marked)?;
    if points.is_empty() {
        format!(in heap; "{colour} none")
    } else {
        format!(in heap; "{colour}{points}")
    }
}

/// A chain by its first point, and the moves that take it.
pub fn taken_line(
    heap: Global,
    colour: Colour,
    first: usize,
    moves: &[u16],
) -> Result<String, AllocError>
    ensures { IfOk result (λ text. string_bytes text ≡ taken_text colour first moves.now) }
{
    let row = row_points(heap, moves)?;
    format!(in heap; "{colour} {first} taken by{row}")
}

/// The points whose entry is true.
fn marked_points(heap: Global, marked: &[bool]) -> Result<String, AllocError>
    ensures { IfOk result (λ text. string_bytes text ≡ points_text (chosen (λ p. slice_index_or marked.now p false) (length marked.now))) }
{
    let mut text = String::new(heap);
    for (point, mark) in marked.iter().enumerate() {
        if *mark {
            write!(text, " {point}")?;
        }
    }
    Ok(text)
}

/// The points of a row of moves.
// Not one with `marked_points`: over any iterator it would require what both callers then have to prove.
fn row_points(heap: Global, moves: &[u16]) -> Result<String, AllocError>
    ensures { IfOk result (λ text. string_bytes text ≡ points_text moves.now) }
{
    let mut text = String::new(heap);
    for point in moves {
        write!(text, " {point}")?;
    }
    Ok(text)
}
