//! Judges a board from its bytes.

ghost use Rattle.std.specs.Prelude.{◌≡◌, Bool, length, Some, Ok, Err, count_by};
ghost use Rattle.grid.specs.Refusals.{listed};
ghost use Rattle.notation.specs.Judging.{judge_bytes_refusal, BoardJudged};

use crate::board::{after_size, exactly, lent_size, place, points_of};
use chains::colour::Colour;
use grid::refusal::Refusal;
use grid::size::Size;
use judge::judgement::{Marks, judge};

/// The size of a judged board, and the marks.
#[derive(Clone, Copy, PartialEq, Eq, Debug)]
pub struct Judged {
    pub size: Size,
    pub marks: Marks,
}

/// Judges the stones of one colour on lent memory, which then holds the board, its chains and that colour's rooms;
/// or says why not, and leaves that memory as it was.
pub fn judge_board(
    bytes: &[u8],
    colour: Colour,
    lent: &mut [u8],
    chains: &mut [u16],
    rooms: &mut [u16],
) -> Result<Judged, Refusal>
    ensures { elim result [
      | Ok judged ↦ BoardJudged bytes.now colour lent.old chains.old rooms.old judged lent.new chains.new rooms.new
      | Err e ↦ (judge_bytes_refusal bytes.now (length lent.old) (length chains.old) (length rooms.old) ≡ Some (listed e))
          × (lent.new ≡ lent.old) × (chains.new ≡ chains.old) × (rooms.new ≡ rooms.old)
    ] }
{
    // each check hands on its value, in the order of the list
    let size = lent_size(bytes, lent.len(), chains.len(), rooms.len())?;
    let rest = after_size(bytes);
    let Some(cells) = exactly(rest, size.points()) else {
        return Err(Refusal::Count(rest.len()));
    };
    let position = points_of(size, cells)?;
    let marks = judge(position, colour, chains, rooms)?;
    place(cells, lent);
    Ok(Judged { size, marks })
}

/// How many stones are marked.
pub fn marked_stones(marks: Marks) -> usize
    ensures { result ≡ count_by (λ (b : Bool). b) marks.marked }
{
    marks.entries().iter().filter(|mark| **mark).count()
}
