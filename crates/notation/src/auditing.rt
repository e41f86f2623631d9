//! Audits marks on the bytes of a board.

ghost use Rattle.std.specs.Prelude.{◌≡◌, length, Some, Ok, Err};
ghost use Rattle.grid.specs.Refusals.{listed};
ghost use Rattle.notation.specs.Auditing.{audit_bytes_refusal, MarksAudited};

use crate::board::{after_size, enough, exactly, lent_size, place, points_of};
use capture::audit::{Verdict, audit};
use grid::refusal::{Lent, Refusal};

/// Audits marks of the stones of one colour, 0 for black and 1 for white: a byte for each point, 1 for a mark and 0 for none.
/// Lent memory then holds the board, its chains and that side's rooms, and a row where a mark is too many; on a refusal all of it
/// is left as it was.
pub fn audit_marks(
    bytes: &[u8],
    colour: u8,
    marks: &[u8],
    lent: &mut [u8],
    chains: &mut [u16],
    rooms: &mut [u16],
    moves: &mut [u16],
) -> Result<Verdict, Refusal>
    ensures { elim result [
      | Ok verdict ↦ MarksAudited bytes.now colour marks.now lent.old chains.old rooms.old moves.old verdict lent.new chains.new rooms.new moves.new
      | Err e ↦ (audit_bytes_refusal bytes.now colour marks.now (length lent.old) (length chains.old) (length rooms.old) (length moves.old) ≡ Some (listed e))
          × (lent.new ≡ lent.old) × (chains.new ≡ chains.old) × (rooms.new ≡ rooms.old) × (moves.new ≡ moves.old)
    ] }
{
    // each check hands on its value, in the order of the list
    let size = lent_size(bytes, lent.len(), chains.len(), rooms.len())?;
    let Some(points) = enough(size, moves.len()) else {
        return Err(Refusal::TooShort(Lent::Moves));
    };
    let rest = after_size(bytes);
    let Some(cells) = exactly(rest, points) else {
        return Err(Refusal::Count(rest.len()));
    };
    let position = points_of(size, cells)?;
    let verdict = audit(position, colour, marks, chains, rooms, moves)?;
    place(cells, lent);
    Ok(verdict)
}
