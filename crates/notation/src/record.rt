//! Referees a whole record from its bytes.

ghost use Rattle.std.specs.Prelude.{◌≡◌, ◌%◌, true, false, length, Some, None, Ok, Err, ◌==◌};
ghost use Rattle.grid.specs.Refusals.{listed};
ghost use Rattle.notation.specs.Records.{record_bytes_refusal, RecordAnswered};

use crate::board::{after_size, enough, place, read_size, standing};
use grid::refusal::{Lent, Refusal};
use grid::size::Size;
use referee::moves::MOVE_BYTES;
use referee::outcome::Answer;
use referee::record::referee;

/// The size of a record's board, and what the referee says of its moves.
#[derive(Clone, Copy, PartialEq, Eq, Debug)]
pub struct Answered {
    pub size: Size,
    pub answer: Answer,
}

/// Referees a record on lent memory, which then holds the board that is left; or says why the record is turned away as a whole,
/// and leaves that memory as it was.
pub fn referee_record(bytes: &[u8], lent: &mut [u8]) -> Result<Answered, Refusal>
    ensures { elim result [
      | Ok answered ↦ RecordAnswered bytes.now lent.old answered lent.new
      | Err e ↦ (record_bytes_refusal bytes.now (length lent.old) ≡ Some (listed e)) × (lent.new ≡ lent.old)
    ] }
{
    let size = read_size(bytes)?;
    let Some(points) = enough(size, lent.len()) else {
        return Err(Refusal::TooShort(Lent::Points));
    };
    let rest = after_size(bytes);
    let Some((cells, moves)) = rest.split_at_checked(points) else {
        return Err(Refusal::Count(rest.len()));
    };
    let Some(moves) = whole_moves(moves) else {
        return Err(Refusal::Count(moves.len()));
    };
    standing(size, cells)?;
    place(cells, lent);
    let Ok(answer) = referee(size, lent, moves) else {
        unreachable!()
    };
    Ok(Answered { size, answer })
}

/// The bytes of the moves, if each move has both of its bytes.
fn whole_moves(moves: &[u8]) -> Option<&[u8]>
    ensures { elim result [
      | Some whole ↦ (whole.now ≡ moves.now) × ((length moves.now % 2 == 0) ≡ true)
      | None ↦ (length moves.now % 2 == 0) ≡ false
    ] }
{
    moves.len().is_multiple_of(MOVE_BYTES).then_some(moves)
}
