//! The auditor of marks that come from elsewhere.

ghost use Rattle.std.specs.Prelude.{◌≡◌, ◌≤◌, length, Some, Ok, Err};
ghost use Rattle.std.specs.List.{position, prefix_len, zip};
ghost use Rattle.grid.specs.Refusals.{listed};
ghost use Rattle.chains.specs.Sized.{count_of, seen};
ghost use Rattle.capture.specs.Auditing.{colour_numbered, is_mark, is_wrong, marked_by, audit_refusal, Auditable, VerdictExact, Audited};

use crate::judgement::Judgement;
use crate::showing::{LentLengths, fits};
use chains::colour::Colour;
use chains::position::Position;
use grid::refusal::Refusal;
use judge::judgement::Marks;

/// The byte of a marked point.
const MARKED: u8 = 1;

/// The place that the refusal of a colour names.
const COLOUR_PLACE: usize = 0;

/// Whether marks are the judgement, or the first point where they are not: a mark is missing there, a mark is too many and so many moves take the stone, or no stone of the colour is there.
#[derive(Clone, Copy, PartialEq, Eq, Debug)]
pub enum Verdict {
    Right,
    Missing(usize),
    TooMany { point: usize, moves: usize },
    NoStone(usize),
}

/// Audits the marks of the stones of one colour, 0 for black and 1 for white: a byte for each point, 1 for a mark and 0 for none.
/// A row of moves that takes a stone with a mark too many is written, and the first points of the chains and of the rooms of that side.
pub fn audit(
    position: Position,
    colour: u8,
    marks: &[u8],
    chains: &mut [u16],
    rooms: &mut [u16],
    moves: &mut [u16],
) -> Result<Verdict, Refusal>
    ensures { elim result [
      | Ok verdict ↦ Audited position.size position.cells colour marks.now chains.old rooms.old moves.old chains.new rooms.new moves.new verdict
      | Err e ↦ (Some (listed e) ≡ audit_refusal position.size position.cells colour marks.now (length chains.old) (length rooms.old) (length moves.old))
          × (chains.new ≡ chains.old) × (rooms.new ≡ rooms.old) × (moves.new ≡ moves.old)
    ] }
{
    let lent = LentLengths {
        chains: chains.len(),
        rooms: rooms.len(),
        moves: moves.len(),
    };
    let side = audited_side(&position, colour, marks, lent)?;
    let judgement = Judgement::new(position, side, chains, rooms)?;
    Ok(compare(&judgement, marks, moves))
}

/// The colour of a number. Not `TryFrom`: a byte is a letter on a board and a number only here, where the list of refusals turns others away.
fn colour_of(number: u8) -> Option<Colour>
    ensures { result ≡ colour_numbered number }
{
    match number {
        0 => Some(Colour::Black),
        1 => Some(Colour::White),
        _ => None,
    }
}

/// How many bytes, from the first on, are marks.
fn good_marks(marks: &[u8]) -> usize
    ensures value { result ≡ prefix_len is_mark marks.now }
    ensures bound { result ≤ length marks.now }
{
    marks.iter().take_while(|mark| **mark <= MARKED).count()
}

/// The colour whose marks are audited, unless a line of the list applies.
fn audited_side(
    position: &Position,
    colour: u8,
    marks: &[u8],
    lent: LentLengths,
) -> Result<Colour, Refusal>
    ensures { elim result [
      | Ok side ↦ Auditable position.now.size position.now.cells colour marks.now lent.chains lent.rooms lent.moves side
      | Err e ↦ Some (listed e) ≡ audit_refusal position.now.size position.now.cells colour marks.now lent.chains lent.rooms lent.moves
    ] }
{
    fits(position, lent)?;
    let Some(side) = colour_of(colour) else {
        return Err(Refusal::BadMarks(COLOUR_PLACE));
    };
    if marks.len() != position.size().points() {
        return Err(Refusal::BadMarks(marks.len()));
    }
    let good = good_marks(marks);
    if good < marks.len() {
        return Err(Refusal::BadMarks(good));
    }
    Ok(side)
}

/// The first point on which the marks are not those of the judgement.
fn first_wrong(marks: &[u8], judged: &Marks) -> Option<usize>
    ensures { result ≡ position is_wrong (zip marks.now judged.now.marked) }
{
    let entries = judged.entries();
    marks
        .iter()
        .zip(&entries)
        .position(|(mark, judged)| (*mark == MARKED) != *judged)
}

/// The verdict on the marks, from the judgement.
fn compare(judgement: &Judgement, marks: &[u8], moves: &mut [u16]) -> Verdict
    requires long { length marks.now ≡ count_of judgement.now.position.size }
    requires written { count_of judgement.now.position.size ≤ length moves.old }
    ensures { VerdictExact judgement.now.position.size.width judgement.now.position.size.height
        (seen judgement.now.position.size judgement.now.position.cells judgement.now.colour) (marked_by marks.now) moves.old moves.new result }
{
    let Some(point) = first_wrong(marks, &judgement.marks()) else {
        return Verdict::Right;
    };
    if marks[point] != MARKED {
        return Verdict::Missing(point);
    }
    match judgement.row(point, moves) {
        Ok(moves) => Verdict::TooMany { point, moves },
        Err(_) => Verdict::NoStone(point),
    }
}
