//! A board together with the judgement of one colour: it is judged once, and then shows rows for as many stones as are asked for.

ghost use Rattle.std.specs.Prelude.{◌≡◌, ◌≤◌, true, false, length, Some, None, Ok, Err, slice_index_or};
ghost use Rattle.grid.specs.Refusals.{listed};
ghost use Rattle.chains.specs.Board.{mine};
ghost use Rattle.chains.specs.Computed.{is_state};
ghost use Rattle.chains.specs.Sized.{count_of, seen};
ghost use Rattle.judge.specs.Promise.{Judges};
ghost use Rattle.judge.specs.Refused.{judge_refusal};
ghost use Rattle.capture.specs.Judged.{all_breathe, MarksMade, row_refusal};
ghost use Rattle.capture.specs.Row.{RowShown};

use crate::capturing::write_row;
use chains::colour::Colour;
use chains::position::Position;
use grid::refusal::{Lent, Refusal, Untaken};
use grid::size::Size;
use judge::judgement::{Marks, judge};

/// A board that can stand, and the marks of one colour on it.
#[derive(Clone, Copy)]
pub struct Judgement {
    position: Position,
    colour: Colour,
    marks: Marks,
    ghost stands: { all_breathe position.size position.cells ≡ true },
    ghost right: { ∥ Judges position.size.width position.size.height (seen position.size position.cells colour) (λ p. slice_index_or marks.marked p false) ∥₁ },
}

impl Judgement {
    /// Judges the stones of one colour, and writes the first points of the chains and of that side's rooms.
    pub fn new(
        position: Position,
        colour: Colour,
        chains: &mut [u16],
        rooms: &mut [u16],
    ) -> Result<Judgement, Refusal>
        ensures { elim result [
          | Ok judgement ↦ (judgement.position ≡ position) × (judgement.colour ≡ colour)
              × MarksMade position colour chains.old rooms.old chains.new rooms.new judgement.marks
          | Err e ↦ (Some (listed e) ≡ judge_refusal position.size position.cells chains.old rooms.old)
              × (chains.new ≡ chains.old) × (rooms.new ≡ rooms.old)
        ] }
    {
        let marks = judge(position, colour, chains, rooms)?;
        Ok(Judgement {
            position,
            colour,
            marks,
        })
    }

    /// The size of the board.
    pub fn size(self) -> Size
        ensures { result ≡ self.position.size }
    {
        self.position.size()
    }

    /// Which stones of the colour are marked.
    pub fn marks(self) -> Marks
        ensures { result ≡ self.marks }
    {
        self.marks
    }

    /// Writes a row of moves that takes the stone of the colour at the point: how many they are.
    pub fn row(&self, point: usize, moves: &mut [u16]) -> Result<usize, Refusal>
        ensures answer { elim result [
          | Ok count ↦ (row_refusal self.now.position self.now.colour self.now.marks point (length moves.old) ≡ None)
              × RowShown self.now.position.size.width self.now.position.size.height
              (seen self.now.position.size self.now.position.cells self.now.colour) point moves.old moves.new count
          | Err e ↦ (Some (listed e) ≡ row_refusal self.now.position self.now.colour self.now.marks point (length moves.old)) × (moves.new ≡ moves.old)
        ] }
        ensures inside { elim result [ Ok count ↦ count ≤ length moves.old | Err _ ↦ Unit {0} ] }
    {
        if moves.len() < self.position.size().points() {
            return Err(Refusal::TooShort(Lent::Moves));
        }
        if self.position.at(point) != Some(self.colour) {
            return Err(Refusal::NotShown(Untaken::NoStone));
        }
        if self.marks.has(point) {
            return Err(Refusal::NotShown(Untaken::Marked));
        }
        Ok(self.take(point, moves))
    }

    fn take(&self, point: usize, moves: &mut [u16]) -> usize
        requires long { count_of self.now.position.size ≤ length moves.old }
        requires stone { is_state mine (seen self.now.position.size self.now.position.cells self.now.colour point) ≡ true }
        requires unmarked { slice_index_or self.now.marks.marked point false ≡ false }
        ensures row { RowShown self.now.position.size.width self.now.position.size.height
            (seen self.now.position.size self.now.position.cells self.now.colour) point moves.old moves.new result }
        ensures inside { result ≤ length moves.old }
    {
        write_row(self.position, self.colour, point, moves)
    }
}
