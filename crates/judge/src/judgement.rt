//! The judgement: the stones of one side that no moves of the other side, in whatever number and order, take while their own side passes.

ghost use Rattle.std.specs.Prelude.{◌≡◌, ℕ, ◌≤◌, false, length, get_or, drop, Some, None, Ok, Err, slice_index_or};
ghost use Rattle.grid.specs.Refusals.{listed};
ghost use Rattle.chains.specs.Labels.{ChainLabels};
ghost use Rattle.chains.specs.Sized.{count_of, near_of, seen};
ghost use Rattle.rooms.specs.Numbered.{RoomLabels};
ghost use Rattle.judge.specs.Promise.{Judges};
ghost use Rattle.judge.specs.Refused.{judge_refusal};

use crate::survey::Survey;
use chains::colour::Colour;
use chains::labels::MAX_POINTS;
use chains::position::Position;
use grid::refusal::{Lent, Refusal};
use rooms::region_sets::Regions;

/// For each point whether its stone is marked; past the board nothing is.
#[derive(Clone, Copy, PartialEq, Eq, Debug)]
pub struct Marks {
    marked: [bool; MAX_POINTS],
}

impl Marks {
    /// The entries of all points, false past the board.
    pub fn entries(self) -> [bool; MAX_POINTS]
        ensures { result ≡ self.marked }
    {
        self.marked
    }

    /// Whether the stone at p is marked.
    pub fn has(&self, p: usize) -> bool
        ensures { result ≡ slice_index_or self.now.marked p false }
    {
        matches!(self.marked.get(p), Some(true))
    }
}

/// Judges the stones of one colour. It writes the first point of its chain for each stone of either colour into `chains`,
/// and the first point of its room for each point without a stone of that colour into `rooms`; NO_POINT elsewhere on the board.
pub fn judge(
    position: Position,
    colour: Colour,
    chains: &mut [u16],
    rooms: &mut [u16],
) -> Result<Marks, Refusal>
    ensures { elim result [
      | Ok marks ↦ (judge_refusal position.size position.cells chains.old rooms.old ≡ None)
          × Judges position.size.width position.size.height (seen position.size position.cells colour) (λ p. get_or marks.marked p false)
          × ((p : ℕ) → count_of position.size ≤ p → slice_index_or marks.marked p false ≡ false)
          × (length marks.marked ≡ 361)
          × ((side : Colour) → ChainLabels (count_of position.size) (near_of position.size) (seen position.size position.cells side) chains.new)
          × RoomLabels (count_of position.size) (near_of position.size) (seen position.size position.cells colour) rooms.new
          × (drop (count_of position.size) chains.new ≡ drop (count_of position.size) chains.old)
          × (drop (count_of position.size) rooms.new ≡ drop (count_of position.size) rooms.old)
      | Err e ↦ (Some (listed e) ≡ judge_refusal position.size position.cells chains.old rooms.old)
          × (chains.new ≡ chains.old) × (rooms.new ≡ rooms.old)
    ] }
{
    // a list of its own, as in `Regions::write`: nothing may be written before its last line
    let size = position.size();
    if chains.len() < size.points() {
        return Err(Refusal::TooShort(Lent::Chains));
    }
    if rooms.len() < size.points() {
        return Err(Refusal::TooShort(Lent::Rooms));
    }
    position.stands()?;
    let mut regions = Regions::empty();
    regions.write(&position, colour, chains, rooms)?;
    let survey = Survey {
        position: &position,
        colour,
        chains,
        rooms,
        regions: &regions,
    };
    Ok(Marks {
        marked: survey.marks(),
    })
}
