//! What was written of a board that can stand, and the marks of its stones by it.

ghost use Rattle.std.specs.Prelude.{◌≡◌, ℕ, ◌≤◌, false, length, get_or, slice_index_or};
ghost use Rattle.chains.specs.Board.{mine};
ghost use Rattle.chains.specs.Computed.{is_state};
ghost use Rattle.chains.specs.Sized.{count_of, near_of, seen};
ghost use Rattle.rooms.specs.Numbered.{kept_by};
ghost use Rattle.judge.specs.Promise.{Judges};
ghost use Rattle.judge.specs.Round.{Judging};
ghost use Rattle.judge.specs.Surveyed.{Surveyed};

use crate::striking::{Left, strike};
use chains::colour::Colour;
use chains::labels::MAX_POINTS;
use chains::position::Position;
use rooms::region_sets::Regions;
use rooms::room_set::RoomSet;

// Not one type with capture's: this one carries what the rounds need, that one only that labels are points.
/// A board that can stand and one of its colours, with the chain and the room of each point and the rooms of each chain.
#[derive(Clone, Copy)]
pub(crate) struct Survey<'a> {
    pub(crate) position: &'a Position,
    pub(crate) colour: Colour,
    pub(crate) chains: &'a [u16],
    pub(crate) rooms: &'a [u16],
    pub(crate) regions: &'a Regions,
    ghost long: { (count_of position.now.size ≤ length chains.now) × (count_of position.now.size ≤ length rooms.now) },
    ghost written: { ∥ Surveyed position.now.size position.now.cells colour chains.now rooms.now regions.now.vital regions.now.walls ∥₁ },
}

impl Survey<'_> {
    /// For each point whether its stone is of the colour and stays when the rounds end.
    pub(crate) fn marks(&self) -> [bool; MAX_POINTS]
        ensures right { Judges self.now.position.now.size.width self.now.position.now.size.height
            (seen self.now.position.now.size self.now.position.now.cells self.now.colour) (λ p. get_or result p false) }
        ensures past { (p : ℕ) → count_of self.now.position.now.size ≤ p → slice_index_or result p false ≡ false }
    {
        let left = strike(self.regions, self.position.size().points(), self.all());
        self.stones(&left.chains)
    }

    /// For each point whether a stone of the colour stands there whose chain is left.
    fn stones(&self, left: &RoomSet) -> [bool; MAX_POINTS]
        ensures { (p : ℕ) → slice_index_or result p false ≡ kept_by (seen self.now.position.now.size self.now.position.now.cells self.now.colour)
            self.now.chains.now left.now.words p }
    {
        // not `from_fn`, which works out all 361 entries on the smallest board too
        let mut marks = [false; MAX_POINTS];
        for p in 0..self.position.size().points() {
            marks[p] = self.stays(p, left);
        }
        marks
    }

    /// All chains of the colour and all rooms.
    fn all(&self) -> Left
        ensures { Judging (count_of self.now.position.now.size) (near_of self.now.position.now.size)
            (seen self.now.position.now.size self.now.position.now.cells self.now.colour)
            self.now.chains.now self.now.rooms.now result.chains.words result.rooms.words }
    {
        let mut chains = RoomSet::empty();
        let mut rooms = RoomSet::empty();
        // by number: a point goes into one of two sets
        for p in 0..self.position.size().points() {
            if self.is_own(p) {
                chains.insert(self.chains[p] as usize);
            } else {
                rooms.insert(self.rooms[p] as usize);
            }
        }
        Left { chains, rooms }
    }

    /// Whether a stone of the colour stands at the point.
    fn is_own(&self, point: usize) -> bool
        ensures { result ≡ is_state mine (seen self.now.position.now.size self.now.position.now.cells self.now.colour point) }
    {
        self.position.at(point) == Some(self.colour)
    }

    /// Whether a stone of the colour stands at the point whose chain is left.
    fn stays(&self, point: usize, left: &RoomSet) -> bool
        ensures { result ≡ kept_by (seen self.now.position.now.size self.now.position.now.cells self.now.colour)
            self.now.chains.now left.now.words point }
    {
        self.is_own(point) && left.contains(self.chains[point] as usize)
    }
}
