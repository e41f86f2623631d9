//! The chains of a board that have fewer than two vital rooms.

ghost use Rattle.std.specs.Prelude.{◌≡◌, ℕ, ◌<◌, ◌≤◌, ◌∷◌, length, slice_index};
ghost use Rattle.std.specs.List.{find, range_with_len};
ghost use Rattle.chains.specs.Board.{mine};
ghost use Rattle.chains.specs.Sized.{count_of, seen};
ghost use Rattle.rooms.specs.Tables.{set_of};
ghost use Rattle.capture.specs.Weak.{is_weak};

use chains::colour::Colour;
use chains::position::Position;
use rooms::region_sets::{ROOMS_TO_LIVE, Regions};

// Not one type with the judge's, which would ask that the rooms are right too.
/// A board and one of its colours, with the chain of each point and the rooms of each chain.
#[derive(Clone, Copy)]
pub(crate) struct Survey<'a> {
    pub(crate) position: &'a Position,
    pub(crate) colour: Colour,
    pub(crate) chains: &'a [u16],
    pub(crate) regions: &'a Regions,
    ghost long: { count_of position.now.size ≤ length chains.now },
    ghost inside: { (p : ℕ) → seen position.now.size position.now.cells colour p ≡ mine → slice_index chains.now p < 361 },
}

impl Survey<'_> {
    /// A stone whose chain has fewer than two vital rooms: the wanted one if it is such a stone, and else the first.
    pub(crate) fn weak_stone(&self, wanted: usize) -> Option<usize>
        ensures { result ≡ find (is_weak (seen self.now.position.now.size self.now.position.now.cells self.now.colour)
            self.now.chains.now (set_of self.now.regions.now.vital)) (wanted ∷ range_with_len 0 (count_of self.now.position.now.size)) }
    {
        if self.is_weak(wanted) {
            return Some(wanted);
        }
        self.first_weak()
    }

    /// The first stone whose chain has fewer than two vital rooms.
    fn first_weak(&self) -> Option<usize>
        ensures { result ≡ find (is_weak (seen self.now.position.now.size self.now.position.now.cells self.now.colour)
            self.now.chains.now (set_of self.now.regions.now.vital)) (range_with_len 0 (count_of self.now.position.now.size)) }
    {
        (0..self.position.size().points()).find(|p| self.is_weak(*p))
    }

    /// Whether a stone of the colour stands at p whose chain has fewer than two vital rooms.
    fn is_weak(&self, p: usize) -> bool
        ensures { result ≡ is_weak (seen self.now.position.now.size self.now.position.now.cells self.now.colour)
            self.now.chains.now (set_of self.now.regions.now.vital) p }
    {
        if self.position.at(p) != Some(self.colour) {
            return false;
        }
        let vital = self.regions.vital(self.chains[p] as usize);
        vital.shared(&vital) < ROOMS_TO_LIVE
    }
}
