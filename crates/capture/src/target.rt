//! The chain that is taken next, and the liberty that is played next.

ghost use Rattle.std.specs.Prelude.{◌≡◌, ◌<◌, true, false, not, slice_index};
ghost use Rattle.std.specs.List.{list_any};
ghost use Rattle.grid.specs.Neighbours.{neighbours_of};
ghost use Rattle.chains.specs.Sized.{count_of, near_of, seen};
ghost use Rattle.rooms.specs.Bits.{member};
ghost use Rattle.capture.specs.Target.{AimedOrHeld, has_label, OpenTouch, NextOrNone};

use crate::survey::Survey;
use chains::colour::Colour;
use chains::labels::{MAX_POINTS, NO_POINT};
use chains::position::Position;
use grid::size::Size;
use rooms::region_sets::Regions;
use rooms::room_set::RoomSet;

/// A chain with at most one vital room, by its first point, and what was written of the board when it was chosen.
#[derive(Clone, Copy)]
pub(crate) struct Target {
    pub(crate) chain: usize,
    chains: [u16; MAX_POINTS],
    rooms: [u16; MAX_POINTS],
    vital: RoomSet,
}

/// A chain of the colour that has fewer than two vital rooms, that of the wanted stone if it can be, with what is written of the position;
/// none where safe marks hold every stone. The regions are lent to be written over.
pub(crate) fn aim(
    position: &Position,
    colour: Colour,
    wanted: usize,
    regions: &mut Regions,
) -> Option<Target>
    ensures { AimedOrHeld (count_of position.now.size) (near_of position.now.size) (seen position.now.size position.now.cells colour) result }
{
    let mut chains = [NO_POINT; MAX_POINTS];
    let mut rooms = [NO_POINT; MAX_POINTS];
    let Ok(_) = regions.write(position, colour, &mut chains, &mut rooms) else {
        unreachable()
    };
    let survey = Survey {
        position,
        colour,
        chains: &chains,
        regions,
    };
    let stone = survey.weak_stone(wanted)?;
    let chain = chains[stone] as usize;
    Some(Target {
        chain,
        chains,
        rooms,
        vital: regions.vital(chain),
    })
}

impl Target {
    /// The liberty of the chain to be played next: the first whose room was not vital to the chain, and the last liberty where there is no such.
    pub(crate) fn next_liberty(&self, position: &Position) -> Option<usize>
        ensures { NextOrNone (count_of position.now.size) (near_of position.now.size) position.now.cells self.now.chains self.now.rooms self.now.vital.words self.now.chain result }
    {
        let mut last = None;
        // one pass by number: the first spare liberty, and else the last one
        for p in 0..position.size().points() {
            if self.is_liberty(position, p) {
                if self.is_spare(p) {
                    return Some(p);
                }
                last = Some(p);
            }
        }
        last
    }

    /// Whether p is empty now and beside a stone that had the label of the chain.
    fn is_liberty(&self, position: &Position, p: usize) -> bool
        requires { p < count_of position.now.size }
        ensures yes { result ≡ true → OpenTouch (near_of position.now.size) position.now.cells self.now.chains self.now.chain p }
        ensures no { result ≡ false → OpenTouch (near_of position.now.size) position.now.cells self.now.chains self.now.chain p → ⊥ }
    {
        if position.at(p).is_some() {
            return false;
        }
        self.touches(position.size(), p)
    }

    /// Whether p is beside a stone that had the label of the chain.
    fn touches(&self, size: Size, p: usize) -> bool
        ensures { result ≡ list_any (has_label self.now.chains self.now.chain) (neighbours_of size.width size.height p) }
    {
        size.neighbours(p).any(|q| self.has_label(q))
    }

    /// Whether q had the label of the chain.
    fn has_label(&self, q: usize) -> bool
        ensures { result ≡ has_label self.now.chains self.now.chain q }
    {
        q < MAX_POINTS && self.chains[q] as usize == self.chain
    }

    /// Whether the room of p was not vital to the chain.
    fn is_spare(&self, p: usize) -> bool
        requires { p < 361 }
        ensures { result ≡ not (member self.now.vital.words (slice_index self.now.rooms p)) }
    {
        !self.vital.contains(self.rooms[p] as usize)
    }
}
