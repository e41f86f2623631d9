//! The neighbours of a point, one after the other.

ghost use Rattle.std.specs.Prelude.{◌≡◌, None};
ghost use Rattle.std.specs.Iterator.{YieldsFirst, item_count};
ghost use Rattle.grid.specs.Neighbours.{neighbours_of};
ghost use Rattle.grid.specs.Ahead.{ahead};

use crate::size::{SLOTS, Size};

/// The neighbours of a point that are still to come, the smaller point first: those whose number is not below `next`.
#[derive(Clone, Copy, Debug)]
pub struct Neighbours {
    numbered: [Option<usize>; SLOTS],
    next: usize,
}

impl Size {
    /// The neighbours of p, the smaller point first: none for a point that is not there.
    #[tactic(auto, using(crate::proofs::Handed::all_ahead))]
    pub fn neighbours(self, p: usize) -> Neighbours
        ensures { ahead result ≡ neighbours_of self.width self.height p }
    {
        Neighbours {
            numbered: self.numbered(p),
            next: 0,
        }
    }
}

impl Iterator for Neighbours {
    type Item = usize;

    ghost next_gives = { YieldsFirst ahead };

    ghost remaining = { item_count ahead };

    fn next(&mut self) -> Option<usize> {
        // by number: it is remembered where the next call goes on
        for k in self.next..SLOTS {
            self.next = k + 1;
            if let Some(q) = self.numbered[k] {
                return Some(q);
            }
        }
        None
    }
}
