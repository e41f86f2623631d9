// Lent memory, and what it holds before a call.
use chains::labels::MAX_POINTS;
use grid::refusal::Lent;
use std::process::Abort;

pub const POINT_BEFORE: u8 = b'#';

pub const ENTRY_BEFORE: u16 = 7;

#[derive(Clone, Copy)]
pub struct Memory {
    pub points: [u8; MAX_POINTS],
    pub chains: [u16; MAX_POINTS],
    pub rooms: [u16; MAX_POINTS],
    pub moves: [u16; MAX_POINTS],
}

impl Memory {
    pub fn new() -> Memory {
        Memory {
            points: [POINT_BEFORE; MAX_POINTS],
            chains: [ENTRY_BEFORE; MAX_POINTS],
            rooms: [ENTRY_BEFORE; MAX_POINTS],
            moves: [ENTRY_BEFORE; MAX_POINTS],
        }
    }

    // Every entry is what it was before.
    pub fn untouched(&self, rt: &impl Abort) {
        assert_eq!(rt; self.points, [POINT_BEFORE; MAX_POINTS]);
        assert_eq!(rt; self.chains, [ENTRY_BEFORE; MAX_POINTS]);
        assert_eq!(rt; self.rooms, [ENTRY_BEFORE; MAX_POINTS]);
        assert_eq!(rt; self.moves, [ENTRY_BEFORE; MAX_POINTS]);
    }
}

// Nothing is written from this entry on.
pub fn unwritten_from(rt: &impl Abort, entries: &[u16; MAX_POINTS], first: usize) {
    assert!(rt;
        entries
            .iter()
            .skip(first)
            .all(|entry| *entry == ENTRY_BEFORE)
    );
}

// How many entries of each are lent.
#[derive(Clone, Copy)]
pub struct Lengths {
    pub points: usize,
    pub chains: usize,
    pub rooms: usize,
    pub moves: usize,
}

impl Lengths {
    // The same number of each.
    pub fn all(count: usize) -> Lengths {
        Lengths {
            points: count,
            chains: count,
            rooms: count,
            moves: count,
        }
    }

    // Another number of one of them.
    pub fn with(self, lent: Lent, count: usize) -> Lengths {
        match lent {
            Lent::Points => Lengths {
                points: count,
                ..self
            },
            Lent::Chains => Lengths {
                chains: count,
                ..self
            },
            Lent::Rooms => Lengths {
                rooms: count,
                ..self
            },
            Lent::Moves => Lengths {
                moves: count,
                ..self
            },
        }
    }
}
