//! The moves of a record.

ghost use Rattle.std.specs.Prelude.{◌≡◌, ◌+◌, ◌*◌};
ghost use Rattle.referee.specs.Moves.{move_of};

/// How a record writes a pass.
pub const PASS: u16 = 65_535;

/// The bytes that write a move.
pub const MOVE_BYTES: usize = 2;

/// A side passes, or plays a stone on a point.
#[derive(Clone, Copy, PartialEq, Eq, Debug)]
pub enum Move {
    Pass,
    At(u16),
}

impl From<u16> for Move {
    ghost from_gives = { λ number move. move ≡ move_of number };

    /// The move that a number writes.
    fn from(number: u16) -> Move {
        match number {
            PASS => Move::Pass,
            point => Move::At(point),
        }
    }
}

impl Move {
    /// The move that two bytes write, the low byte first.
    pub fn of_bytes(low: u8, high: u8) -> Move
        ensures { result ≡ move_of (low + 256 * high) }
    {
        Move::from(u16::from_le_bytes([low, high]))
    }
}
