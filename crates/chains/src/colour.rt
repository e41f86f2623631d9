//! The two colours, and the bytes by which a board writes its points.

ghost use Rattle.std.specs.Prelude.{◌≡◌, [], ◌∷◌, Some};
ghost use Rattle.chains.specs.Views.{stone_byte, other, is_point, is_stone, colour_of};

use std::fmt;

pub const EMPTY_BYTE: u8 = b'.';

pub const BLACK_BYTE: u8 = b'X';

pub const WHITE_BYTE: u8 = b'O';

/// Whether a byte writes a point.
pub fn is_point(byte: u8) -> bool
    ensures { result ≡ is_point byte }
{
    byte == EMPTY_BYTE || is_stone(byte)
}

/// Whether a byte writes a stone.
pub fn is_stone(byte: u8) -> bool
    ensures { result ≡ is_stone byte }
{
    byte == BLACK_BYTE || byte == WHITE_BYTE
}

#[derive(Clone, Copy, PartialEq, Eq, Debug)]
pub enum Colour {
    Black,
    White,
}

impl Colour {
    /// The colour of the stone that a byte writes. Not `TryFrom`: in an audit a byte names a colour by a number.
    pub fn of_byte(byte: u8) -> Option<Colour>
        ensures { result ≡ colour_of byte }
    {
        match byte {
            BLACK_BYTE => Some(Colour::Black),
            WHITE_BYTE => Some(Colour::White),
            _ => None,
        }
    }

    /// The byte of a stone of this colour.
    pub fn byte(self) -> u8
        ensures { result ≡ stone_byte self }
    {
        match self {
            Colour::Black => BLACK_BYTE,
            Colour::White => WHITE_BYTE,
        }
    }

    /// The colour of the other side.
    pub fn other(self) -> Colour
        ensures { result ≡ other self }
    {
        match self {
            Colour::Black => Colour::White,
            Colour::White => Colour::Black,
        }
    }
}

/// A colour is printed as its stone is written.
impl fmt::Display for Colour {
    ghost output = { λ colour. Some (stone_byte colour ∷ []) };

    fn fmt<W: fmt::Write>(&self, f: &mut fmt::Formatter<W>) -> fmt::Result {
        f.write_str(match self {
            Colour::Black => "X",
            Colour::White => "O",
        })
    }
}
