//! Why an input is turned away: one case for each line of the list of refusals.

ghost use Rattle.std.specs.Prelude.{◌≡◌, Some};
ghost use Rattle.grid.specs.Refusals.{number_of, place_of, refusal_text};

use std::error::Error;
use std::fmt;

/// Which side of the board has a length that is not allowed.
#[derive(Clone, Copy, PartialEq, Eq, Debug)]
pub enum Side {
    Width,
    Height,
}

/// Which lent memory is too short.
#[derive(Clone, Copy, PartialEq, Eq, Debug)]
pub enum Lent {
    Points,
    Chains,
    Rooms,
    Moves,
}

/// Why no row of moves is shown that takes a stone.
#[derive(Clone, Copy, PartialEq, Eq, Debug)]
pub enum Untaken {
    NoStone,
    Marked,
}

/// A number in a case is the place that the refusal names: a count, a byte's place in the file, a point or a move.
#[derive(Clone, Copy, PartialEq, Eq, Debug)]
pub enum Refusal {
    BadSide(Side),
    Count(usize),
    BadByte(usize),
    NoLiberty(usize),
    OffBoard(usize),
    Occupied(usize),
    Suicide(usize),
    Ko(usize),
    AfterEnd(usize),
    BadMarks(usize),
    NotShown(Untaken),
    TooShort(Lent),
}

impl Refusal {
    /// The refusal's number in the list.
    pub fn number(self) -> usize
        ensures { result ≡ number_of self }
    {
        match self {
            Refusal::BadSide(_) => 1,
            Refusal::Count(_) => 2,
            Refusal::BadByte(_) => 3,
            Refusal::NoLiberty(_) => 4,
            Refusal::OffBoard(_) => 5,
            Refusal::Occupied(_) => 6,
            Refusal::Suicide(_) => 7,
            Refusal::Ko(_) => 8,
            Refusal::AfterEnd(_) => 9,
            Refusal::BadMarks(_) => 10,
            Refusal::NotShown(_) => 11,
            Refusal::TooShort(_) => 12,
        }
    }

    /// The place that the refusal names.
    pub fn place(self) -> usize
        ensures { result ≡ place_of self }
    {
        match self {
            Refusal::BadSide(Side::Width) => 0,
            Refusal::BadSide(Side::Height) => 1,
            Refusal::Count(count) => count,
            Refusal::BadByte(place) => place,
            Refusal::NoLiberty(point) => point,
            Refusal::OffBoard(turn) => turn,
            Refusal::Occupied(turn) => turn,
            Refusal::Suicide(turn) => turn,
            Refusal::Ko(turn) => turn,
            Refusal::AfterEnd(turn) => turn,
            Refusal::BadMarks(place) => place,
            Refusal::NotShown(Untaken::NoStone) => 0,
            Refusal::NotShown(Untaken::Marked) => 1,
            Refusal::TooShort(Lent::Points) => 0,
            Refusal::TooShort(Lent::Chains) => 1,
            Refusal::TooShort(Lent::Rooms) => 2,
            Refusal::TooShort(Lent::Moves) => 3,
        }
    }
}

impl fmt::Display for Refusal {
    ghost output = { λ refusal. Some (refusal_text refusal) };

    fn fmt<W: fmt::Write>(&self, f: &mut fmt::Formatter<W>) -> fmt::Result {
        let number = self.number();
        let place = self.place();
        write!(f, "refused {number} at {place}")
    }
}

impl Error for Refusal {}
