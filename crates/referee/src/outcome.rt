//! What a record comes to.

ghost use Rattle.std.specs.Prelude.{Some};
ghost use Rattle.referee.specs.Outcomes.{outcome_text};

use chains::colour::Colour;
use grid::refusal::Refusal;
use std::fmt;

/// Whose turn it is, that the record is over, or why a move is refused, with the number of the move.
#[derive(Clone, Copy, PartialEq, Eq, Debug)]
pub enum Outcome {
    ToMove(Colour),
    Over,
    Refused(Refusal),
}

/// As the refereeing program prints it.
impl fmt::Display for Outcome {
    ghost output = { λ outcome. Some (outcome_text outcome) };

    fn fmt<W: fmt::Write>(&self, f: &mut fmt::Formatter<W>) -> fmt::Result {
        match self {
            Outcome::ToMove(colour) => write!(f, "{colour} to move"),
            Outcome::Over => write!(f, "over"),
            Outcome::Refused(refusal) => {
                let turn = refusal.place();
                let number = refusal.number();
                write!(f, "move {turn} refused {number}")
            }
        }
    }
}

/// The outcome, how many passes stand at the end of the moves that are allowed, and how many stones of each colour these took.
#[derive(Clone, Copy, PartialEq, Eq, Debug)]
pub struct Answer {
    pub outcome: Outcome,
    pub passes: usize,
    pub black_taken: usize,
    pub white_taken: usize,
}
