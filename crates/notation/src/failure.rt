//! Why no bytes were made: a refusal of the list, or want of memory.

ghost use Rattle.std.specs.Prelude.{◌≡◌, Some};
ghost use Rattle.notation.specs.Written.{failure_text};
ghost use Rattle.notation.specs.declared.failure.Failure.TheVariants.{Refused, NoMemory};

use grid::refusal::Refusal;
use std::alloc::AllocError;
use std::error::Error;
use std::fmt;

#[derive(Clone, Copy, PartialEq, Eq, Debug)]
pub enum Failure {
    Refused(Refusal),
    NoMemory,
}

impl fmt::Display for Failure {
    ghost output = { λ failure. Some (failure_text failure) };

    fn fmt<W: fmt::Write>(&self, f: &mut fmt::Formatter<W>) -> fmt::Result {
        match self {
            Failure::Refused(refusal) => write!(f, "{refusal}"),
            Failure::NoMemory => write!(f, "out of memory"),
        }
    }
}

impl Error for Failure {}

// By hand: contracts name the error that `?` makes.
impl From<Refusal> for Failure {
    ghost from_gives = { λ e f. f ≡ Refused e };

    fn from(refusal: Refusal) -> Failure {
        Failure::Refused(refusal)
    }
}

impl From<AllocError> for Failure {
    ghost from_gives = { λ e f. f ≡ NoMemory };

    fn from(_error: AllocError) -> Failure {
        Failure::NoMemory
    }
}
