//! What the referee remembers of a record between its moves, and what each move makes of it.

ghost use Rattle.std.specs.Prelude.{◌≡◌, ℕ, ◌+◌, ◌^◌, ◌<◌, List, length, Ok, Err};
ghost use Rattle.grid.specs.declared.size.Size.{Size};
ghost use Rattle.chains.specs.Board.{Board};
ghost use Rattle.chains.specs.Sized.{seen};
ghost use Rattle.referee.specs.Game.{Kept, Facing, Countable, Turned, RecordLeft, taken_more, answer_of};

use crate::moves::Move;
use crate::outcome::{Answer, Outcome};
use chains::colour::Colour;
use chains::position::Position;
use grid::refusal::Refusal;
use play::stone::after_stone;

/// The passes in a row that end a record.
const LAST_PASSES: usize = 2;

/// How many stones of each colour were taken.
#[derive(Clone, Copy)]
pub(crate) struct Taken {
    black: usize,
    white: usize,
}

/// The board, the board before the last move if that was a stone, whose turn it is, the passes in a row and the taken stones.
#[derive(Clone, Copy)]
pub(crate) struct Game {
    pub(crate) position: Position,
    before: Option<Position>,
    side: Colour,
    passes: usize,
    taken: Taken,
}

/// What a record comes to, and what was kept then.
#[derive(Clone, Copy)]
pub(crate) struct Ended {
    pub(crate) game: Game,
    pub(crate) outcome: Outcome,
}

impl Taken {
    /// So many more stones of that colour.
    fn more(mut self, colour: Colour, taken: usize) -> Taken
        requires black { self.black + taken < 2 ^ 64 }
        requires white { self.white + taken < 2 ^ 64 }
        ensures { result ≡ taken_more colour taken self }
    {
        match colour {
            Colour::Black => self.black += taken,
            Colour::White => self.white += taken,
        }
        self
    }
}

impl Game {
    /// Before the first move.
    pub(crate) fn new(position: Position) -> Game
        ensures kept { (ms : List Move) → Kept position.size (seen position.size position.cells Colour.Black) ms 0 result }
        ensures position { result.position ≡ position }
    {
        Game {
            position,
            before: None,
            side: Colour::Black,
            passes: 0,
            taken: Taken { black: 0, white: 0 },
        }
    }

    /// What the next move comes to, or why it is not allowed.
    pub(crate) fn turn(self, next: Move, number: usize) -> Result<Game, Refusal>
        requires { Countable number self }
        ensures { (size : Size) (start : Board) (ms : List Move) → Facing size start ms number self next → Turned size start ms number self result }
    {
        match next {
            Move::Pass => self.pass(number),
            Move::At(point) => self.stone(usize::from(point), number),
        }
    }

    /// What a pass comes to.
    fn pass(mut self, number: usize) -> Result<Game, Refusal>
        ensures { (size : Size) (start : Board) (ms : List Move) → Facing size start ms number self Move.Pass → Turned size start ms number self result }
    {
        if self.passes >= LAST_PASSES {
            return Err(Refusal::AfterEnd(number));
        }
        self.before = None;
        self.side = self.side.other();
        self.passes += 1;
        Ok(self)
    }

    /// What a stone comes to. Ko is a stone that makes the board before the last stone.
    fn stone(mut self, point: usize, number: usize) -> Result<Game, Refusal>
        requires { Countable number self }
        ensures { (size : Size) (start : Board) (ms : List Move) → Facing size start ms number self (Move.At point) → Turned size start ms number self result }
    {
        let made = after_stone(self.position, self.side, point, number)?;
        if self.before == Some(made.position) {
            return Err(Refusal::Ko(number));
        }
        if self.passes >= LAST_PASSES {
            return Err(Refusal::AfterEnd(number));
        }
        let other = self.side.other();
        self.taken = self.taken.more(other, made.taken);
        self.before = Some(self.position);
        self.position = made.position;
        self.side = other;
        self.passes = 0;
        Ok(self)
    }

    /// No move is left.
    pub(crate) fn finished(self) -> Ended
        ensures { (size : Size) (start : Board) (ms : List Move) → Kept size start ms (length ms) self → RecordLeft size start ms result }
    {
        let outcome = if self.passes < LAST_PASSES {
            Outcome::ToMove(self.side)
        } else {
            Outcome::Over
        };
        Ended {
            game: self,
            outcome,
        }
    }
}

impl Ended {
    /// The answer of the record.
    pub(crate) fn answer(self) -> Answer
        ensures { result ≡ answer_of self }
    {
        let Game { passes, taken, .. } = self.game;
        Answer {
            outcome: self.outcome,
            passes,
            black_taken: taken.black,
            white_taken: taken.white,
        }
    }
}
