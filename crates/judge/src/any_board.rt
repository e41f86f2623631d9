//! The statements for a board of any shape. Each function does nothing: its contract is the statement.

ghost use Rattle.judge.specs.AnyBoard.{JudgesOver, ShowsOver};
ghost use Rattle.rooms.specs.Safe.{Marks, Safe};
ghost use Rattle.play.specs.Played.{Played};
ghost use Rattle.chains.specs.Stands.{Stand};
ghost use Rattle.chains.specs.Board.{mine, Board};
ghost use Rattle.grid.specs.Graph.{Near, Graph};
ghost use Rattle.std.specs.Prelude.{◌≡◌, ℕ, ◌≤◌, true, ◌⊎◌, List, length};
ghost use Rattle.judge.specs.AnyBoard.{StaysSafeOver, OneJudgementOver, GoesOnOver, AliveOrTaken};

/// On a board of any shape, a stone that can never be taken belongs to chains with two vital rooms each.
pub fn stays_safe_over()
    ensures { StaysSafeOver }
{}

/// On a board of any shape, two judges that are both right mark the same stones.
pub fn one_judgement_over()
    ensures { OneJudgementOver }
{}

/// On a board of any shape, if every stone has a liberty, every stone has one after an allowed move too.
pub fn goes_on_over()
    ensures { GoesOnOver }
{}

/// Each stone belongs to chains with two vital rooms each, or a row of moves takes it, at most one for each point.
pub fn alive_or_taken()
    ensures { AliveOrTaken }
{}
