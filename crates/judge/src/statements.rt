//! What is proved of judgements on the square board. Each function does nothing: its contract is the statement.

ghost use Rattle.judge.specs.Promise.{Judges, either};
ghost use Rattle.rooms.specs.Safe.{Marks, Safe};
ghost use Rattle.play.specs.Played.{Played, Comes, Stays};
ghost use Rattle.chains.specs.Stands.{Stands};
ghost use Rattle.chains.specs.Board.{mine, Board};
ghost use Rattle.grid.specs.Grid.{near, points};
ghost use Rattle.grid.specs.Graph.{Near};
ghost use Rattle.std.specs.Prelude.{◌≡◌, ℕ, ◌<◌, true};
ghost use Rattle.judge.specs.Promise.{SafeStays, StaysSafe, Together, OneJudgement, StaysSo, GoesOn};

/// Chains with two vital rooms each are never taken, though their side passes for ever.
pub fn safe_stays()
    ensures { SafeStays }
{}

/// A stone that can never be taken belongs to chains with two vital rooms each: there is no other way to live for ever.
pub fn stays_safe()
    ensures { StaysSafe }
{}

/// Two groups of chains that are safe, each by itself, are safe together.
pub fn together()
    ensures { Together }
{}

/// Two judges that are both right mark the same stones.
pub fn one_judgement()
    ensures { OneJudgement }
{}

/// Whatever the other side has played meanwhile, the safe chains are still there and still safe, with the same rooms.
pub fn stays_so()
    ensures { StaysSo }
{}

/// If every stone has a liberty, every stone has one after an allowed move too.
pub fn goes_on()
    ensures { GoesOn }
{}
