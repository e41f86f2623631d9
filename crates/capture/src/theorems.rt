//! What is proved of judge and shower together. Each function does nothing: its contract is the theorem.

ghost use Rattle.std.specs.Prelude.{◌≡◌, ℕ, true, false, ◌⊎◌};
ghost use Rattle.grid.specs.Grid.{near};
ghost use Rattle.chains.specs.Board.{mine, Board};
ghost use Rattle.chains.specs.Stands.{Stands};
ghost use Rattle.play.specs.Played.{Stays};
ghost use Rattle.rooms.specs.Safe.{Marks};
ghost use Rattle.judge.specs.Promise.{Judges};
ghost use Rattle.capture.specs.Statements.{RowFor, StaysOrRow, MarkOrRow};

/// Each stone of a board that can stand stays for ever and no row of moves takes it, or it does not and a row takes it.
pub fn stays_or_row()
    ensures { StaysOrRow }
{}

/// Each stone has the judge's mark and no row of moves takes it, or it has none and a row takes it: no stone is left out.
pub fn mark_or_row()
    ensures { MarkOrRow }
{}
