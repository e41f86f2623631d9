//! What is proved of moves on every board. Each function does nothing: its contract is the theorem.

ghost use Rattle.play.specs.Played.{Played};
ghost use Rattle.play.specs.After.{after};
ghost use Rattle.chains.specs.Board.{none, Board};
ghost use Rattle.grid.specs.Graph.{Near, Graph};
ghost use Rattle.std.specs.Prelude.{◌≡◌, ℕ};
ghost use Rattle.play.specs.Moves.{MoveMade, MoveComputed, MoveUnique, MoveDecided};

/// On an empty point, the board that we compute is the board of the move exactly if the new stone breathes on it.
pub fn move_made()
    ensures { MoveMade }
{}

/// Every board of a move is the one that we compute.
pub fn move_computed()
    ensures { MoveComputed }
{}

/// A move has one board only.
pub fn move_unique()
    ensures { MoveUnique }
{}

/// A move is allowed, and has a board, or it is not and has none.
pub fn move_decided()
    ensures { MoveDecided }
{}
