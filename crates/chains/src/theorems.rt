//! What is proved of every board. Each function does nothing: its contract is the theorem.

ghost use Rattle.chains.specs.Linked.{Linked};
ghost use Rattle.chains.specs.Board.{State, Board, Breathes};
ghost use Rattle.grid.specs.Graph.{Near, Graph};
ghost use Rattle.std.specs.Prelude.{ℕ, Bool, ◌⊎◌};
ghost use Rattle.chains.specs.Decided.{LinkedDecided, BreathDecided};

/// Two points are linked or they are not.
pub fn linked_decided()
    ensures { LinkedDecided }
{}

/// A chain has a liberty or it has none.
pub fn breath_decided()
    ensures { BreathDecided }
{}
