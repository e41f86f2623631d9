//! Statements about the square board, each on a function of its own.

ghost use Rattle.grid.specs.Neighbours.{HandsOut, slots, hand, neighbours_of};
ghost use Rattle.grid.specs.Grid.{near};
ghost use Rattle.grid.specs.Graph.{Graph};
ghost use Rattle.std.specs.Prelude.{ℕ};
ghost use Rattle.grid.specs.Statements.{Lists, SquareGraph, SquareHandsOut, SquareLists};

/// The square board is a board of the general kind: neighbours are neighbours from both ends, on the board, and never a point itself.
pub fn square_is_graph()
    ensures { SquareGraph }
{}

/// What is handed out for a point are its neighbours: all of them, nothing else, none twice, the smaller point first.
pub fn neighbours_are_exact()
    ensures { SquareHandsOut }
{}

/// What an iterator over the neighbours of a point gives: all of them, nothing else, none twice, the smaller point first.
pub fn listed_neighbours_are_exact()
    ensures { SquareLists }
{}
