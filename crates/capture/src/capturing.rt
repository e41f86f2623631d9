//! The row of moves that takes a stone.

ghost use Rattle.std.specs.Prelude.{◌≡◌, ◌≤◌, length};
ghost use Rattle.chains.specs.Board.{mine, Board};
ghost use Rattle.chains.specs.Sized.{count_of, near_of, seen};
ghost use Rattle.chains.specs.Stands.{Stands};
ghost use Rattle.capture.specs.Row.{board_of, SomeRow, RowGoesOn, RowCaptures, SomeCaptured, Unheld, SomeUnheld, InPhase, ComesNearer, RowShown};

use crate::target::{Target, aim};
use chains::colour::Colour;
use chains::labels::{MAX_POINTS, NO_POINT};
use chains::position::Position;
use play::stone::after_stone;
use rooms::region_sets::Regions;

/// A row of moves by which the other side takes stones of the colour, and the position that it has led to.
#[derive(Clone, Copy)]
struct Row {
    position: Position,
    colour: Colour,
    moves: [u16; MAX_POINTS],
    played: usize,
}

impl Row {
    // That the moves are a row so far stands in the contracts: `Plays` is no proposition, so a field could hold only its truncation.
    /// The row without a move.
    fn new(position: Position, colour: Colour) -> Row
        ensures { (result.position ≡ position) × (result.colour ≡ colour) × (result.played ≡ 0) }
    {
        Row {
            position,
            colour,
            moves: [NO_POINT; MAX_POINTS],
            played: 0,
        }
    }

    /// Plays on the next liberty of the chain.
    fn play_liberty(&mut self, target: &Target)
        requires phase { (b : Board) × InPhase b target.now self.old }
        requires stone { board_of self.old target.now.chain ≡ mine }
        requires row { SomeRow self.old }
        ensures nearer { ComesNearer target.now self.old self.new }
        ensures row { RowGoesOn self.old self.new }
    {
        let Some(point) = target.next_liberty(&self.position) else {
            unreachable()
        };
        let Ok(after) = after_stone(self.position, self.colour.other(), point, self.played) else {
            unreachable()
        };
        self.position = after.position;
        self.moves[self.played] = point as u16;
        self.played += 1;
    }

    /// Plays on the liberties of the chain until it is taken.
    fn take_chain(&mut self, target: &Target)
        requires aimed { InPhase (board_of self.old) target.now self.old }
        requires row { SomeRow self.old }
        ensures captured { RowCaptures target.now.chain self.old self.new }
        ensures row { RowGoesOn self.old self.new }
    {
        while self.position.at(target.chain) == Some(self.colour) {
            self.play_liberty(target);
        }
    }

    /// Takes a chain that has fewer than two vital rooms, that of the wanted stone if it can be. The regions are lent to be written over.
    fn capture_chain(&mut self, wanted: usize, regions: &mut Regions)
        requires unheld { SomeUnheld self.old }
        requires row { SomeRow self.old }
        ensures captured { SomeCaptured self.old self.new }
        ensures row { RowGoesOn self.old self.new }
    {
        let Some(target) = aim(&self.position, self.colour, wanted, regions) else {
            unreachable()
        };
        self.take_chain(&target);
    }
}

/// Writes a row of moves that takes the stone at the point: chains are taken until it is gone. How many moves they are.
pub(crate) fn write_row(
    position: Position,
    colour: Colour,
    point: usize,
    moves: &mut [u16],
) -> usize
    requires long { count_of position.size ≤ length moves.old }
    requires stands { Stands position.size.width position.size.height (seen position.size position.cells colour) }
    requires stone { seen position.size position.cells colour point ≡ mine }
    requires unheld { Unheld (near_of position.size) (seen position.size position.cells colour) point }
    ensures { RowShown position.size.width position.size.height (seen position.size position.cells colour) point moves.old moves.new result }
{
    let mut row = Row::new(position, colour);
    let mut regions = Regions::empty();
    while row.position.at(point) == Some(row.colour) {
        row.capture_chain(point, &mut regions);
    }
    moves[..row.played].copy_from_slice(&row.moves[..row.played]);
    row.played
}
