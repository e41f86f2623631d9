//! The referee: a whole record on a lent board.

ghost use Rattle.std.specs.Prelude.{◌≡◌, Some, Ok, Err};
ghost use Rattle.grid.specs.Refusals.{listed};
ghost use Rattle.chains.specs.Sized.{seen};
ghost use Rattle.referee.specs.Game.{Kept, RecordLeft};
ghost use Rattle.referee.specs.Moves.{moves_of};
ghost use Rattle.referee.specs.Record.{record_refusal, Ready, RecordRefereed};

use crate::game::{Ended, Game};
use crate::moves::{MOVE_BYTES, Move};
use crate::outcome::{Answer, Outcome};
use chains::colour::Colour;
use chains::position::Position;
use grid::refusal::{Lent, Refusal};
use grid::size::Size;

/// Referees the moves, two bytes each, on the lent board up to the first that is not allowed, and leaves the board before that move
/// or the last one; or says why the board or the moves are turned away as a whole, and leaves the board as it was.
pub fn referee(size: Size, board: &mut [u8], moves: &[u8]) -> Result<Answer, Refusal>
    ensures { elim result [
      | Ok answer ↦ RecordRefereed size.width size.height board.old moves.now answer board.new
      | Err e ↦ (record_refusal size.width size.height board.old moves.now ≡ Some (listed e)) × (board.new ≡ board.old)
    ] }
{
    let game = ready(size, board, moves)?;
    let ended = follow(game, moves);
    ended.game.position.write(board)?;
    Ok(ended.answer())
}

/// The game before the first move, or why the board or the moves are turned away.
fn ready(size: Size, board: &[u8], moves: &[u8]) -> Result<Game, Refusal>
    ensures { elim result [
      | Ok game ↦ Ready size board.now moves.now game
      | Err e ↦ record_refusal size.width size.height board.now moves.now ≡ Some (listed e)
    ] }
{
    if board.len() < size.points() {
        return Err(Refusal::TooShort(Lent::Points));
    }
    if moves.len() % MOVE_BYTES != 0 {
        return Err(Refusal::Count(moves.len()));
    }
    let position = Position::new(size, board)?;
    position.stands()?;
    Ok(Game::new(position))
}

/// Follows the moves up to the first that is not allowed.
fn follow(start: Game, moves: &[u8]) -> Ended
    requires { Kept start.position.size (seen start.position.size start.position.cells Colour.Black) (moves_of moves.now) 0 start }
    ensures { RecordLeft start.position.size (seen start.position.size start.position.cells Colour.Black) (moves_of moves.now) result }
{
    let mut game = start;
    for (number, pair) in moves.chunks_exact(MOVE_BYTES).enumerate() {
        match game.turn(Move::of_bytes(pair[0], pair[1]), number) {
            Ok(next) => game = next,
            Err(refusal) => {
                return Ended {
                    game,
                    outcome: Outcome::Refused(refusal),
                };
            }
        }
    }
    game.finished()
}
