//! Playing a stone: on a position, and on a lent board.

ghost use Rattle.std.specs.Prelude.{◌≡◌, ℕ, count_by, Ok, Err};
ghost use Rattle.std.specs.List.{zip};
ghost use Rattle.chains.specs.Views.{stone_byte};
ghost use Rattle.play.specs.Steps.{byte_taken};
ghost use Rattle.play.specs.Stone.{StoneRefused, StonePlayed};

use chains::colour::{Colour, EMPTY_BYTE};
use chains::position::Position;
use grid::refusal::Refusal;
use grid::size::Size;

/// The position after a stone, and how many stones it takes.
#[derive(Clone, Copy, PartialEq, Eq, Debug)]
pub struct Played {
    pub position: Position,
    pub taken: usize,
}

/// Plays a stone on the lent board and says how many stones it takes, or says why not and leaves the board as it was.
pub fn play(
    size: Size,
    board: &mut [u8],
    colour: Colour,
    point: usize,
    turn: usize,
) -> Result<usize, Refusal>
    ensures { elim result [
      | Ok taken ↦ StonePlayed size.width size.height board.old colour point turn board.new taken
      | Err e ↦ StoneRefused size.width size.height board.old colour point turn e × (board.new ≡ board.old)
    ] }
{
    let position = Position::new(size, board)?;
    let played = after_stone(position, colour, point, turn)?;
    played.position.write(board)?;
    Ok(played.taken)
}

/// The position after a stone, or why the stone is not allowed. The stones of the other side that do not breathe go first,
/// and then the new stone must breathe.
pub fn after_stone(
    position: Position,
    colour: Colour,
    point: usize,
    turn: usize,
) -> Result<Played, Refusal>
    ensures { elim result [
      | Ok played ↦ StonePlayed position.size.width position.size.height position.cells colour point turn played.position.cells played.taken
          × (played.position.size ≡ position.size)
      | Err e ↦ StoneRefused position.size.width position.size.height position.cells colour point turn e
    ] }
{
    if point >= position.size().points() {
        return Err(Refusal::OffBoard(turn));
    }
    if position.at(point).is_some() {
        return Err(Refusal::Occupied(turn));
    }
    let placed = position.with_stone(point, colour);
    let after = placed.without_breathless(colour.other());
    if !after.breathes(point) {
        return Err(Refusal::Suicide(turn));
    }
    let count = position.size().points();
    let taken = count_taken(
        &position.cells()[0..count],
        &after.cells()[0..count],
        colour.other(),
    );
    Ok(Played {
        position: after,
        taken,
    })
}

/// How many stones of that colour stood on points that are empty now.
fn count_taken(before: &[u8], after: &[u8], colour: Colour) -> usize
    ensures { result ≡ count_by (λ (p : ℕ × ℕ). byte_taken (stone_byte colour) p.0 p.1) (zip before.now after.now) }
{
    let gone = colour.byte();
    before
        .iter()
        .zip(after)
        .filter(|(was, is)| **was == gone && **is == EMPTY_BYTE)
        .count()
}
