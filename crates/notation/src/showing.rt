//! Shows from the bytes of a board how a stone is taken.

ghost use Rattle.std.specs.Prelude.{◌≡◌, length, Ok, Err};
ghost use Rattle.chains.specs.Views.{view};
ghost use Rattle.notation.specs.Layout.{width_of, height_of, size_points, cells_of};
ghost use Rattle.notation.specs.Showing.{show_bytes_refusal, StaysSo, RefusedBy, StoneShown};

use crate::board::{after_size, enough, exactly, lent_size, place, points_of};
use capture::showing::show;
use grid::refusal::{Lent, Refusal};

/// Writes a row of moves that takes the stone at the point: how many they are. Lent memory then holds the board, its chains and
/// the rooms of that stone's side too; on a refusal all of it is left as it was.
pub fn show_stone(
    bytes: &[u8],
    point: usize,
    lent: &mut [u8],
    chains: &mut [u16],
    rooms: &mut [u16],
    moves: &mut [u16],
) -> Result<usize, Refusal>
    ensures { elim result [
      | Ok count ↦ StoneShown bytes.now point lent.old chains.old rooms.old moves.old count lent.new chains.new rooms.new moves.new
      | Err e ↦ RefusedBy (show_bytes_refusal bytes.now point (length lent.old) (length chains.old) (length rooms.old) (length moves.old))
          (StaysSo (width_of bytes.now) (height_of bytes.now) (view (size_points bytes.now) (cells_of bytes.now)) point) e
          × (lent.new ≡ lent.old) × (chains.new ≡ chains.old) × (rooms.new ≡ rooms.old) × (moves.new ≡ moves.old)
    ] }
{
    // each check hands on its value, in the order of the list
    let size = lent_size(bytes, lent.len(), chains.len(), rooms.len())?;
    let Some(points) = enough(size, moves.len()) else {
        return Err(Refusal::TooShort(Lent::Moves));
    };
    let rest = after_size(bytes);
    let Some(cells) = exactly(rest, points) else {
        return Err(Refusal::Count(rest.len()));
    };
    let position = points_of(size, cells)?;
    let count = show(position, point, chains, rooms, moves)?;
    place(cells, lent);
    Ok(count)
}
