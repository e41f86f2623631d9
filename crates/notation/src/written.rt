//! Writes a board as bytes, and reads what was written.

ghost use Rattle.std.specs.Prelude.{◌≡◌, ◌≤◌, ◌∷◌, ◌++◌, length, take, drop, None, Ok, Err};
ghost use Rattle.grid.specs.Grid.{points};
ghost use Rattle.notation.specs.Layout.{board_refusal, size_points, cells_of};
ghost use Rattle.notation.specs.Written.{FailsBy, LeftBy, write_refusal, board_bytes, reread_refusal};

use crate::board::{enough, read_board, standing};
use crate::failure::Failure;
use grid::refusal::{Lent, Refusal};
use grid::size::Size;
use std::alloc::Global;

/// The bytes of a board: its size, then its points.
pub fn write_board(heap: Global, size: Size, cells: &[u8]) -> Result<Vec<u8>, Failure>
    ensures { elim result [
      | Ok bytes ↦ (write_refusal size.width size.height cells.now ≡ None) × (bytes.items ≡ board_bytes size.width size.height cells.now)
      | Err f ↦ FailsBy (write_refusal size.width size.height cells.now) f
    ] }
{
    let Some(points) = cells.get(0..size.points()) else {
        return Err(Failure::Refused(Refusal::TooShort(Lent::Points)));
    };
    standing(size, points)?;
    let mut bytes = Vec::new(heap);
    bytes.extend_from_slice(&[size.width() as u8, size.height() as u8])?;
    bytes.extend_from_slice(points)?;
    Ok(bytes)
}

/// Writes a board and reads what was written: it is the board again.
pub fn reread(heap: Global, size: Size, cells: &[u8], lent: &mut [u8]) -> Result<Size, Failure>
    ensures { elim result [
      | Ok s ↦ (reread_refusal size.width size.height cells.now (length lent.old) ≡ None)
          × (s.width ≡ size.width) × (s.height ≡ size.height)
          × (lent.new ≡ take (points size.width size.height) cells.now ++ drop (points size.width size.height) lent.old)
      | Err f ↦ FailsBy (reread_refusal size.width size.height cells.now (length lent.old)) f × (lent.new ≡ lent.old)
    ] }
{
    let Some(_) = enough(size, lent.len()) else {
        return Err(Failure::Refused(Refusal::TooShort(Lent::Points)));
    };
    let bytes = write_board(heap, size, cells)?;
    Ok(read_board(&bytes, lent)?)
}

/// Reads a board and writes what was read: these are the bytes again.
pub fn rewrite(heap: Global, bytes: &[u8], lent: &mut [u8]) -> Result<Vec<u8>, Failure>
    ensures { elim result [
      | Ok written ↦ (board_refusal bytes.now (length lent.old) ≡ None)
          × (written.items ≡ bytes.now)
          × (lent.new ≡ cells_of bytes.now ++ drop (size_points bytes.now) lent.old)
      | Err f ↦ FailsBy (board_refusal bytes.now (length lent.old)) f
          × LeftBy f bytes.now lent.old lent.new
    ] }
{
    let size = read_board(bytes, lent)?;
    write_board(heap, size, lent)
}
