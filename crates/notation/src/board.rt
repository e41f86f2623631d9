//! Reads a board from bytes into lent memory.

ghost use Rattle.std.specs.Prelude.{◌≡◌, ℕ, ◌<◌, ◌≤◌, false, ◌++◌, length, drop, Some, None, Ok, Err, Option, ◌==◌, slice_index};
ghost use Rattle.grid.specs.Grid.{points};
ghost use Rattle.grid.specs.Refusals.{listed};
ghost use Rattle.chains.specs.Sized.{count_of};
ghost use Rattle.notation.specs.Layout.{width_of, height_of, cells_of, first_length, size_refusal, cells_lines, lent_lines, board_refusal, BoardRead, LentFor, PointsOf, MadeOf};

use chains::position::{Position, SIZE_BYTES};
use grid::refusal::{Lent, Refusal};
use grid::size::Size;

/// How many points the programs that read one board or record lend memory for: a larger board is refused.
pub const LENT_POINTS: usize = 81;

/// Reads a board into lent memory, or says why not and leaves that memory as it was.
pub fn read_board(bytes: &[u8], lent: &mut [u8]) -> Result<Size, Refusal>
    ensures { elim result [
      | Ok size ↦ BoardRead bytes.now lent.old size lent.new
      | Err e ↦ (board_refusal bytes.now (length lent.old) ≡ Some (listed e)) × (lent.new ≡ lent.old)
    ] }
{
    let size = read_size(bytes)?;
    let Some(points) = enough(size, lent.len()) else {
        return Err(Refusal::TooShort(Lent::Points));
    };
    let rest = after_size(bytes);
    let Some(cells) = exactly(rest, points) else {
        return Err(Refusal::Count(rest.len()));
    };
    standing(size, cells)?;
    place(cells, lent);
    Ok(size)
}

/// Writes the points into the front of the lent memory.
pub(crate) fn place(cells: &[u8], lent: &mut [u8])
    requires { length cells.now ≤ length lent.old }
    ensures { lent.new ≡ cells.now ++ drop (length cells.now) lent.old }
{
    lent[0..cells.len()].copy_from_slice(cells);
}

/// The size that the first two bytes give.
pub(crate) fn read_size(bytes: &[u8]) -> Result<Size, Refusal>
    ensures { elim result [
      | Ok size ↦ (size_refusal bytes.now ≡ None) × (size.width ≡ width_of bytes.now) × (size.height ≡ height_of bytes.now)
      | Err e ↦ size_refusal bytes.now ≡ Some (listed e)
    ] }
{
    Size::try_from((size_byte(bytes, 0), size_byte(bytes, 1)))
}

/// A byte of the size; one that is missing counts as 0, which is no length of a side.
fn size_byte(bytes: &[u8], place: usize) -> u8
    ensures { result ≡ slice_index bytes.now place }
{
    bytes.get(place).copied().unwrap_or(0)
}

/// How many points the board has, if so much memory is lent.
pub(crate) fn enough(size: Size, lent: usize) -> Option<usize>
    ensures { elim result [
      | Some n ↦ (n ≡ points size.width size.height) × (n ≤ lent) × (1 ≤ n) × (n ≤ 361)
      | None ↦ lent < points size.width size.height
    ] }
{
    let points = size.points();
    (points <= lent).then_some(points)
}

/// The size that the first two bytes give, if so much memory is lent for points, chains and rooms.
pub(crate) fn lent_size(
    bytes: &[u8],
    lent: usize,
    chains: usize,
    rooms: usize,
) -> Result<Size, Refusal>
    ensures { elim result [
      | Ok size ↦ LentFor bytes.now lent chains rooms size
      | Err e ↦ (rest : Option (ℕ × ℕ)) → lent_lines bytes.now lent chains rooms rest ≡ Some (listed e)
    ] }
{
    let size = read_size(bytes)?;
    let Some(_) = enough(size, lent) else {
        return Err(Refusal::TooShort(Lent::Points));
    };
    let Some(_) = enough(size, chains) else {
        return Err(Refusal::TooShort(Lent::Chains));
    };
    let Some(_) = enough(size, rooms) else {
        return Err(Refusal::TooShort(Lent::Rooms));
    };
    Ok(size)
}

/// The bytes after the size.
pub(crate) fn after_size(bytes: &[u8]) -> &[u8]
    ensures { result.now ≡ cells_of bytes.now }
{
    bytes.get(SIZE_BYTES..).unwrap_or(&[])
}

/// The bytes, if they are exactly so many.
pub(crate) fn exactly(rest: &[u8], points: usize) -> Option<&[u8]>
    ensures { elim result [
      | Some cells ↦ (cells.now ≡ rest.now) × (length rest.now ≡ points)
      | None ↦ (length rest.now == points) ≡ false
    ] }
{
    (rest.len() == points).then_some(rest)
}

/// The position of as many bytes as the size asks for, if they are points. Whether it can stand is for the call on it to say.
pub(crate) fn points_of(size: Size, cells: &[u8]) -> Result<Position, Refusal>
    requires { length cells.now ≡ count_of size }
    ensures { elim result [
      | Ok position ↦ PointsOf size cells.now position
      | Err e ↦ (rest : Option (ℕ × ℕ)) → cells_lines size.width size.height cells.now rest ≡ Some (listed e)
    ] }
{
    Position::new(size, cells)
}

/// The position of as many bytes as the size asks for, if they are points that can stand.
pub(crate) fn standing(size: Size, cells: &[u8]) -> Result<Position, Refusal>
    requires { length cells.now ≡ count_of size }
    ensures { elim result [
      | Ok position ↦ MadeOf size cells.now position
      | Err e ↦ (rest : Option (ℕ × ℕ)) → cells_lines size.width size.height cells.now rest ≡ Some (listed e)
    ] }
{
    let position = Position::new(size, cells)?;
    position.stands()?;
    Ok(position)
}

/// How many bytes, from the first on, are those of the first of several boards: its size and its points, or all where these are
/// not there.
pub fn board_length(bytes: &[u8]) -> usize
    ensures value { result ≡ first_length bytes.now }
    ensures bounds { (result ≤ length bytes.now) × (1 ≤ length bytes.now → 1 ≤ result) }
{
    match read_size(bytes) {
        Ok(size) => (SIZE_BYTES + size.points()).min(bytes.len()),
        Err(_) => bytes.len(),
    }
}
