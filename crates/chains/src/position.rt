//! A position: the size of a board and what stands on its points, as a value.

ghost use Rattle.std.specs.Prelude.{◌≡◌, ℕ, ◌<◌, ◌≤◌, true, false, ◌++◌, length, take, drop, replicate, Some, None, Ok, Err, slice_index, slice_index_or};
ghost use Rattle.std.specs.List.{prefix_len};
ghost use Rattle.grid.specs.Refusals.{listed};
ghost use Rattle.chains.specs.Board.{mine};
ghost use Rattle.chains.specs.Breath.{first_breathless, stand_refusal, BreathesAt, FirstBreathless};
ghost use Rattle.chains.specs.Changed.{cells_with, kept_byte, memory_refusal};
ghost use Rattle.chains.specs.Computed.{breathing};
ghost use Rattle.chains.specs.Labels.{ChainLabels};
ghost use Rattle.chains.specs.Sized.{count_of, near_of, seen};
ghost use Rattle.chains.specs.Stands.{Stands};
ghost use Rattle.chains.specs.Views.{stone_byte, is_point, points_refusal, chains_refusal, standing};

use crate::colour::{Colour, EMPTY_BYTE, is_point};
use crate::labels::{MAX_POINTS, label_points};
use crate::liberties::{breath, breath_at, breathless_from};
use grid::refusal::{Lent, Refusal};
use grid::size::Size;

/// The bytes of the size in a file: the width and the height, before the points.
pub const SIZE_BYTES: usize = 2;

/// Every cell of the board is a byte that writes a point, and the cells past it are empty.
#[derive(Clone, Copy, PartialEq, Eq, Debug)]
pub struct Position {
    size: Size,
    // bytes in an array by value: the form that the society named for a judged board
    cells: [u8; MAX_POINTS],
    ghost board: { (p : ℕ) → p < count_of size → is_point (slice_index cells p) ≡ true },
    ghost past: { (p : ℕ) → count_of size ≤ p → p < 361 → slice_index cells p ≡ 46 },
}

impl Position {
    /// The position that the bytes write.
    pub fn new(size: Size, bytes: &[u8]) -> Result<Position, Refusal>
        ensures { elim result [
          | Ok position ↦ (points_refusal (count_of size) bytes.now ≡ None) × (position.size ≡ size)
              × (take (count_of size) position.cells ≡ take (count_of size) bytes.now)
          | Err e ↦ Some (listed e) ≡ points_refusal (count_of size) bytes.now
        ] }
    {
        let count = size.points();
        if bytes.len() < count {
            return Err(Refusal::TooShort(Lent::Points));
        }
        let good = good_points(&bytes[0..count]);
        if good < count {
            return Err(Refusal::BadByte(SIZE_BYTES + good));
        }
        Ok(Position::of_points(size, bytes))
    }

    /// The position of bytes that are long enough and good.
    fn of_points(size: Size, bytes: &[u8]) -> Position
        requires long { count_of size ≤ length bytes.now }
        requires good { count_of size ≤ prefix_len is_point (take (count_of size) bytes.now) }
        ensures sized { result.size ≡ size }
        ensures copied { take (count_of size) result.cells ≡ take (count_of size) bytes.now }
    {
        let cells = on_empty(bytes, size.points());
        Position { size, cells }
    }

    /// The size of the board.
    pub fn size(self) -> Size
        ensures { result ≡ self.size }
    {
        self.size
    }

    /// The bytes of the points, and of empty points past the board.
    pub fn cells(self) -> [u8; MAX_POINTS]
        ensures { result ≡ self.cells }
    {
        self.cells
    }

    /// The colour of the stone that stands at p.
    pub fn at(&self, p: usize) -> Option<Colour>
        ensures { result ≡ standing (count_of self.now.size) self.now.cells p }
    {
        if p < self.size.points() {
            Colour::of_byte(self.cells[p])
        } else {
            None
        }
    }

    /// Writes the first point of its chain for each stone, and NO_POINT for each empty point.
    pub fn chains(&self, lent: &mut [u16]) -> Result<(), Refusal>
        ensures { elim result [
          | Ok _ ↦ (chains_refusal (count_of self.now.size) lent.old ≡ None)
              × ((colour : Colour) → ChainLabels (count_of self.now.size) (near_of self.now.size)
              (seen self.now.size self.now.cells colour) lent.new)
              × (drop (count_of self.now.size) lent.new
              ≡ drop (count_of self.now.size) lent.old)
          | Err e ↦ (Some (listed e) ≡ chains_refusal (count_of self.now.size) lent.old)
              × (lent.new ≡ lent.old)
        ] }
    {
        if lent.len() < self.size.points() {
            return Err(Refusal::TooShort(Lent::Chains));
        }
        self.label_chains(lent);
        Ok(())
    }

    /// Chains are the classes of the bytes, but for that of the empty points.
    fn label_chains(&self, labels: &mut [u16])
        requires { count_of self.now.size ≤ length labels.old }
        ensures chained { (colour : Colour) → ChainLabels (count_of self.now.size) (near_of self.now.size)
            (seen self.now.size self.now.cells colour) labels.new }
        ensures past { drop (count_of self.now.size) labels.new
            ≡ drop (count_of self.now.size) labels.old }
    {
        label_points(self.size, &self.cells, EMPTY_BYTE, labels);
    }

    /// Whether a stone stands at p and its chain breathes.
    pub fn breathes(&self, p: usize) -> bool
        ensures { (colour : Colour) → BreathesAt (near_of self.now.size) (seen self.now.size self.now.cells colour) p result }
    {
        breath_at(self.size, &self.cells, p)
    }

    /// The first point whose stone does not breathe: none if the board can stand.
    pub fn first_breathless(&self) -> Option<usize>
        ensures found { elim result [
          | Some p ↦ (colour : Colour) → FirstBreathless (near_of self.now.size) (seen self.now.size self.now.cells colour) p
          | None ↦ (colour : Colour) → Stands self.now.size.width self.now.size.height (seen self.now.size self.now.cells colour)
        ] }
        ensures value { elim result [
          | Some p ↦ (p < count_of self.now.size)
              × ((colour : Colour) → first_breathless (count_of self.now.size) (near_of self.now.size) (seen self.now.size self.now.cells colour) ≡ p)
          | None ↦ (colour : Colour) → first_breathless (count_of self.now.size) (near_of self.now.size) (seen self.now.size self.now.cells colour)
              ≡ count_of self.now.size
        ] }
    {
        breathless_from(self.size, &self.cells, 0)
    }

    /// Refuses a board that cannot stand, by its first point whose stone does not breathe.
    pub fn stands(&self) -> Result<(), Refusal>
        ensures { elim result [
          | Ok _ ↦ (stand_refusal (count_of self.now.size) (near_of self.now.size) (seen self.now.size self.now.cells Colour.Black) ≡ None)
              × ((colour : Colour) → Stands self.now.size.width self.now.size.height (seen self.now.size self.now.cells colour))
          | Err e ↦ Some (listed e) ≡ stand_refusal (count_of self.now.size) (near_of self.now.size) (seen self.now.size self.now.cells Colour.Black)
        ] }
    {
        match self.first_breathless() {
            Some(p) => Err(Refusal::NoLiberty(p)),
            None => Ok(()),
        }
    }

    /// The position with a stone of that colour at p; a point off the board changes nothing.
    pub fn with_stone(self, p: usize, colour: Colour) -> Position
        ensures sized { result.size ≡ self.size }
        ensures put { result.cells ≡ cells_with (count_of self.size) self.cells p colour }
    {
        if p >= self.size.points() {
            return self;
        }
        let mut cells = self.cells;
        cells[p] = colour.byte();
        Position {
            size: self.size,
            cells,
        }
    }

    /// The position without the stones of that colour whose chains do not breathe.
    pub fn without_breathless(self, colour: Colour) -> Position
        ensures sized { result.size ≡ self.size }
        ensures left { (p : ℕ) → p < 361 → slice_index result.cells p
            ≡ kept_byte (stone_byte colour) (slice_index self.cells p) (breathing (count_of self.size) (near_of self.size) (seen self.size self.cells colour) mine p) }
    {
        let gone = colour.byte();
        let marks = breath(self.size, &self.cells);
        Position {
            size: self.size,
            cells: kept_cells(&self.cells, gone, &marks),
        }
    }

    /// Writes the points into the front of lent memory, and nothing past them.
    pub fn write(&self, board: &mut [u8]) -> Result<(), Refusal>
        ensures { elim result [
          | Ok _ ↦ (memory_refusal (count_of self.now.size) board.old ≡ None)
              × (board.new ≡ take (count_of self.now.size) self.now.cells ++ drop (count_of self.now.size) board.old)
          | Err e ↦ (Some (listed e) ≡ memory_refusal (count_of self.now.size) board.old) × (board.new ≡ board.old)
        ] }
    {
        let count = self.size.points();
        if board.len() < count {
            return Err(Refusal::TooShort(Lent::Points));
        }
        board[0..count].copy_from_slice(&self.cells[0..count]);
        Ok(())
    }
}

/// The bytes without the stones of that kind that do not breathe.
fn kept_cells(
    cells: &[u8; MAX_POINTS],
    gone: u8,
    breathing: &[bool; MAX_POINTS],
) -> [u8; MAX_POINTS]
    ensures { (p : ℕ) → p < 361 → slice_index result p ≡ kept_byte gone (slice_index cells.now p) (slice_index_or breathing.now p false) }
{
    std::array::from_fn(|p| kept(cells[p], gone, breathing[p]))
}

/// What becomes of a byte: a stone of the kind that is taken off stays where it breathes.
fn kept(byte: u8, gone: u8, breathes: bool) -> u8
    ensures { result ≡ kept_byte gone byte breathes }
{
    if byte == gone && !breathes {
        EMPTY_BYTE
    } else {
        byte
    }
}

/// The first bytes, and empty points after them.
fn on_empty(bytes: &[u8], count: usize) -> [u8; MAX_POINTS]
    requires long { count ≤ length bytes.now }
    requires few { count ≤ 361 }
    ensures { result ≡ take count bytes.now ++ drop count (replicate 361 46) }
{
    let mut cells = [EMPTY_BYTE; MAX_POINTS];
    cells[0..count].copy_from_slice(&bytes[0..count]);
    cells
}

/// How many of the bytes, from the first on, write points.
#[tactic(auto, using(crate::proofs::Cells::front_fits))]
pub fn good_points(bytes: &[u8]) -> usize
    ensures value { result ≡ prefix_len is_point bytes.now }
    ensures bound { result ≤ length bytes.now }
{
    bytes.iter().take_while(|byte| is_point(**byte)).count()
}
