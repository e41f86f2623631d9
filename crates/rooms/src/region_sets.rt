//! The rooms of the judged side, and for each of its chains those that are vital to it and those that have it for a wall.

ghost use Rattle.std.specs.Prelude.{◌≡◌, ℕ, ◌<◌, ◌≤◌, true, false, length, drop, Some, None, Ok, Err, slice_index};
ghost use Rattle.grid.specs.Refusals.{listed};
ghost use Rattle.chains.specs.Board.{mine};
ghost use Rattle.chains.specs.Labels.{ChainLabels};
ghost use Rattle.chains.specs.Sized.{count_of, near_of, seen};
ghost use Rattle.chains.specs.Views.{stone_byte};
ghost use Rattle.rooms.specs.Bits.{member};
ghost use Rattle.rooms.specs.Numbered.{RoomLabels};
ghost use Rattle.rooms.specs.Regioned.{own_byte, Regioned, RegionsWritten};
ghost use Rattle.rooms.specs.Tables.{set_of, holds, regions_refusal};

use crate::room_set::RoomSet;
use crate::tables::Parted;
use chains::colour::{Colour, EMPTY_BYTE};
use chains::labels::{MAX_POINTS, label};
use chains::position::Position;
use grid::refusal::{Lent, Refusal};

/// How many vital rooms a chain needs, if nobody is ever to take it.
pub const ROOMS_TO_LIVE: u32 = 2;

/// For each chain of the judged side, by its first point, the rooms that are vital to it and those that have it for a wall.
#[derive(Clone, Copy)]
pub struct Regions {
    // two arrays and no array of pairs: the same functions fill either
    vital: [RoomSet; MAX_POINTS],
    walls: [RoomSet; MAX_POINTS],
}

impl Regions {
    /// The regions of no board: no number has a room.
    pub fn empty() -> Regions
        ensures vital { (c i : ℕ) → holds result.vital c i ≡ false }
        ensures walls { (c i : ℕ) → holds result.walls c i ≡ false }
    {
        Regions {
            vital: no_sets(),
            walls: no_sets(),
        }
    }

    /// Writes the first point of its chain for each stone, and the first point of its room for each point without a stone of the colour;
    /// the answer has for each chain of the colour the rooms that are vital to it, and those that have it for a wall.
    pub fn new(
        position: &Position,
        colour: Colour,
        chains: &mut [u16],
        rooms: &mut [u16],
    ) -> Result<Regions, Refusal>
        ensures { elim result [
          | Ok regions ↦ (regions_refusal (count_of position.now.size) chains.old rooms.old ≡ None)
              × Regioned position.now.size position.now.cells colour chains.old rooms.old chains.new rooms.new regions
          | Err e ↦ (Some (listed e) ≡ regions_refusal (count_of position.now.size) chains.old rooms.old)
              × (chains.new ≡ chains.old) × (rooms.new ≡ rooms.old)
        ] }
    {
        let mut regions = Regions::empty();
        regions.write(position, colour, chains, rooms)?;
        Ok(regions)
    }

    /// Writes the first point of its chain for each stone, and the first point of its room for each point without a stone of the colour;
    /// and for each chain of the colour the rooms that are vital to it, and those that have it for a wall.
    /// What was known of other numbers stays, so that only these sets are written.
    pub fn write(
        &mut self,
        position: &Position,
        colour: Colour,
        chains: &mut [u16],
        rooms: &mut [u16],
    ) -> Result<(), Refusal>
        ensures { elim result [
          | Ok _ ↦ (regions_refusal (count_of position.now.size) chains.old rooms.old ≡ None)
              × RegionsWritten position.now.size position.now.cells colour chains.old rooms.old chains.new rooms.new self.old self.new
          | Err e ↦ (Some (listed e) ≡ regions_refusal (count_of position.now.size) chains.old rooms.old)
              × (chains.new ≡ chains.old) × (rooms.new ≡ rooms.old) × (self.new ≡ self.old)
        ] }
    {
        // a list of its own, as in `judge`: nothing may be written before its last line
        let count = position.size().points();
        if chains.len() < count {
            return Err(Refusal::TooShort(Lent::Chains));
        }
        if rooms.len() < count {
            return Err(Refusal::TooShort(Lent::Rooms));
        }
        self.write_sets(position, colour, chains, rooms);
        Ok(())
    }

    /// Writes both slices, and reads the sets off them.
    fn write_sets(
        &mut self,
        position: &Position,
        colour: Colour,
        chains: &mut [u16],
        rooms: &mut [u16],
    )
        requires chained { count_of position.now.size ≤ length chains.old }
        requires roomed { count_of position.now.size ≤ length rooms.old }
        ensures { RegionsWritten position.now.size position.now.cells colour chains.old rooms.old chains.new rooms.new self.old self.new }
    {
        write_chains(position, chains);
        write_rooms(position, colour, rooms);
        let parted = Parted {
            size: position.size(),
            chains,
            rooms,
        };
        parted.clear_chains(&mut self.vital, &mut self.walls);
        parted.write_vital(&mut self.vital);
        parted.write_walls(&mut self.walls);
    }

    /// The rooms that are vital to the chain with that first point. A number that is not there has none.
    pub fn vital(&self, chain: usize) -> RoomSet
        ensures value { chain < 361 → result.words ≡ set_of self.now.vital chain }
        ensures past { 361 ≤ chain → (i : ℕ) → member result.words i ≡ false }
    {
        self.vital.get(chain).copied().unwrap_or(RoomSet::empty())
    }

    /// The rooms that have the chain with that first point for a wall. A number that is not there has none.
    pub fn walls(&self, chain: usize) -> RoomSet
        ensures value { chain < 361 → result.words ≡ set_of self.now.walls chain }
        ensures past { 361 ≤ chain → (i : ℕ) → member result.words i ≡ false }
    {
        self.walls.get(chain).copied().unwrap_or(RoomSet::empty())
    }
}

/// A set without a room for each number.
fn no_sets() -> [RoomSet; MAX_POINTS]
    ensures { (c i : ℕ) → holds result c i ≡ false }
{
    [RoomSet::empty(); MAX_POINTS]
}

/// Writes the first point of its chain for each stone. The slice reaches over the board, so nothing is refused.
fn write_chains(position: &Position, chains: &mut [u16])
    requires { count_of position.now.size ≤ length chains.old }
    ensures chained { (colour : Colour) → ChainLabels (count_of position.now.size) (near_of position.now.size)
        (seen position.now.size position.now.cells colour) chains.new }
    ensures past { drop (count_of position.now.size) chains.new ≡ drop (count_of position.now.size) chains.old }
{
    let Ok(_) = position.chains(chains) else {
        return;
    };
}

/// The byte of a point without the other side's stones.
fn own_byte(byte: u8, own: u8) -> u8
    ensures { result ≡ own_byte own byte }
{
    if byte == own { own } else { EMPTY_BYTE }
}

/// The bytes of the points without the other side's stones.
fn own_stones(position: &Position, colour: Colour) -> [u8; MAX_POINTS]
    ensures { (p : ℕ) → p < count_of position.now.size → slice_index result p ≡ own_byte (stone_byte colour) (slice_index position.now.cells p) }
{
    let own = colour.byte();
    let cells = position.cells();
    // not `map` over the array, which takes its elements out one by one
    std::array::from_fn(|p| own_byte(cells[p], own))
}

/// Writes the first point of its room for each point without an own stone: these points are one class of bytes once the other side's stones are left out.
/// Both slices reach over the board, so nothing is refused.
fn write_rooms(position: &Position, colour: Colour, rooms: &mut [u16])
    requires { count_of position.now.size ≤ length rooms.old }
    ensures roomed { RoomLabels (count_of position.now.size) (near_of position.now.size)
        (seen position.now.size position.now.cells colour) rooms.new }
    ensures past { drop (count_of position.now.size) rooms.new ≡ drop (count_of position.now.size) rooms.old }
{
    let classes = own_stones(position, colour);
    let Ok(_) = label(position.size(), &classes, colour.byte(), rooms) else {
        return;
    };
}
