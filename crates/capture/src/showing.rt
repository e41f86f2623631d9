//! Showing how a stone is taken that is not marked.

ghost use Rattle.std.specs.Prelude.{◌≡◌, ℕ, length, Some, Ok, Err, Option};
ghost use Rattle.grid.specs.Refusals.{listed};
ghost use Rattle.capture.specs.Showing.{memory_refusal, show_refusal, Fitting, Admitted, Shown, Unshown};

use crate::judgement::Judgement;
use chains::colour::Colour;
use chains::labels::{MAX_POINTS, NO_POINT};
use chains::position::Position;
use grid::refusal::{Lent, Refusal, Untaken};

/// How many entries are lent for the chains, for the rooms and for the moves.
#[derive(Clone, Copy)]
pub(crate) struct LentLengths {
    pub(crate) chains: usize,
    pub(crate) rooms: usize,
    pub(crate) moves: usize,
}

/// Writes a row of moves on which the other side plays one after the other, while the side of the stone at the point passes, and which takes that stone: how many they are.
/// The first points of the chains and of the rooms of that side are written too.
pub fn show(
    position: Position,
    point: usize,
    chains: &mut [u16],
    rooms: &mut [u16],
    moves: &mut [u16],
) -> Result<usize, Refusal>
    ensures { elim result [
      | Ok count ↦ Shown position.size position.cells point chains.old rooms.old moves.old chains.new rooms.new moves.new count
      | Err e ↦ Unshown position.size position.cells point (length chains.old) (length rooms.old) (length moves.old) e
          × (chains.new ≡ chains.old) × (rooms.new ≡ rooms.old) × (moves.new ≡ moves.old)
    ] }
{
    let lent = LentLengths {
        chains: chains.len(),
        rooms: rooms.len(),
        moves: moves.len(),
    };
    let colour = side_of(&position, point, lent)?;
    let mut own_chains = [NO_POINT; MAX_POINTS];
    let mut own_rooms = [NO_POINT; MAX_POINTS];
    let judgement = Judgement::new(position, colour, &mut own_chains, &mut own_rooms)?;
    let count = judgement.row(point, moves)?;
    let points = position.size().points();
    chains[..points].copy_from_slice(&own_chains[..points]);
    rooms[..points].copy_from_slice(&own_rooms[..points]);
    Ok(count)
}

/// Refuses lent memory that is too short, and a board that cannot stand.
pub(crate) fn fits(position: &Position, lent: LentLengths) -> Result<(), Refusal>
    ensures { elim result [
      | Ok _ ↦ Fitting position.now.size position.now.cells lent.chains lent.rooms lent.moves
      | Err e ↦ (rest : Option (ℕ × ℕ)) → Some (listed e) ≡ memory_refusal position.now.size position.now.cells lent.chains lent.rooms lent.moves rest
    ] }
{
    // a list of its own: the judge has no line on moves
    let count = position.size().points();
    if lent.chains < count {
        return Err(Refusal::TooShort(Lent::Chains));
    }
    if lent.rooms < count {
        return Err(Refusal::TooShort(Lent::Rooms));
    }
    if lent.moves < count {
        return Err(Refusal::TooShort(Lent::Moves));
    }
    position.stands()
}

/// The colour of the stone at the point, unless a line of the list applies.
fn side_of(position: &Position, point: usize, lent: LentLengths) -> Result<Colour, Refusal>
    ensures { elim result [
      | Ok colour ↦ Admitted position.now.size position.now.cells point lent.chains lent.rooms lent.moves colour
      | Err e ↦ Some (listed e) ≡ show_refusal position.now.size position.now.cells point lent.chains lent.rooms lent.moves
    ] }
{
    fits(position, lent)?;
    let Some(colour) = position.at(point) else {
        return Err(Refusal::NotShown(Untaken::NoStone));
    };
    Ok(colour)
}
