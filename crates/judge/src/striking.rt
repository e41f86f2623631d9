//! The rounds: chains with too few rooms are struck, and then the rooms that have a struck chain among their walls.

ghost use Rattle.std.specs.Prelude.{◌≡◌, ℕ, ◌<◌, ◌≤◌, not, ◌&&◌, ◌==◌, nat_lt};
ghost use Rattle.rooms.specs.Bits.{member, shared_below};
ghost use Rattle.judge.specs.Round.{Rounds, Enough};
ghost use Rattle.rooms.specs.Tables.{set_of};

use rooms::region_sets::{ROOMS_TO_LIVE, Regions};
use rooms::room_set::RoomSet;

/// The chains and the rooms that are not struck, by their first points.
#[derive(Clone, Copy)]
pub(crate) struct Left {
    pub(crate) chains: RoomSet,
    pub(crate) rooms: RoomSet,
}

/// Whether a chain is left and has fewer than two vital rooms among those that are left.
fn lacks_rooms(regions: &Regions, chains: &RoomSet, rooms: &RoomSet, chain: usize) -> bool
    requires { chain < 361 }
    ensures { result ≡ (member chains.now.words chain && nat_lt (shared_below 384 (set_of regions.now.vital chain) rooms.now.words) 2) }
{
    chains.contains(chain) && regions.vital(chain).shared(rooms) < ROOMS_TO_LIVE
}

/// Strikes the rooms that have a chain for a wall.
fn strike_rooms(regions: &Regions, chain: usize, rooms: &mut RoomSet)
    requires { chain < 361 }
    ensures { (y : ℕ) → member rooms.new.words y ≡ (member rooms.old.words y && not (member (set_of regions.now.walls chain) y)) }
{
    rooms.remove_all(&regions.walls(chain));
}

/// Whether a round struck nothing.
fn is_empty(struck: &RoomSet) -> bool
    ensures { result ≡ (shared_below 384 struck.now.words struck.now.words == 0) }
{
    struck.shared(struck) == 0
}

/// Strikes the chains that lack rooms and then the rooms with such a wall, round after round, until a round strikes nothing.
pub(crate) fn strike(regions: &Regions, count: usize, all: Left) -> Left
    requires { count ≤ 361 }
    ensures rounds { Rounds count (set_of regions.now.vital) (set_of regions.now.walls) all.chains.words all.rooms.words result.chains.words result.rooms.words }
    ensures enough { Enough count (set_of regions.now.vital) result.chains.words result.rooms.words }
{
    let mut chains = all.chains;
    let mut rooms = all.rooms;
    // nested loops left by a label: the form that the society named
    'rounds: loop {
        let mut struck = RoomSet::empty();
        let mut rest = rooms;
        for chain in 0..count {
            if lacks_rooms(regions, &chains, &rooms, chain) {
                struck.insert(chain);
                strike_rooms(regions, chain, &mut rest);
            }
        }
        chains.remove_all(&struck);
        rooms = rest;
        if is_empty(&struck) {
            break 'rounds;
        }
    }
    Left { chains, rooms }
}
