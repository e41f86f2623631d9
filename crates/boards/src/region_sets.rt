// The rooms of each chain: those that are vital to it, and those that have it for a wall.
use crate::drawing::written;
use crate::memory::ENTRY_BEFORE;
use chains::colour::Colour;
use chains::labels::{MAX_POINTS, NO_POINT};
use chains::position::Position;
use grid::refusal::{Lent, Refusal};
use rooms::region_sets::Regions;
use rooms::room_set::RoomSet;
use std::process::Abort;
use std::test::Fail;

// The regions of the position, as `new` gives them and as `write` leaves them. Both write the same.
fn regions<const N: usize>(
    rt: &impl Abort,
    position: Position,
    colour: Colour,
    chains: &mut [u16; N],
    rooms: &mut [u16; N],
) -> Result<[Regions; 2], Fail> {
    let mut new_chains = *chains;
    let mut new_rooms = *rooms;
    let new = Regions::new(&position, colour, &mut new_chains, &mut new_rooms)?;
    let mut written = Regions::empty();
    written.write(&position, colour, chains, rooms)?;
    assert_eq!(rt; new_chains, *chains);
    assert_eq!(rt; new_rooms, *rooms);
    Ok([new, written])
}

// The set has exactly these rooms.
fn holds(rt: &impl Abort, set: RoomSet, rooms: &[usize]) {
    let mut wanted = RoomSet::empty();
    for room in rooms {
        wanted.insert(*room);
    }
    for room in 0..MAX_POINTS {
        assert_eq!(rt; set.contains(room), wanted.contains(room));
    }
}

// Both have exactly these rooms vital to the chain.
fn vital(rt: &impl Abort, both: &[Regions; 2], chain: usize, rooms: &[usize]) {
    for regions in both {
        holds(rt, regions.vital(chain), rooms);
    }
}

// And exactly these rooms have it for a wall.
fn walls(rt: &impl Abort, both: &[Regions; 2], chain: usize, rooms: &[usize]) {
    for regions in both {
        holds(rt, regions.walls(chain), rooms);
    }
}

#[test]
fn two_stones_in_a_row(rt: HostRuntime) -> Result<(), Fail> {
    let mut chains = [ENTRY_BEFORE; 6];
    let mut rooms = [ENTRY_BEFORE; 6];
    let position = written(5, 1, b".X.X.")?;
    let both = regions(&rt, position, Colour::Black, &mut chains, &mut rooms)?;
    let none = NO_POINT;
    assert_eq!(rt; chains, [none, 1, none, 3, none, ENTRY_BEFORE]);
    assert_eq!(rt; rooms, [0, none, 2, none, 4, ENTRY_BEFORE]);
    let cases: [(usize, &[usize]); 5] = [
        (1, &[0, 2]),
        (3, &[2, 4]),
        (0, &[]),
        (2, &[]),
        (400, &[]),
    ];
    for (chain, own) in cases {
        vital(&rt, &both, chain, own);
        walls(&rt, &both, chain, own);
    }
    Ok(())
}

#[test]
fn four_stones_about_a_point(rt: HostRuntime) -> Result<(), Fail> {
    let mut chains = [ENTRY_BEFORE; 9];
    let mut rooms = [ENTRY_BEFORE; 9];
    let position = written(3, 3, b".X.X.X.X.")?;
    let both = regions(&rt, position, Colour::Black, &mut chains, &mut rooms)?;
    let none = NO_POINT;
    assert_eq!(rt; chains, [none, 1, none, 3, none, 5, none, 7, none]);
    assert_eq!(rt; rooms, [0, none, 2, none, 4, none, 6, none, 8]);
    vital(&rt, &both, 1, &[0, 2, 4]);
    vital(&rt, &both, 3, &[0, 4, 6]);
    vital(&rt, &both, 5, &[2, 4, 8]);
    vital(&rt, &both, 7, &[4, 6, 8]);
    Ok(())
}

// The slices may be longer than the board, and hold the labels of another one.
#[test]
fn stones_of_the_other_side_are_in_rooms(rt: HostRuntime) -> Result<(), Fail> {
    let mut chains = [ENTRY_BEFORE; 12];
    let mut rooms = [ENTRY_BEFORE; 12];
    let position = written(4, 3, b".X.OXXXX.XO.")?;
    let both = regions(&rt, position, Colour::Black, &mut chains, &mut rooms)?;
    let none = NO_POINT;
    assert_eq!(rt; chains, [none, 1, none, 3, 1, 1, 1, 1, none, 1, 10, none]);
    assert_eq!(rt;
        rooms,
        [0, none, 2, 2, none, none, none, none, 8, none, 10, 10]
    );
    vital(&rt, &both, 1, &[0, 2, 8, 10]);
    let row = written(5, 1, b"X.O.X")?;
    let black = regions(&rt, row, Colour::Black, &mut chains, &mut rooms)?;
    assert_eq!(rt; &rooms[0..5], [none, 1, 1, 1, none].as_slice());
    vital(&rt, &black, 0, &[]);
    vital(&rt, &black, 4, &[]);
    walls(&rt, &black, 0, &[1]);
    walls(&rt, &black, 4, &[1]);
    let white = regions(&rt, row, Colour::White, &mut chains, &mut rooms)?;
    assert_eq!(rt; &rooms[0..5], [0, 0, none, 3, 3].as_slice());
    vital(&rt, &white, 2, &[0, 3]);
    Ok(())
}

#[test]
fn each_side_has_rooms_of_its_own(rt: HostRuntime) -> Result<(), Fail> {
    let mut chains = [ENTRY_BEFORE; 5];
    let mut rooms = [ENTRY_BEFORE; 5];
    let none = NO_POINT;
    let position = written(5, 1, b"X.O.X")?;
    let black = regions(&rt, position, Colour::Black, &mut chains, &mut rooms)?;
    assert_eq!(rt; rooms, [none, 1, 1, 1, none]);
    for chain in [0, 4] {
        vital(&rt, &black, chain, &[]);
        walls(&rt, &black, chain, &[1]);
    }
    let white = regions(&rt, position, Colour::White, &mut chains, &mut rooms)?;
    assert_eq!(rt; rooms, [0, 0, none, 3, 3]);
    vital(&rt, &white, 2, &[0, 3]);
    Ok(())
}

// The second board is written over the labels of the first.
#[test]
fn a_full_room_is_a_wall_and_not_vital(rt: HostRuntime) -> Result<(), Fail> {
    let mut chains = [ENTRY_BEFORE; 4];
    let mut rooms = [ENTRY_BEFORE; 4];
    for position in [written(4, 1, b".XO.")?, written(3, 1, b".XO")?] {
        let both = regions(&rt, position, Colour::Black, &mut chains, &mut rooms)?;
        vital(&rt, &both, 1, &[0]);
        walls(&rt, &both, 1, &[0, 2]);
    }
    Ok(())
}

#[test]
fn sets_of_an_earlier_board_give_way(rt: HostRuntime) -> Result<(), Fail> {
    let mut chains = [ENTRY_BEFORE; 6];
    let mut rooms = [ENTRY_BEFORE; 6];
    let mut regions = Regions::empty();
    holds(&rt, regions.vital(1), &[]);
    holds(&rt, regions.walls(1), &[]);
    let long = written(6, 1, b".X.X.X")?;
    regions.write(&long, Colour::Black, &mut chains, &mut rooms)?;
    holds(&rt, regions.vital(1), &[0, 2]);
    holds(&rt, regions.vital(5), &[4]);
    let short = written(4, 1, b".XX.")?;
    regions.write(&short, Colour::Black, &mut chains, &mut rooms)?;
    holds(&rt, regions.vital(1), &[0, 3]);
    holds(&rt, regions.walls(1), &[0, 3]);
    holds(&rt, regions.vital(3), &[2, 4]);
    holds(&rt, regions.vital(5), &[4]);
    Ok(())
}

#[test]
fn refusals_change_nothing(rt: HostRuntime) -> Result<(), Fail> {
    let mut chains = [ENTRY_BEFORE; 4];
    let mut rooms = [ENTRY_BEFORE; 4];
    let mut short = [ENTRY_BEFORE; 3];
    let mut other_short = [ENTRY_BEFORE; 3];
    let position = written(2, 2, b"X..X")?;
    assert_eq!(rt;
        Regions::new(&position, Colour::Black, &mut short, &mut other_short).err(),
        Some(Refusal::TooShort(Lent::Chains))
    );
    assert_eq!(rt;
        Regions::new(&position, Colour::Black, &mut chains, &mut short).err(),
        Some(Refusal::TooShort(Lent::Rooms))
    );
    assert_eq!(rt; short, [ENTRY_BEFORE; 3]);
    assert_eq!(rt; chains, [ENTRY_BEFORE; 4]);
    let mut regions = Regions::empty();
    regions.write(&position, Colour::Black, &mut chains, &mut rooms)?;
    let other = written(2, 2, b".X..")?;
    let chains_before = chains;
    assert_eq!(rt;
        regions.write(&other, Colour::Black, &mut short, &mut other_short),
        Err(Refusal::TooShort(Lent::Chains))
    );
    assert_eq!(rt;
        regions.write(&other, Colour::Black, &mut chains, &mut short),
        Err(Refusal::TooShort(Lent::Rooms))
    );
    assert_eq!(rt; short, [ENTRY_BEFORE; 3]);
    assert_eq!(rt; chains, chains_before);
    holds(&rt, regions.walls(0), &[1, 2]);
    holds(&rt, regions.walls(1), &[]);
    Ok(())
}
