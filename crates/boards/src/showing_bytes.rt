// How a stone is taken, from the bytes of a board.
use crate::drawing::board;
use crate::faulty_bytes::faulty_bytes;
use crate::memory::{ENTRY_BEFORE, Lengths, Memory, POINT_BEFORE};
use crate::rows::takes;
use chains::labels::{MAX_POINTS, NO_POINT};
use grid::refusal::{Refusal, Untaken};
use notation::showing::show_stone;
use std::process::Abort;
use std::test::Fail;

#[test]
fn a_row_is_shown_and_the_board_is_lent(rt: HostRuntime) -> Result<(), Fail> {
    let mut points = [POINT_BEFORE; 7];
    let mut chains = [ENTRY_BEFORE; 7];
    let mut rooms = [ENTRY_BEFORE; 7];
    let mut moves = [ENTRY_BEFORE; 7];
    let shown = show_stone(
        b"\x06\x01.XX...",
        2,
        &mut points,
        &mut chains,
        &mut rooms,
        &mut moves,
    );
    assert_eq!(rt; shown, Ok(2));
    let none = NO_POINT;
    let before = ENTRY_BEFORE;
    assert_eq!(rt; points, *b".XX...#");
    assert_eq!(rt; chains, [none, 1, 1, none, none, none, before]);
    assert_eq!(rt; rooms, [0, none, none, 3, 3, 3, before]);
    assert_eq!(rt; moves, [3, 0, before, before, before, before, before]);
    takes(&rt, board(&rt, ".XX...")?, 2, &moves[0..2])
}

fn refused(rt: &impl Abort, bytes: &[u8], point: usize, lent: Lengths, expected: Refusal) {
    let mut memory = Memory::new();
    assert!(rt; lent.points <= MAX_POINTS && lent.chains <= MAX_POINTS);
    assert!(rt; lent.rooms <= MAX_POINTS && lent.moves <= MAX_POINTS);
    let refused = show_stone(
        bytes,
        point,
        &mut memory.points[0..lent.points],
        &mut memory.chains[0..lent.chains],
        &mut memory.rooms[0..lent.rooms],
        &mut memory.moves[0..lent.moves],
    );
    assert_eq!(rt; refused.err(), Some(expected));
    memory.untouched(rt);
}

// Whichever point is asked for.
#[test]
fn faulty_bytes_and_short_memory_are_refused_before_the_stone(rt: HostRuntime) -> Result<(), Fail> {
    for faulty in faulty_bytes() {
        for point in [0, 9] {
            refused(&rt, faulty.bytes, point, faulty.lent, faulty.refusal);
        }
    }
    Ok(())
}

#[test]
fn no_stone_and_a_marked_stone_are_refused(rt: HostRuntime) -> Result<(), Fail> {
    let cases: [(usize, Untaken); 5] = [
        (0, Untaken::NoStone),
        (5, Untaken::NoStone),
        (400, Untaken::NoStone),
        (1, Untaken::Marked),
        (3, Untaken::Marked),
    ];
    for (point, why) in cases {
        let expected = Refusal::NotShown(why);
        refused(&rt, b"\x05\x01.X.X.", point, Lengths::all(5), expected);
    }
    Ok(())
}
