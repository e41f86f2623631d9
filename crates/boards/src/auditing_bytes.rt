// The auditor of marks, from the bytes of a board.
use crate::auditing::{BLACK, WHITE};
use crate::drawing::board;
use crate::faulty_bytes::faulty_bytes;
use crate::memory::{ENTRY_BEFORE, Lengths, Memory, POINT_BEFORE, unwritten_from};
use crate::rows::takes;
use capture::audit::Verdict;
use chains::labels::{MAX_POINTS, NO_POINT};
use grid::refusal::Refusal;
use notation::auditing::audit_marks;
use std::process::Abort;
use std::test::Fail;

// How much is lent: more than the boards have points.
const LENT: usize = 7;

// The bytes of a board, marks on it, the verdict, and what lent memory then holds.
#[derive(Clone, Copy)]
struct AuditCase {
    bytes: &'static [u8],
    colour: u8,
    marks: &'static [u8],
    verdict: Verdict,
    points: [u8; LENT],
    chains: [u16; LENT],
    rooms: [u16; LENT],
}

// No row is written but for a mark too many.
fn audited(rt: &impl Abort, expected: AuditCase) -> Result<[u16; MAX_POINTS], Fail> {
    let mut points = [POINT_BEFORE; LENT];
    let mut chains = [ENTRY_BEFORE; LENT];
    let mut rooms = [ENTRY_BEFORE; LENT];
    let mut moves = [ENTRY_BEFORE; MAX_POINTS];
    let found = audit_marks(
        expected.bytes,
        expected.colour,
        expected.marks,
        &mut points,
        &mut chains,
        &mut rooms,
        &mut moves,
    );
    assert_eq!(rt; found, Ok(expected.verdict));
    assert_eq!(rt; points, expected.points);
    assert_eq!(rt; chains, expected.chains);
    assert_eq!(rt; rooms, expected.rooms);
    let count = match expected.verdict {
        Verdict::TooMany { moves, .. } => moves,
        _ => 0,
    };
    unwritten_from(rt, &moves, count);
    Ok(moves)
}

#[test]
fn right_marks_a_missing_one_and_one_without_a_stone(rt: HostRuntime) -> Result<(), Fail> {
    let none = NO_POINT;
    let before = ENTRY_BEFORE;
    let right = AuditCase {
        bytes: b"\x05\x01.X.X.",
        colour: BLACK,
        marks: &[0, 1, 0, 1, 0],
        verdict: Verdict::Right,
        points: *b".X.X.##",
        chains: [none, 1, none, 3, none, before, before],
        rooms: [0, none, 2, none, 4, before, before],
    };
    audited(&rt, right)?;
    audited(
        &rt,
        AuditCase {
            marks: &[0; 5],
            verdict: Verdict::Missing(1),
            ..right
        },
    )?;
    audited(
        &rt,
        AuditCase {
            colour: WHITE,
            marks: &[0, 1, 0, 0, 0],
            verdict: Verdict::NoStone(1),
            rooms: [0, 0, 0, 0, 0, before, before],
            ..right
        },
    )?;
    Ok(())
}

#[test]
fn a_mark_too_many_is_shown_by_a_row(rt: HostRuntime) -> Result<(), Fail> {
    let none = NO_POINT;
    let before = ENTRY_BEFORE;
    let two_chains = AuditCase {
        bytes: b"\x06\x01.X..X.",
        colour: BLACK,
        marks: &[0, 1, 0, 0, 1, 0],
        verdict: Verdict::TooMany { point: 1, moves: 2 },
        points: *b".X..X.#",
        chains: [none, 1, none, none, 4, none, before],
        rooms: [0, none, 2, 2, none, 5, before],
    };
    let row = audited(&rt, two_chains)?;
    takes(&rt, board(&rt, ".X..X.")?, 1, &row[0..2])?;
    let row = audited(
        &rt,
        AuditCase {
            bytes: b"\x06\x01.XX...",
            marks: &[0, 1, 1, 0, 0, 0],
            points: *b".XX...#",
            chains: [none, 1, 1, none, none, none, before],
            rooms: [0, none, none, 3, 3, 3, before],
            ..two_chains
        },
    )?;
    takes(&rt, board(&rt, ".XX...")?, 1, &row[0..2])
}

fn refused(
    rt: &impl Abort,
    bytes: &[u8],
    colour: u8,
    marks: &[u8],
    lent: Lengths,
    expected: Refusal,
) {
    let mut memory = Memory::new();
    assert!(rt; lent.points <= MAX_POINTS && lent.chains <= MAX_POINTS);
    assert!(rt; lent.rooms <= MAX_POINTS && lent.moves <= MAX_POINTS);
    let refused = audit_marks(
        bytes,
        colour,
        marks,
        &mut memory.points[0..lent.points],
        &mut memory.chains[0..lent.chains],
        &mut memory.rooms[0..lent.rooms],
        &mut memory.moves[0..lent.moves],
    );
    assert_eq!(rt; refused.err(), Some(expected));
    memory.untouched(rt);
}

// Whatever the marks are.
#[test]
fn faulty_bytes_and_short_memory_are_refused_before_the_marks(rt: HostRuntime) -> Result<(), Fail> {
    for faulty in faulty_bytes() {
        refused(&rt, faulty.bytes, 2, &[2], faulty.lent, faulty.refusal);
        refused(
            &rt,
            faulty.bytes,
            WHITE,
            &[0; 5],
            faulty.lent,
            faulty.refusal,
        );
    }
    Ok(())
}

// The colour is looked at before the number of the bytes, and that before the bytes.
#[test]
fn marks_are_refused(rt: HostRuntime) -> Result<(), Fail> {
    let cases: [(u8, &[u8], usize); 9] = [
        (2, &[2], 0),
        (255, &[0, 0], 0),
        (BLACK, &[], 0),
        (BLACK, &[2], 1),
        (WHITE, &[2, 2, 2], 3),
        (BLACK, &[2, 2], 0),
        (BLACK, &[0, 2], 1),
        (WHITE, &[255, 0], 0),
        (WHITE, &[1, 2], 1),
    ];
    for (colour, marks, place) in cases {
        let expected = Refusal::BadMarks(place);
        refused(&rt, b"\x02\x01X.", colour, marks, Lengths::all(2), expected);
    }
    Ok(())
}
