// The judge on all boards whose judgement is known, in both colours.
use crate::drawing::board;
use crate::memory::{ENTRY_BEFORE, Lengths, Memory};
use crate::table::{COLOURS, KNOWN_BOARDS};
use chains::colour::Colour;
use chains::labels::{MAX_POINTS, NO_POINT};
use chains::position::Position;
use grid::refusal::{Lent, Refusal, Side};
use judge::judgement::judge;
use notation::judging::judge_board;
use notation::point_lines::marks_line;
use notation::written::write_board;
use std::alloc::Global;
use std::process::Abort;
use std::test::Fail;

// How much is lent: as many points as the largest of these boards has, and as many as any board has.
const LENT: [usize; 2] = [24, MAX_POINTS];

// The line that the judging program prints for the stones of one colour ends in this list.
fn printed(
    rt: &(impl Abort + Alloc<A = Global>),
    bytes: &[u8],
    colour: Colour,
    list: &str,
) -> Result<(), Fail> {
    let line = format!(in rt.alloc(); "{colour} {list}")?;
    for lent in LENT {
        assert!(rt; lent <= MAX_POINTS);
        let mut memory = Memory::new();
        let judged = judge_board(
            bytes,
            colour,
            &mut memory.points[0..lent],
            &mut memory.chains[0..lent],
            &mut memory.rooms[0..lent],
        )?;
        let marks = marks_line(rt.alloc(), colour, &judged.marks.entries())?;
        assert_eq!(rt; marks.as_str(), line.as_str());
    }
    Ok(())
}

// These stones of one colour are marked, and no others.
fn judged(
    rt: &impl Abort,
    position: Position,
    colour: Colour,
    marked: [bool; MAX_POINTS],
) -> Result<(), Fail> {
    let mut memory = Memory::new();
    let marks = judge(position, colour, &mut memory.chains, &mut memory.rooms)?;
    assert_eq!(rt; marks.entries(), marked);
    for (point, mark) in marked.iter().enumerate() {
        assert_eq!(rt; marks.has(point), *mark);
    }
    assert!(rt; !marks.has(MAX_POINTS));
    Ok(())
}

#[test]
fn all_boards(rt: HostRuntime) -> Result<(), Fail> {
    for colour in COLOURS {
        for known in KNOWN_BOARDS {
            let position = known.board(&rt, colour)?;
            judged(&rt, position, colour, known.marks(&rt)?)?;
            judged(&rt, position, colour.other(), [false; MAX_POINTS])?;
            let bytes = write_board(rt.alloc(), position.size(), &position.cells())?;
            assert_eq!(rt; bytes.as_slice(), known.bytes(colour));
            printed(&rt, &bytes, colour, known.marked)?;
            printed(&rt, &bytes, colour.other(), "none")?;
        }
    }
    Ok(())
}

#[test]
fn labels_are_written(rt: HostRuntime) -> Result<(), Fail> {
    let mut chains = [ENTRY_BEFORE; 6];
    let mut rooms = [ENTRY_BEFORE; 6];
    assert!(rt; judge(board(&rt, ".X.O.")?, Colour::Black, &mut chains, &mut rooms).is_ok());
    let none = NO_POINT;
    assert_eq!(rt; chains, [none, 1, none, 3, none, ENTRY_BEFORE]);
    assert_eq!(rt; rooms, [0, none, 2, 2, 2, ENTRY_BEFORE]);
    Ok(())
}

fn refused(rt: &impl Abort, position: Position, lent: Lengths, expected: Refusal) {
    let mut memory = Memory::new();
    assert!(rt; lent.chains <= MAX_POINTS && lent.rooms <= MAX_POINTS);
    let refused = judge(
        position,
        Colour::Black,
        &mut memory.chains[0..lent.chains],
        &mut memory.rooms[0..lent.rooms],
    );
    assert_eq!(rt; refused.err(), Some(expected));
    memory.untouched(rt);
}

// Lent memory is looked at before the board.
#[test]
fn refusals(rt: HostRuntime) -> Result<(), Fail> {
    let chains = Lengths::all(3).with(Lent::Chains, 4);
    let cases: [(Lengths, Refusal); 3] = [
        (Lengths::all(3), Refusal::TooShort(Lent::Chains)),
        (chains, Refusal::TooShort(Lent::Rooms)),
        (Lengths::all(4), Refusal::NoLiberty(2)),
    ];
    for (lent, expected) in cases {
        refused(&rt, board(&rt, ".XOX")?, lent, expected);
    }
    Ok(())
}

fn bytes_refused(rt: &impl Abort, bytes: &[u8], lent: Lengths, expected: Refusal) {
    let mut memory = Memory::new();
    assert!(rt; lent.points <= MAX_POINTS && lent.chains <= MAX_POINTS && lent.rooms <= MAX_POINTS);
    let refused = judge_board(
        bytes,
        Colour::White,
        &mut memory.points[0..lent.points],
        &mut memory.chains[0..lent.chains],
        &mut memory.rooms[0..lent.rooms],
    );
    assert_eq!(rt; refused.err(), Some(expected));
    memory.untouched(rt);
}

// All memory is asked for before the points are counted, and nothing is written before the last check.
#[test]
fn refusals_of_bytes(rt: HostRuntime) -> Result<(), Fail> {
    let all = Lengths::all(3);
    let points = Lengths::all(2).with(Lent::Points, 3);
    let both = points.with(Lent::Chains, 3);
    let cases: [(&[u8], Lengths, Refusal); 9] = [
        (b"\x14\x00", Lengths::all(0), Refusal::BadSide(Side::Width)),
        (b"\x03\x00", Lengths::all(0), Refusal::BadSide(Side::Height)),
        (
            b"\x03\x00",
            Lengths::all(24),
            Refusal::BadSide(Side::Height),
        ),
        (
            b"\x03\x01X",
            Lengths::all(2),
            Refusal::TooShort(Lent::Points),
        ),
        (b"\x03\x01X", points, Refusal::TooShort(Lent::Chains)),
        (b"\x03\x01X", both, Refusal::TooShort(Lent::Rooms)),
        (b"\x03\x01X", all, Refusal::Count(1)),
        (b"\x03\x01XO?", all, Refusal::BadByte(4)),
        (b"\x03\x01XO.", all, Refusal::NoLiberty(0)),
    ];
    for (bytes, lent, expected) in cases {
        bytes_refused(&rt, bytes, lent, expected);
    }
    Ok(())
}
