// The auditor of marks, on the boards whose judgement is known.
use crate::drawing::board;
use crate::memory::{Lengths, Memory, unwritten_from};
use crate::rows::takes;
use crate::table::{COLOURS, KNOWN_BOARDS};
use capture::audit::{Verdict, audit};
use chains::colour::Colour;
use chains::labels::MAX_POINTS;
use chains::position::Position;
use grid::refusal::{Lent, Refusal};
use std::alloc::Global;
use std::process::Abort;
use std::test::Fail;

pub const BLACK: u8 = 0;

pub const WHITE: u8 = 1;

fn number(colour: Colour) -> u8 {
    match colour {
        Colour::Black => BLACK,
        Colour::White => WHITE,
    }
}

// The byte of each point that has a mark is 1.
fn bytes_of(marked: &[bool; MAX_POINTS]) -> [u8; MAX_POINTS] {
    marked.map(u8::from)
}

// A mark too many is shown by a row that takes the stone, and nothing is written past it; no row is written otherwise.
fn audited(
    rt: &(impl Abort + Alloc<A = Global>),
    position: Position,
    colour: Colour,
    marks: &[u8],
) -> Result<Verdict, Fail> {
    let mut memory = Memory::new();
    let verdict = audit(
        position,
        number(colour),
        marks,
        &mut memory.chains,
        &mut memory.rooms,
        &mut memory.moves,
    )?;
    let count = match verdict {
        Verdict::TooMany { moves, .. } => moves,
        _ => 0,
    };
    assert!(rt; count <= position.size().points() && count <= MAX_POINTS);
    unwritten_from(rt, &memory.moves, count);
    if let Verdict::TooMany { point, .. } = verdict {
        takes(rt, position, point, &memory.moves[0..count])?;
    }
    Ok(verdict)
}

// The marks with one put or taken away.
fn turned(marked: &[bool; MAX_POINTS], point: usize) -> [bool; MAX_POINTS] {
    let mut marks = *marked;
    if point < MAX_POINTS {
        marks[point] = !marks[point];
    }
    marks
}

// A wrong mark at the point is named: it is missing, too many, or stands where no stone of the colour does.
fn names(
    rt: &impl Abort,
    verdict: Verdict,
    point: usize,
    marked: bool,
    own: bool,
) -> Result<(), Fail> {
    match verdict {
        Verdict::Right => Err(Fail::new("right")),
        Verdict::Missing(p) => {
            assert!(rt; p == point && marked);
            Ok(())
        },
        Verdict::TooMany { point: p, .. } => {
            assert!(rt; p == point && !marked && own);
            Ok(())
        },
        Verdict::NoStone(p) => {
            assert!(rt; p == point && !marked && !own);
            Ok(())
        },
    }
}

// Right marks are right, and a wrong one is named at each point.
fn each_point(
    rt: &(impl Abort + Alloc<A = Global>),
    position: Position,
    colour: Colour,
    marked: &[bool; MAX_POINTS],
) -> Result<(), Fail> {
    let count = position.size().points();
    let right = audited(rt, position, colour, &bytes_of(marked)[0..count])?;
    assert_eq!(rt; right, Verdict::Right);
    for (point, mark) in marked.iter().enumerate().take(count) {
        let marks = bytes_of(&turned(marked, point));
        let verdict = audited(rt, position, colour, &marks[0..count])?;
        let own = position.at(point) == Some(colour);
        names(rt, verdict, point, *mark, own)?;
    }
    Ok(())
}

#[test]
fn all_boards(rt: HostRuntime) -> Result<(), Fail> {
    for colour in COLOURS {
        for known in KNOWN_BOARDS {
            let position = known.board(&rt, colour)?;
            each_point(&rt, position, colour, &known.marks(&rt)?)?;
            each_point(&rt, position, colour.other(), &[false; MAX_POINTS])?;
        }
    }
    Ok(())
}

#[test]
fn the_first_wrong_point_is_named(rt: HostRuntime) -> Result<(), Fail> {
    let too_many = Verdict::TooMany { point: 1, moves: 2 };
    let cases: [(&str, &[u8], Verdict); 5] = [
        (".X.X.", &[0, 0, 0, 0, 0], Verdict::Missing(1)),
        (".X.X.", &[0, 1, 0, 0, 0], Verdict::Missing(3)),
        (".X.X.", &[0, 1, 1, 0, 1], Verdict::NoStone(2)),
        (".O.X.", &[0, 1, 0, 0, 0], Verdict::NoStone(1)),
        (".X..X.", &[0, 1, 0, 0, 1, 0], too_many),
    ];
    for (drawing, marks, verdict) in cases {
        let found = audited(&rt, board(&rt, drawing)?, Colour::Black, marks)?;
        assert_eq!(rt; found, verdict);
    }
    Ok(())
}

fn refused(
    rt: &impl Abort,
    position: Position,
    colour: u8,
    marks: &[u8],
    lent: Lengths,
    expected: Refusal,
) {
    let mut memory = Memory::new();
    assert!(rt; lent.chains <= MAX_POINTS && lent.rooms <= MAX_POINTS && lent.moves <= MAX_POINTS);
    let refused = audit(
        position,
        colour,
        marks,
        &mut memory.chains[0..lent.chains],
        &mut memory.rooms[0..lent.rooms],
        &mut memory.moves[0..lent.moves],
    );
    assert_eq!(rt; refused.err(), Some(expected));
    memory.untouched(rt);
}

// Lent memory is looked at before the board, and the board before the marks.
#[test]
fn memory_and_boards_are_refused(rt: HostRuntime) -> Result<(), Fail> {
    let all = Lengths::all(2);
    let chains = Lengths::all(0).with(Lent::Chains, 2);
    let cases: [(Lengths, Refusal); 7] = [
        (Lengths::all(0), Refusal::TooShort(Lent::Chains)),
        (chains, Refusal::TooShort(Lent::Rooms)),
        (chains.with(Lent::Rooms, 2), Refusal::TooShort(Lent::Moves)),
        (all.with(Lent::Chains, 1), Refusal::TooShort(Lent::Chains)),
        (all.with(Lent::Rooms, 1), Refusal::TooShort(Lent::Rooms)),
        (all.with(Lent::Moves, 1), Refusal::TooShort(Lent::Moves)),
        (all, Refusal::NoLiberty(0)),
    ];
    for (lent, expected) in cases {
        refused(&rt, board(&rt, "XX")?, 2, &[2], lent, expected);
        refused(&rt, board(&rt, "XX")?, WHITE, &[0; 2], lent, expected);
    }
    let second = Refusal::NoLiberty(2);
    refused(
        &rt,
        board(&rt, ".XO")?,
        BLACK,
        &[0; 3],
        Lengths::all(3),
        second,
    );
    Ok(())
}

// The colour is looked at before the number of the bytes, and that before the bytes.
#[test]
fn marks_are_refused(rt: HostRuntime) -> Result<(), Fail> {
    let cases: [(u8, &[u8], usize); 12] = [
        (2, &[2], 0),
        (255, &[0, 0, 0, 0, 0], 0),
        (BLACK, &[2], 1),
        (BLACK, &[], 0),
        (BLACK, &[0, 0, 0, 0], 4),
        (WHITE, &[2, 2, 2, 2, 2, 2], 6),
        (BLACK, &[2, 1, 0, 1, 0], 0),
        (BLACK, &[0, 2, 2, 1, 0], 1),
        (WHITE, &[0, 1, 255, 1, 0], 2),
        (BLACK, &[0, 1, 0, 2, 0], 3),
        (BLACK, &[0, 1, 0, 1, 2], 4),
        (WHITE, &[1, 1, 1, 1, 2], 4),
    ];
    for (colour, marks, place) in cases {
        let expected = Refusal::BadMarks(place);
        refused(
            &rt,
            board(&rt, ".X.X.")?,
            colour,
            marks,
            Lengths::all(5),
            expected,
        );
    }
    Ok(())
}
