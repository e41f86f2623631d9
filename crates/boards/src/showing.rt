// How each stone without a mark is taken, on the boards whose judgement is known.
use crate::drawing::board;
use crate::memory::{ENTRY_BEFORE, Lengths, Memory, unwritten_from};
use crate::rows::takes;
use crate::table::{COLOURS, KNOWN_BOARDS};
use capture::showing::show;
use chains::labels::{MAX_POINTS, NO_POINT};
use chains::position::Position;
use grid::refusal::{Lent, Refusal, Untaken};
use std::alloc::Global;
use std::process::Abort;
use std::test::Fail;

// A row is shown, which takes the stone. It has at most as many moves as the board has points, and nothing is written past it.
fn taken(
    rt: &(impl Abort + Alloc<A = Global>),
    position: Position,
    point: usize,
) -> Result<(), Fail> {
    let mut memory = Memory::new();
    let count = show(
        position,
        point,
        &mut memory.chains,
        &mut memory.rooms,
        &mut memory.moves,
    )?;
    assert!(rt; count <= position.size().points() && count <= MAX_POINTS);
    unwritten_from(rt, &memory.moves, count);
    takes(rt, position, point, &memory.moves[0..count])
}

fn refused(rt: &impl Abort, position: Position, point: usize, lent: Lengths, expected: Refusal) {
    let mut memory = Memory::new();
    assert!(rt; lent.chains <= MAX_POINTS && lent.rooms <= MAX_POINTS && lent.moves <= MAX_POINTS);
    let refused = show(
        position,
        point,
        &mut memory.chains[0..lent.chains],
        &mut memory.rooms[0..lent.rooms],
        &mut memory.moves[0..lent.moves],
    );
    assert_eq!(rt; refused.err(), Some(expected));
    memory.untouched(rt);
}

// Every point of a board, and the first number past it.
fn each_point(
    rt: &(impl Abort + Alloc<A = Global>),
    position: Position,
    marked: &[bool; MAX_POINTS],
) -> Result<(), Fail> {
    let count = position.size().points();
    let lent = Lengths::all(count);
    for (point, mark) in marked.iter().enumerate().take(count) {
        if position.at(point).is_none() {
            let expected = Refusal::NotShown(Untaken::NoStone);
            refused(rt, position, point, lent, expected);
        } else if *mark {
            let expected = Refusal::NotShown(Untaken::Marked);
            refused(rt, position, point, lent, expected);
        } else {
            taken(rt, position, point)?;
        }
    }
    refused(
        rt,
        position,
        count,
        lent,
        Refusal::NotShown(Untaken::NoStone),
    );
    Ok(())
}

#[test]
fn all_boards(rt: HostRuntime) -> Result<(), Fail> {
    for colour in COLOURS {
        for known in KNOWN_BOARDS {
            each_point(&rt, known.board(&rt, colour)?, &known.marks(&rt)?)?;
        }
    }
    Ok(())
}

#[test]
fn other_boards(rt: HostRuntime) -> Result<(), Fail> {
    taken(&rt, board(&rt, ".X / .O")?, 1)?;
    taken(&rt, board(&rt, ".O. / O.O / .X.")?, 1)?;
    taken(&rt, board(&rt, "X / .")?, 0)
}

#[test]
fn labels_are_written(rt: HostRuntime) -> Result<(), Fail> {
    let mut chains = [ENTRY_BEFORE; 7];
    let mut rooms = [ENTRY_BEFORE; 7];
    let mut moves = [ENTRY_BEFORE; 7];
    assert!(rt;
        show(
            board(&rt, ".X..O.")?,
            1,
            &mut chains,
            &mut rooms,
            &mut moves
        )
        .is_ok()
    );
    let none = NO_POINT;
    assert_eq!(rt; chains, [none, 1, none, none, 4, none, ENTRY_BEFORE]);
    assert_eq!(rt; rooms, [0, none, 2, 2, 2, 2, ENTRY_BEFORE]);
    Ok(())
}

// Lent memory is looked at before the board, and the board before the stone.
#[test]
fn refusals(rt: HostRuntime) -> Result<(), Fail> {
    let all = Lengths::all(2);
    let chains = Lengths::all(0).with(Lent::Chains, 2);
    let cases: [(&str, usize, Lengths, Refusal); 11] = [
        ("XX", 5, Lengths::all(0), Refusal::TooShort(Lent::Chains)),
        ("XX", 5, chains, Refusal::TooShort(Lent::Rooms)),
        (
            "XX",
            5,
            chains.with(Lent::Rooms, 2),
            Refusal::TooShort(Lent::Moves),
        ),
        (
            "XX",
            0,
            all.with(Lent::Chains, 1),
            Refusal::TooShort(Lent::Chains),
        ),
        (
            "XX",
            0,
            all.with(Lent::Rooms, 1),
            Refusal::TooShort(Lent::Rooms),
        ),
        (
            "XX",
            0,
            all.with(Lent::Moves, 1),
            Refusal::TooShort(Lent::Moves),
        ),
        ("XX", 5, all, Refusal::NoLiberty(0)),
        ("XX", 0, all, Refusal::NoLiberty(0)),
        (".XO", 1, Lengths::all(3), Refusal::NoLiberty(2)),
        ("X.", 1, all, Refusal::NotShown(Untaken::NoStone)),
        ("X.", 2, all, Refusal::NotShown(Untaken::NoStone)),
    ];
    for (drawing, point, lent, expected) in cases {
        refused(&rt, board(&rt, drawing)?, point, lent, expected);
    }
    Ok(())
}
