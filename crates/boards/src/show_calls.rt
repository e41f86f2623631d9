// Rows of moves asked for with positions, and how the call refuses.
use crate::drawing::written;
use crate::memory::{ENTRY_BEFORE, Memory};
use capture::showing::show;
use chains::colour::Colour;
use chains::labels::{MAX_POINTS, NO_POINT};
use chains::position::Position;
use grid::refusal::{Lent, Refusal, Untaken};
use grid::size::Size;
use play::stone::play;
use std::process::Abort;
use std::test::Fail;

// Plays the moves one after the other: each is allowed.
fn replay(rt: &impl Abort, size: Size, cells: &mut [u8], colour: Colour, moves: &[u16]) {
    for (k, point) in moves.iter().enumerate() {
        assert!(rt; play(size, cells, colour, *point as usize, k).is_ok());
    }
}

// Shows the row and plays it on the board: the stone is gone after the last move, and nothing is written past the row.
fn check_taken(
    rt: &impl Abort,
    position: Position,
    colour: Colour,
    point: usize,
) -> Result<(), Fail> {
    let mut memory = Memory::new();
    let count = show(
        position,
        point,
        &mut memory.chains,
        &mut memory.rooms,
        &mut memory.moves,
    )?;
    let size = position.size();
    assert!(rt; count <= size.points() && count <= MAX_POINTS);
    for entry in &memory.moves[count..] {
        assert_eq!(rt; *entry, ENTRY_BEFORE);
    }
    let mut cells = position.cells();
    replay(
        rt,
        size,
        &mut cells,
        colour.other(),
        &memory.moves[0..count],
    );
    assert_eq!(rt; position.at(point), Some(colour));
    assert_eq!(rt; Position::new(size, &cells)?.at(point), None);
    Ok(())
}

// The call refuses, and nothing that was lent is written.
fn check_refused(rt: &impl Abort, position: Position, point: usize, expected: Refusal) {
    let mut memory = Memory::new();
    let shown = show(
        position,
        point,
        &mut memory.chains,
        &mut memory.rooms,
        &mut memory.moves,
    );
    assert_eq!(rt; shown, Err(expected));
    assert_eq!(rt; memory.chains, [ENTRY_BEFORE; MAX_POINTS]);
    assert_eq!(rt; memory.rooms, [ENTRY_BEFORE; MAX_POINTS]);
    assert_eq!(rt; memory.moves, [ENTRY_BEFORE; MAX_POINTS]);
}

#[test]
fn stones_without_a_mark_are_taken(rt: HostRuntime) -> Result<(), Fail> {
    check_taken(&rt, written(6, 1, b".X..X.")?, Colour::Black, 1)?;
    check_taken(&rt, written(6, 1, b".X..X.")?, Colour::Black, 4)?;
    check_taken(&rt, written(6, 1, b".X.X.X")?, Colour::Black, 1)?;
    check_taken(&rt, written(6, 1, b".X.X.X")?, Colour::Black, 3)?;
    check_taken(&rt, written(2, 2, b".X.O")?, Colour::Black, 1)?;
    check_taken(&rt, written(3, 3, b".O.O.O.X.")?, Colour::White, 1)?;
    check_taken(&rt, written(1, 2, b"X.")?, Colour::Black, 0)
}

#[test]
fn labels_are_written(rt: HostRuntime) -> Result<(), Fail> {
    let mut chains = [ENTRY_BEFORE; 7];
    let mut rooms = [ENTRY_BEFORE; 7];
    let mut moves = [ENTRY_BEFORE; 7];
    let position = written(6, 1, b".X..O.")?;
    assert!(rt; show(position, 1, &mut chains, &mut rooms, &mut moves).is_ok());
    let none = NO_POINT;
    assert_eq!(rt; chains, [none, 1, none, none, 4, none, ENTRY_BEFORE]);
    assert_eq!(rt; rooms, [0, none, 2, 2, 2, 2, ENTRY_BEFORE]);
    Ok(())
}

#[test]
fn marked_stones_and_empty_points_are_refused(rt: HostRuntime) -> Result<(), Fail> {
    let position = written(5, 1, b".X.X.")?;
    check_refused(&rt, position, 1, Refusal::NotShown(Untaken::Marked));
    check_refused(&rt, position, 3, Refusal::NotShown(Untaken::Marked));
    check_refused(&rt, position, 0, Refusal::NotShown(Untaken::NoStone));
    check_refused(&rt, position, 5, Refusal::NotShown(Untaken::NoStone));
    check_refused(&rt, written(2, 1, b"XX")?, 5, Refusal::NoLiberty(0));
    Ok(())
}

#[test]
fn short_memory_is_refused_first(rt: HostRuntime) -> Result<(), Fail> {
    let position = written(2, 1, b"XX")?;
    let mut short = [ENTRY_BEFORE; 1];
    let mut chains = [ENTRY_BEFORE; 2];
    let mut rooms = [ENTRY_BEFORE; 2];
    let mut moves = [ENTRY_BEFORE; 1];
    assert_eq!(rt;
        show(position, 5, &mut short, &mut rooms, &mut moves),
        Err(Refusal::TooShort(Lent::Chains))
    );
    assert_eq!(rt;
        show(position, 5, &mut chains, &mut short, &mut moves),
        Err(Refusal::TooShort(Lent::Rooms))
    );
    assert_eq!(rt;
        show(position, 5, &mut chains, &mut rooms, &mut short),
        Err(Refusal::TooShort(Lent::Moves))
    );
    assert_eq!(rt; short, [ENTRY_BEFORE]);
    assert_eq!(rt; chains, [ENTRY_BEFORE; 2]);
    assert_eq!(rt; rooms, [ENTRY_BEFORE; 2]);
    Ok(())
}
