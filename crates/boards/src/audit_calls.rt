// The auditor called with positions: its verdicts, what it writes and how it refuses.
use crate::auditing::{BLACK, WHITE};
use crate::drawing::written;
use crate::memory::{ENTRY_BEFORE, Memory};
use capture::audit::{Verdict, audit};
use chains::position::Position;
use grid::refusal::{Lent, Refusal};
use std::test::Fail;

fn verdict_on(position: Position, colour: u8, marks: &[u8]) -> Result<Verdict, Refusal> {
    let mut memory = Memory::new();
    audit(
        position,
        colour,
        marks,
        &mut memory.chains,
        &mut memory.rooms,
        &mut memory.moves,
    )
}

#[test]
fn right_marks_are_right(rt: HostRuntime) -> Result<(), Fail> {
    let right = Ok(Verdict::Right);
    let black = written(5, 1, b".X.X.")?;
    let white = written(5, 1, b".O.O.")?;
    let far = written(6, 1, b".X..X.")?;
    assert_eq!(rt; verdict_on(black, BLACK, &[0, 1, 0, 1, 0]), right);
    assert_eq!(rt; verdict_on(black, WHITE, &[0; 5]), right);
    assert_eq!(rt; verdict_on(white, WHITE, &[0, 1, 0, 1, 0]), right);
    assert_eq!(rt; verdict_on(far, BLACK, &[0; 6]), right);
    Ok(())
}

#[test]
fn the_first_wrong_point_is_named(rt: HostRuntime) -> Result<(), Fail> {
    let position = written(5, 1, b".X.X.")?;
    assert_eq!(rt;
        verdict_on(position, BLACK, &[0; 5]),
        Ok(Verdict::Missing(1))
    );
    assert_eq!(rt;
        verdict_on(position, BLACK, &[0, 1, 0, 0, 0]),
        Ok(Verdict::Missing(3))
    );
    assert_eq!(rt;
        verdict_on(position, BLACK, &[0, 1, 1, 0, 1]),
        Ok(Verdict::NoStone(2))
    );
    assert_eq!(rt;
        verdict_on(position, WHITE, &[0, 1, 0, 0, 0]),
        Ok(Verdict::NoStone(1))
    );
    Ok(())
}

#[test]
fn a_mark_too_many_has_its_row(rt: HostRuntime) -> Result<(), Fail> {
    let mut chains = [ENTRY_BEFORE; 6];
    let mut rooms = [ENTRY_BEFORE; 6];
    let mut moves = [ENTRY_BEFORE; 6];
    let verdict = audit(
        written(6, 1, b".X..X.")?,
        BLACK,
        &[0, 1, 0, 0, 1, 0],
        &mut chains,
        &mut rooms,
        &mut moves,
    );
    let none = ENTRY_BEFORE;
    assert_eq!(rt; verdict, Ok(Verdict::TooMany { point: 1, moves: 2 }));
    assert_eq!(rt; moves, [2, 0, none, none, none, none]);
    Ok(())
}

#[test]
fn refusals_come_in_order_and_change_nothing(rt: HostRuntime) -> Result<(), Fail> {
    let position = written(2, 1, b"X.")?;
    let full = written(2, 1, b"XX")?;
    assert_eq!(rt; verdict_on(full, 2, &[2]), Err(Refusal::NoLiberty(0)));
    assert_eq!(rt; verdict_on(position, 2, &[2]), Err(Refusal::BadMarks(0)));
    assert_eq!(rt;
        verdict_on(position, BLACK, &[2]),
        Err(Refusal::BadMarks(1))
    );
    assert_eq!(rt;
        verdict_on(position, BLACK, &[0, 0, 2]),
        Err(Refusal::BadMarks(3))
    );
    assert_eq!(rt;
        verdict_on(position, BLACK, &[0, 2]),
        Err(Refusal::BadMarks(1))
    );
    let mut chains = [ENTRY_BEFORE; 2];
    let mut rooms = [ENTRY_BEFORE; 2];
    let mut moves = [ENTRY_BEFORE; 1];
    assert_eq!(rt;
        audit(position, 2, &[2], &mut chains, &mut rooms, &mut moves),
        Err(Refusal::TooShort(Lent::Moves))
    );
    assert_eq!(rt; chains, [ENTRY_BEFORE; 2]);
    assert_eq!(rt; rooms, [ENTRY_BEFORE; 2]);
    assert_eq!(rt; moves, [ENTRY_BEFORE; 1]);
    Ok(())
}
