// The judge called with positions: its marks, what it writes and how it refuses.
use crate::drawing::written;
use crate::memory::{ENTRY_BEFORE, Memory};
use chains::colour::{BLACK_BYTE, Colour};
use chains::labels::{MAX_POINTS, NO_POINT};
use chains::position::Position;
use grid::refusal::{Lent, Refusal};
use judge::judgement::judge;
use std::process::Abort;
use std::test::Fail;

// The marked stones are those that the bytes write.
fn check_marks(
    rt: &impl Abort,
    position: Position,
    colour: Colour,
    marked: &[u8],
) -> Result<(), Fail> {
    let mut memory = Memory::new();
    let marks = judge(position, colour, &mut memory.chains, &mut memory.rooms)?;
    for p in 0..MAX_POINTS {
        assert_eq!(rt; marks.has(p), marked.get(p) == Some(&BLACK_BYTE));
    }
    Ok(())
}

#[test]
fn two_stones_with_two_rooms_each_stay(rt: HostRuntime) -> Result<(), Fail> {
    let position = written(5, 1, b".X.X.")?;
    check_marks(&rt, position, Colour::Black, b".X.X.")?;
    check_marks(&rt, position, Colour::White, b".....")
}

#[test]
fn a_room_of_two_points_is_vital_to_neither(rt: HostRuntime) -> Result<(), Fail> {
    check_marks(&rt, written(6, 1, b".X..X.")?, Colour::Black, b"......")
}

#[test]
fn a_third_round_strikes_the_last_chain(rt: HostRuntime) -> Result<(), Fail> {
    check_marks(&rt, written(6, 1, b".X.X.X")?, Colour::Black, b"......")
}

#[test]
fn both_lent_slices_are_written(rt: HostRuntime) -> Result<(), Fail> {
    let position = written(5, 1, b".X.O.")?;
    let mut chains = [ENTRY_BEFORE; 6];
    let mut rooms = [ENTRY_BEFORE; 6];
    assert!(rt; judge(position, Colour::Black, &mut chains, &mut rooms).is_ok());
    assert_eq!(rt; chains, [NO_POINT, 1, NO_POINT, 3, NO_POINT, ENTRY_BEFORE]);
    assert_eq!(rt; rooms, [0, NO_POINT, 2, 2, 2, ENTRY_BEFORE]);
    Ok(())
}

#[test]
fn refusals_come_in_order_and_change_nothing(rt: HostRuntime) -> Result<(), Fail> {
    let position = written(4, 1, b".XOX")?;
    let mut short = [ENTRY_BEFORE; 3];
    let mut chains = [ENTRY_BEFORE; 4];
    let mut rooms = [ENTRY_BEFORE; 4];
    assert_eq!(rt;
        judge(position, Colour::Black, &mut short, &mut []),
        Err(Refusal::TooShort(Lent::Chains))
    );
    assert_eq!(rt;
        judge(position, Colour::Black, &mut chains, &mut short),
        Err(Refusal::TooShort(Lent::Rooms))
    );
    assert_eq!(rt;
        judge(position, Colour::Black, &mut chains, &mut rooms),
        Err(Refusal::NoLiberty(2))
    );
    assert_eq!(rt; short, [ENTRY_BEFORE; 3]);
    assert_eq!(rt; chains, [ENTRY_BEFORE; 4]);
    assert_eq!(rt; rooms, [ENTRY_BEFORE; 4]);
    Ok(())
}
