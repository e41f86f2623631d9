// Judgements, which show rows of moves without judging again.
use crate::drawing::board;
use crate::memory::{ENTRY_BEFORE, Lengths, Memory, unwritten_from};
use crate::rows::takes;
use capture::judgement::Judgement;
use chains::colour::Colour;
use chains::labels::{MAX_POINTS, NO_POINT};
use chains::position::Position;
use grid::refusal::{Lent, Refusal, Untaken};
use std::process::Abort;
use std::test::Fail;

// The judgement of the black stones. Nothing is written past the board.
fn judged(rt: &impl Abort, position: Position) -> Result<Judgement, Fail> {
    let mut memory = Memory::new();
    let judgement = Judgement::new(
        position,
        Colour::Black,
        &mut memory.chains,
        &mut memory.rooms,
    )?;
    let count = position.size().points();
    assert_eq!(rt; judgement.size().points(), count);
    unwritten_from(rt, &memory.chains, count);
    unwritten_from(rt, &memory.rooms, count);
    Ok(judgement)
}

#[test]
fn one_judgement_shows_many_rows(rt: HostRuntime) -> Result<(), Fail> {
    let position = board(&rt, ".XX...")?;
    let judgement = judged(&rt, position)?;
    let before = ENTRY_BEFORE;
    for point in 1..3 {
        let mut moves = [ENTRY_BEFORE; 6];
        assert!(rt; !judgement.marks().has(point));
        assert_eq!(rt; judgement.row(point, &mut moves), Ok(2));
        assert_eq!(rt; moves, [3, 0, before, before, before, before]);
        takes(&rt, position, point, &moves[0..2])?;
    }
    Ok(())
}

// Lent memory is looked at before the stone.
#[test]
fn rows_are_refused_in_order_and_change_nothing(rt: HostRuntime) -> Result<(), Fail> {
    let cases: [(&str, usize, usize, Refusal); 7] = [
        (".X.XO.", 0, 5, Refusal::TooShort(Lent::Moves)),
        (".X.XO.", 0, 6, Refusal::NotShown(Untaken::NoStone)),
        (".X.XO.", 4, 6, Refusal::NotShown(Untaken::NoStone)),
        (".X.XO.", 6, 6, Refusal::NotShown(Untaken::NoStone)),
        (".X.X.", 1, 4, Refusal::TooShort(Lent::Moves)),
        (".X.X.", 1, 6, Refusal::NotShown(Untaken::Marked)),
        (".X.X.", 3, 5, Refusal::NotShown(Untaken::Marked)),
    ];
    for (drawing, point, lent, expected) in cases {
        let mut memory = Memory::new();
        assert!(rt; lent <= MAX_POINTS);
        let row = judged(&rt, board(&rt, drawing)?)?.row(point, &mut memory.moves[0..lent]);
        assert_eq!(rt; row, Err(expected));
        memory.untouched(&rt);
    }
    assert!(rt; judged(&rt, board(&rt, ".X.X.")?)?.marks().has(1));
    Ok(())
}

fn refused(rt: &impl Abort, position: Position, lent: Lengths, expected: Refusal) {
    let mut memory = Memory::new();
    assert!(rt; lent.chains <= MAX_POINTS && lent.rooms <= MAX_POINTS);
    let refused = Judgement::new(
        position,
        Colour::Black,
        &mut memory.chains[0..lent.chains],
        &mut memory.rooms[0..lent.rooms],
    );
    assert_eq!(rt; refused.err(), Some(expected));
    memory.untouched(rt);
}

#[test]
fn a_judgement_is_refused_as_by_the_judge(rt: HostRuntime) -> Result<(), Fail> {
    let all = Lengths::all(2);
    let cases: [(Lengths, Refusal); 4] = [
        (Lengths::all(1), Refusal::TooShort(Lent::Chains)),
        (all.with(Lent::Chains, 1), Refusal::TooShort(Lent::Chains)),
        (all.with(Lent::Rooms, 1), Refusal::TooShort(Lent::Rooms)),
        (all, Refusal::NoLiberty(0)),
    ];
    for (lent, expected) in cases {
        refused(&rt, board(&rt, "XX")?, lent, expected);
    }
    Ok(())
}

#[test]
fn a_side_without_stones_is_judged(rt: HostRuntime) -> Result<(), Fail> {
    let mut chains = [ENTRY_BEFORE; 2];
    let mut rooms = [ENTRY_BEFORE; 2];
    assert!(rt; Judgement::new(board(&rt, "X.")?, Colour::White, &mut chains, &mut rooms).is_ok());
    assert_eq!(rt; chains, [0, NO_POINT]);
    assert_eq!(rt; rooms, [0, 0]);
    Ok(())
}
