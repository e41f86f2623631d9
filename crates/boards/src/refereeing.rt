// Records refereed on lent boards of one row: ko, passes, and each refusal.
use chains::colour::Colour;
use grid::refusal::{Lent, Refusal};
use grid::size::Size;
use referee::outcome::{Answer, Outcome};
use referee::record::referee;
use std::test::Fail;

fn answer(outcome: Outcome, passes: usize, black_taken: usize, white_taken: usize) -> Answer {
    Answer {
        outcome,
        passes,
        black_taken,
        white_taken,
    }
}

#[test]
fn ko_is_refused(rt: HostRuntime) -> Result<(), Fail> {
    let mut board = *b".OX..";
    let refused = answer(Outcome::Refused(Refusal::Ko(1)), 0, 0, 1);
    assert_eq!(rt;
        referee(Size::try_from((5, 1))?, &mut board, &[0, 0, 1, 0]),
        Ok(refused)
    );
    assert_eq!(rt; board, *b"X.X..");
    Ok(())
}

#[test]
fn ko_is_allowed_after_a_pass_and_a_stone(rt: HostRuntime) -> Result<(), Fail> {
    let mut board = *b".OX..";
    let allowed = answer(Outcome::ToMove(Colour::Black), 0, 1, 1);
    assert_eq!(rt;
        referee(
            Size::try_from((5, 1))?,
            &mut board,
            &[0, 0, 255, 255, 4, 0, 1, 0]
        ),
        Ok(allowed)
    );
    assert_eq!(rt; board, *b".OX.X");
    Ok(())
}

#[test]
fn a_pass_or_a_stone_after_two_passes_is_refused(rt: HostRuntime) -> Result<(), Fail> {
    let mut board = *b".O..";
    let over = answer(Outcome::Over, 2, 0, 0);
    assert_eq!(rt;
        referee(Size::try_from((4, 1))?, &mut board, &[255; 4]),
        Ok(over)
    );
    let refused = answer(Outcome::Refused(Refusal::AfterEnd(2)), 2, 0, 0);
    assert_eq!(rt;
        referee(Size::try_from((4, 1))?, &mut board, &[255; 6]),
        Ok(refused)
    );
    assert_eq!(rt;
        referee(
            Size::try_from((4, 1))?,
            &mut board,
            &[255, 255, 255, 255, 3, 0]
        ),
        Ok(refused)
    );
    let suicide = answer(Outcome::Refused(Refusal::Suicide(2)), 2, 0, 0);
    assert_eq!(rt;
        referee(
            Size::try_from((4, 1))?,
            &mut board,
            &[255, 255, 255, 255, 0, 0]
        ),
        Ok(suicide)
    );
    assert_eq!(rt; board, *b".O..");
    Ok(())
}

#[test]
fn stones_off_the_board_on_stones_and_without_liberty_are_refused(
    rt: HostRuntime,
) -> Result<(), Fail> {
    let mut board = *b".O.?";
    let off_board = answer(Outcome::Refused(Refusal::OffBoard(0)), 0, 0, 0);
    assert_eq!(rt;
        referee(Size::try_from((3, 1))?, &mut board, &[3, 0]),
        Ok(off_board)
    );
    assert_eq!(rt;
        referee(Size::try_from((3, 1))?, &mut board, &[254, 255, 0, 0]),
        Ok(off_board)
    );
    let occupied = answer(Outcome::Refused(Refusal::Occupied(1)), 1, 0, 0);
    assert_eq!(rt;
        referee(Size::try_from((3, 1))?, &mut board, &[255, 255, 1, 0]),
        Ok(occupied)
    );
    let suicide = answer(Outcome::Refused(Refusal::Suicide(0)), 0, 0, 0);
    assert_eq!(rt;
        referee(Size::try_from((3, 1))?, &mut board, &[0, 0]),
        Ok(suicide)
    );
    assert_eq!(rt; board, *b".O.?");
    Ok(())
}

#[test]
fn turns_go_on_after_a_pass(rt: HostRuntime) -> Result<(), Fail> {
    let mut board = *b"...";
    let white = answer(Outcome::ToMove(Colour::White), 1, 0, 0);
    assert_eq!(rt;
        referee(Size::try_from((3, 1))?, &mut board, &[255, 255]),
        Ok(white)
    );
    let black = answer(Outcome::ToMove(Colour::Black), 0, 0, 0);
    assert_eq!(rt;
        referee(Size::try_from((3, 1))?, &mut board, &[255, 255, 1, 0]),
        Ok(black)
    );
    assert_eq!(rt; board, *b".O.");
    Ok(())
}

#[test]
fn refusals_of_the_whole_come_in_order_and_change_nothing(rt: HostRuntime) -> Result<(), Fail> {
    let mut board = *b"XO?";
    assert_eq!(rt;
        referee(Size::try_from((4, 1))?, &mut board, &[0]),
        Err(Refusal::TooShort(Lent::Points))
    );
    assert_eq!(rt;
        referee(Size::try_from((3, 1))?, &mut board, &[0]),
        Err(Refusal::Count(1))
    );
    assert_eq!(rt;
        referee(Size::try_from((3, 1))?, &mut board, &[]),
        Err(Refusal::BadByte(4))
    );
    assert_eq!(rt;
        referee(Size::try_from((2, 1))?, &mut board, &[0, 0]),
        Err(Refusal::NoLiberty(0))
    );
    assert_eq!(rt; board, *b"XO?");
    Ok(())
}
