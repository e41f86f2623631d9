// Stones played on lent boards: what they take, and each refusal.
use chains::colour::Colour;
use grid::refusal::{Lent, Refusal};
use grid::size::Size;
use play::stone::play;
use std::test::Fail;

#[test]
fn a_stone_takes_one_chain(rt: HostRuntime) -> Result<(), Fail> {
    let mut board = *b".XOO.?";
    assert_eq!(rt;
        play(Size::try_from((5, 1))?, &mut board, Colour::Black, 4, 0),
        Ok(2)
    );
    assert_eq!(rt; board, *b".X..X?");
    Ok(())
}

#[test]
fn a_stone_takes_several_chains(rt: HostRuntime) -> Result<(), Fail> {
    let mut board = *b".XO.OOX.";
    assert_eq!(rt;
        play(Size::try_from((8, 1))?, &mut board, Colour::Black, 3, 0),
        Ok(3)
    );
    assert_eq!(rt; board, *b".X.X..X.");
    Ok(())
}

#[test]
fn a_stone_may_breathe_by_what_it_takes(rt: HostRuntime) -> Result<(), Fail> {
    let mut board = *b".XO.XXO.OOO.....";
    assert_eq!(rt;
        play(Size::try_from((4, 4))?, &mut board, Colour::White, 0, 3),
        Ok(3)
    );
    assert_eq!(rt; board, *b"O.O...O.OOO.....");
    Ok(())
}

#[test]
fn a_stone_without_breath_is_refused(rt: HostRuntime) -> Result<(), Fail> {
    let mut board = *b".X.X..?";
    assert_eq!(rt;
        play(Size::try_from((3, 2))?, &mut board, Colour::White, 0, 7),
        Err(Refusal::Suicide(7))
    );
    assert_eq!(rt; board, *b".X.X..?");
    Ok(())
}

#[test]
fn the_smallest_board_takes_no_stone(rt: HostRuntime) -> Result<(), Fail> {
    let mut board = *b".X";
    assert_eq!(rt;
        play(Size::try_from((1, 1))?, &mut board, Colour::Black, 0, 0),
        Err(Refusal::Suicide(0))
    );
    assert_eq!(rt; board, *b".X");
    Ok(())
}

#[test]
fn a_stone_takes_along_a_column(rt: HostRuntime) -> Result<(), Fail> {
    let mut board = *b"XXXXXXXXXXXXXXXXXX.";
    assert_eq!(rt;
        play(Size::try_from((1, 19))?, &mut board, Colour::White, 18, 2),
        Ok(18)
    );
    assert_eq!(rt; board, *b"..................O");
    Ok(())
}

#[test]
fn refusals_come_in_order_and_change_nothing(rt: HostRuntime) -> Result<(), Fail> {
    let size = Size::try_from((2, 2))?;
    let mut short = *b"X?.";
    assert_eq!(rt;
        play(size, &mut short, Colour::Black, 4, 9),
        Err(Refusal::TooShort(Lent::Points))
    );
    assert_eq!(rt; short, *b"X?.");
    let mut bad = *b"X.?x";
    assert_eq!(rt;
        play(size, &mut bad, Colour::Black, 4, 9),
        Err(Refusal::BadByte(4))
    );
    assert_eq!(rt; bad, *b"X.?x");
    let mut board = *b"X.O.";
    assert_eq!(rt;
        play(size, &mut board, Colour::Black, 4, 9),
        Err(Refusal::OffBoard(9))
    );
    assert_eq!(rt;
        play(size, &mut board, Colour::White, 0, 8),
        Err(Refusal::Occupied(8))
    );
    assert_eq!(rt; board, *b"X.O.");
    Ok(())
}
