// Positions: their chains, which of them breathe, and each refusal.
use crate::drawing::written;
use chains::colour::{BLACK_BYTE, Colour, EMPTY_BYTE};
use chains::labels::{MAX_POINTS, NO_POINT, label};
use chains::position::Position;
use grid::refusal::{Lent, Refusal};
use grid::size::Size;
use std::test::Fail;

const SIDE: usize = 19;

fn refused(width: u8, height: u8, bytes: &[u8]) -> Result<Refusal, Fail> {
    match Position::new(Size::try_from((width, height))?, bytes) {
        Ok(_) => Err(Fail::new("a board")),
        Err(refusal) => Ok(refusal),
    }
}

#[test]
fn chains_of_both_colours_are_labelled(rt: HostRuntime) -> Result<(), Fail> {
    let position = written(3, 2, b"XXO.XO")?;
    let mut labels = [7; 7];
    assert!(rt; position.chains(&mut labels).is_ok());
    assert_eq!(rt; labels, [0, 0, 2, NO_POINT, 0, 2, 7]);
    assert_eq!(rt; position.at(2), Some(Colour::White));
    assert_eq!(rt; position.at(3), None);
    assert_eq!(rt; position.at(6), None);
    Ok(())
}

// A chain that goes to and fro over every other row.
fn snake() -> [u8; MAX_POINTS] {
    std::array::from_fn(|p| {
        let (row, column) = (p / SIDE, p % SIDE);
        let turn = if row % 4 == 1 { SIDE - 1 } else { 0 };
        if row % 2 == 0 || column == turn {
            BLACK_BYTE
        } else {
            EMPTY_BYTE
        }
    })
}

#[test]
fn a_snake_is_one_chain(rt: HostRuntime) -> Result<(), Fail> {
    let cells = snake();
    let position = written(19, 19, &cells)?;
    let mut labels = [0; MAX_POINTS];
    assert!(rt; position.chains(&mut labels).is_ok());
    for (label, cell) in labels.iter().zip(&cells) {
        assert_eq!(rt; *label, if *cell == BLACK_BYTE { 0 } else { NO_POINT });
    }
    assert_eq!(rt; position.first_breathless(), None);
    Ok(())
}

#[test]
fn the_smallest_and_longest_boards_are_labelled(rt: HostRuntime) -> Result<(), Fail> {
    let stones = [BLACK_BYTE; MAX_POINTS];
    let mut labels = [NO_POINT; MAX_POINTS];
    let one = written(1, 1, &stones)?;
    assert!(rt; one.chains(&mut labels).is_ok());
    assert_eq!(rt; labels[0], 0);
    assert_eq!(rt; labels[1], NO_POINT);
    assert_eq!(rt; one.first_breathless(), Some(0));
    let row = written(19, 1, &stones)?;
    assert!(rt; row.chains(&mut labels).is_ok());
    assert_eq!(rt; labels[18], 0);
    assert_eq!(rt; labels[19], NO_POINT);
    let column = written(1, 19, &stones)?;
    assert!(rt; column.chains(&mut labels).is_ok());
    assert_eq!(rt; labels[18], 0);
    assert_eq!(rt; labels[19], NO_POINT);
    Ok(())
}

#[test]
fn the_first_breathless_stone_is_named(rt: HostRuntime) -> Result<(), Fail> {
    let position = written(4, 1, b".XOX")?;
    assert!(rt; position.breathes(1));
    assert!(rt; !position.breathes(0));
    assert!(rt; !position.breathes(2));
    assert!(rt; !position.breathes(4));
    assert_eq!(rt; position.first_breathless(), Some(2));
    assert_eq!(rt; position.stands(), Err(Refusal::NoLiberty(2)));
    Ok(())
}

// Any classes can be labelled, not only the bytes of a board.
#[test]
fn classes_are_labelled(rt: HostRuntime) -> Result<(), Fail> {
    let size = Size::try_from((4, 1))?;
    let mut labels = [7; 4];
    assert!(rt; label(size, &[1, 1, 2], 2, &mut labels).is_err());
    assert_eq!(rt; labels, [7; 4]);
    assert!(rt; label(size, &[1, 1, 2, 1], 2, &mut labels).is_ok());
    assert_eq!(rt; labels, [0, 0, NO_POINT, 3]);
    Ok(())
}

#[test]
fn refusals_come_in_order_and_change_nothing(rt: HostRuntime) -> Result<(), Fail> {
    assert_eq!(rt; refused(2, 2, b"X?.")?, Refusal::TooShort(Lent::Points));
    assert_eq!(rt; refused(2, 2, b"X.?x")?, Refusal::BadByte(4));
    let position = written(2, 2, b"X.O.?")?;
    let mut labels = [7; 3];
    assert_eq!(rt;
        position.chains(&mut labels),
        Err(Refusal::TooShort(Lent::Chains))
    );
    assert_eq!(rt; labels, [7; 3]);
    assert_eq!(rt; position.stands(), Ok(()));
    Ok(())
}
