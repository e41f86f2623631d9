// Rows of moves that take a stone, played alone and in a record.
use crate::memory::POINT_BEFORE;
use chains::colour::{Colour, EMPTY_BYTE};
use chains::labels::MAX_POINTS;
use chains::position::Position;
use grid::size::Size;
use notation::record::referee_record;
use notation::written::write_board;
use play::stone::play;
use referee::moves::PASS;
use referee::outcome::{Answer, Outcome};
use std::alloc::Global;
use std::process::Abort;
use std::test::Fail;

// The other side plays the moves one after the other, and each is allowed: after the last one the stone is not there. A record in
// which the side of the stone passes in its turns leaves the same board, and it is that side's turn; nothing is written past it.
pub fn takes(
    rt: &(impl Abort + Alloc<A = Global>),
    position: Position,
    point: usize,
    moves: &[u16],
) -> Result<(), Fail> {
    let Some(colour) = position.at(point) else {
        return Err(Fail::new("no stone"));
    };
    let size = position.size();
    let mut left = position.cells();
    let taken = replay(rt, size, &mut left, colour.other(), moves)?;
    assert!(rt; point < MAX_POINTS);
    assert_eq!(rt; left[point], EMPTY_BYTE);
    let bytes = record(rt.alloc(), position, colour, moves)?;
    let mut lent = [POINT_BEFORE; MAX_POINTS];
    let answered = referee_record(&bytes, &mut lent)?;
    assert_eq!(rt; answered.answer, answer(colour, taken));
    let count = size.points();
    assert_eq!(rt; &lent[0..count], &left[0..count]);
    assert!(rt; lent.iter().skip(count).all(|byte| *byte == POINT_BEFORE));
    Ok(())
}

// How many stones the moves take.
fn replay(
    rt: &impl Abort,
    size: Size,
    board: &mut [u8],
    colour: Colour,
    moves: &[u16],
) -> Result<usize, Fail> {
    let mut total = 0;
    for (number, point) in moves.iter().enumerate() {
        let taken = play(size, board, colour, usize::from(*point), number)?;
        assert!(rt; total <= MAX_POINTS && taken <= MAX_POINTS);
        total += taken;
    }
    Ok(total)
}

// The bytes of the record. Black begins: where the stone is black, with a pass.
fn record(
    heap: Global,
    position: Position,
    colour: Colour,
    moves: &[u16],
) -> Result<Vec<u8>, Fail> {
    let mut bytes = write_board(heap, position.size(), &position.cells())?;
    for (number, point) in moves.iter().enumerate() {
        if number > 0 || colour == Colour::Black {
            bytes.extend_from_slice(&PASS.to_le_bytes())?;
        }
        bytes.extend_from_slice(&point.to_le_bytes())?;
    }
    Ok(bytes)
}

// What the referee says of the record.
fn answer(colour: Colour, taken: usize) -> Answer {
    let (black_taken, white_taken) = match colour {
        Colour::Black => (taken, 0),
        Colour::White => (0, taken),
    };
    Answer {
        outcome: Outcome::ToMove(colour),
        passes: 0,
        black_taken,
        white_taken,
    }
}
