// Boards as they are drawn: rows from above, divided by a stroke.
use chains::colour::Colour;
use chains::position::Position;
use grid::size::Size;
use std::alloc::Global;
use std::process::Abort;
use std::test::Fail;

const STROKE: u8 = b'/';

const BLANK: u8 = b' ';

// The position that a drawing shows.
pub fn board(rt: &(impl Abort + Alloc<A = Global>), drawing: &str) -> Result<Position, Fail> {
    let rows = drawing.split('/').count();
    assert!(rt; rows > 0);
    let points: Vec<u8> = drawing
        .bytes()
        .filter(|byte| *byte != STROKE && *byte != BLANK)
        .collect(rt.alloc())?;
    let width = points.len() / rows;
    let size = Size::try_from((u8::try_from(width)?, u8::try_from(rows)?))?;
    assert_eq!(rt; size.points(), points.len());
    Ok(Position::new(size, &points)?)
}

// A board from its width, its height and the bytes of its points.
pub fn written(width: u8, height: u8, bytes: &[u8]) -> Result<Position, Fail> {
    Ok(Position::new(Size::try_from((width, height))?, bytes)?)
}

// The same board with the colours exchanged.
pub fn exchanged(position: Position) -> Result<Position, Fail> {
    let points = position.cells().map(exchange);
    Ok(Position::new(position.size(), &points)?)
}

fn exchange(byte: u8) -> u8 {
    match Colour::of_byte(byte) {
        Some(colour) => colour.other().byte(),
        None => byte,
    }
}
