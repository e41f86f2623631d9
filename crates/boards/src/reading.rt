//! Boards read from bytes, and each refusal of the reading.

use grid::refusal::{Lent, Refusal, Side};
use grid::size::Size;
use notation::board::read_board;
use notation::lines::{refusal_line, row_line};
use notation::written::{reread, rewrite};
use std::process::Abort;
use std::test::Fail;

// What the lent memory holds before each reading.
const BEFORE: u8 = b'#';

fn refused(rt: &impl Abort, bytes: &[u8], expected: Refusal) {
    let mut lent = [BEFORE; 9];
    let refused = read_board(bytes, &mut lent);
    assert_eq!(rt; refused.err(), Some(expected));
    assert_eq!(rt; lent, [BEFORE; 9]);
}

#[test]
fn sizes(rt: HostRuntime) {
    refused(&rt, b"", Refusal::BadSide(Side::Width));
    refused(&rt, b"\x03", Refusal::BadSide(Side::Height));
    refused(&rt, b"\x00\x03", Refusal::BadSide(Side::Width));
    refused(&rt, b"\x03\x00", Refusal::BadSide(Side::Height));
    refused(&rt, b"\x14\x00", Refusal::BadSide(Side::Width));
    refused(&rt, b"\x01\x14", Refusal::BadSide(Side::Height));
    refused(&rt, b"\x13\x13", Refusal::TooShort(Lent::Points));
    refused(&rt, b"\x13\x01", Refusal::TooShort(Lent::Points));
}

#[test]
fn points(rt: HostRuntime) {
    // too little memory is said before too few points
    refused(&rt, b"\x0a\x01.", Refusal::TooShort(Lent::Points));
    refused(&rt, b"\x02\x02...", Refusal::Count(3));
    refused(&rt, b"\x02\x02.....", Refusal::Count(5));
    refused(&rt, b"\x02\x02", Refusal::Count(0));
    refused(&rt, b"\x02\x02x...", Refusal::BadByte(2));
    refused(&rt, b"\x02\x02...x", Refusal::BadByte(5));
    refused(&rt, b"\x02\x02.\x00.x", Refusal::BadByte(3));
}

#[test]
fn chains_without_a_liberty(rt: HostRuntime) {
    refused(&rt, b"\x02\x01XO", Refusal::NoLiberty(0));
    refused(&rt, b"\x03\x01.XO", Refusal::NoLiberty(2));
    // a byte that is no point is said first
    refused(&rt, b"\x03\x01XO?", Refusal::BadByte(4));
}

#[test]
fn accepted(rt: HostRuntime) -> Result<(), Fail> {
    let mut lent = [BEFORE; 9];
    let size = read_board(b"\x02\x03.X.O..", &mut lent)?;
    assert_eq!(rt; size.width(), 2);
    assert_eq!(rt; size.height(), 3);
    assert_eq!(rt; lent, *b".X.O..###");
    Ok(())
}

#[test]
fn round_trips(rt: HostRuntime) -> Result<(), Fail> {
    let mut lent = [BEFORE; 9];
    let bytes = rewrite(rt.alloc(), b"\x03\x02.X.O.X", &mut lent)?;
    assert_eq!(rt; bytes.as_slice(), b"\x03\x02.X.O.X".as_slice());
    assert_eq!(rt; lent, *b".X.O.X###");
    Ok(())
}

#[test]
fn lines(rt: HostRuntime) -> Result<(), Fail> {
    let mut lent = [BEFORE; 9];
    let size = read_board(b"\x02\x02.XO.", &mut lent)?;
    assert_eq!(rt; row_line(rt.alloc(), size, &lent, 0)?.as_str(), ".X");
    assert_eq!(rt; row_line(rt.alloc(), size, &lent, 1)?.as_str(), "O.");
    assert_eq!(rt; row_line(rt.alloc(), size, &lent, 2)?.as_str(), "");
    assert_eq!(rt;
        refusal_line(rt.alloc(), Refusal::Count(70_000))?.as_str(),
        "refused 2 at 70000"
    );
    assert_eq!(rt;
        refusal_line(rt.alloc(), Refusal::BadSide(Side::Height))?.as_str(),
        "refused 1 at 1"
    );
    assert_eq!(rt;
        refusal_line(rt.alloc(), Refusal::TooShort(Lent::Points))?.as_str(),
        "refused 12 at 0"
    );
    Ok(())
}
