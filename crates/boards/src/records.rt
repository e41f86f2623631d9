// Records run through the referee: the board that is left, and how each ends.
use chains::colour::Colour;
use grid::refusal::Refusal;
use notation::record::referee_record;
use referee::outcome::{Answer, Outcome};
use std::process::Abort;
use std::test::Fail;

// What the lent memory holds before each record.
const BEFORE: u8 = b'#';

// The record's bytes, the points that are left, how it ends, and the passes and taken stones (black, white).
fn refereed(
    rt: &impl Abort,
    bytes: &[u8],
    left: [u8; 12],
    outcome: Outcome,
    (passes, black_taken, white_taken): (usize, usize, usize),
) -> Result<(), Fail> {
    let mut lent = [BEFORE; 12];
    let answered = referee_record(bytes, &mut lent)?;
    let expected = Answer {
        outcome,
        passes,
        black_taken,
        white_taken,
    };
    assert_eq!(rt; answered.answer, expected);
    assert_eq!(rt; lent, left);
    Ok(())
}

#[test]
fn captures(rt: HostRuntime) -> Result<(), Fail> {
    // one stone in the corner
    refereed(
        &rt,
        b"\x03\x02......\x00\x00\x01\x00\x05\x00\x03\x00",
        *b".O.O.X######",
        Outcome::ToMove(Colour::Black),
        (0, 1, 0),
    )?;
    // two chains by one stone
    refereed(
        &rt,
        b"\x03\x01O.O\x01\x00",
        *b".X.#########",
        Outcome::ToMove(Colour::White),
        (0, 0, 2),
    )?;
    // a stone that lives by what it takes
    refereed(
        &rt,
        b"\x04\x01.OX.\x00\x00",
        *b"X.X.########",
        Outcome::ToMove(Colour::White),
        (0, 0, 1),
    )?;
    // snapback: three stones by a stone put where one was taken
    refereed(
        &rt,
        b"\x04\x01..OO\x00\x00\x01\x00\x00\x00",
        *b"X...########",
        Outcome::ToMove(Colour::White),
        (0, 1, 3),
    )?;
    // a long chain
    refereed(
        &rt,
        b"\x05\x01OOOO.\x04\x00",
        *b"....X#######",
        Outcome::ToMove(Colour::White),
        (0, 0, 4),
    )
}

#[test]
fn ko(rt: HostRuntime) -> Result<(), Fail> {
    // refused at once
    refereed(
        &rt,
        b"\x04\x03.XO.X.XO.XO.\xff\xff\x05\x00\x06\x00",
        *b".XO.XO.O.XO.",
        Outcome::Refused(Refusal::Ko(2)),
        (0, 1, 0),
    )?;
    // allowed after a stone elsewhere and its answer
    refereed(
        &rt,
        b"\x04\x03.XO.X.XO.XO.\xff\xff\x05\x00\x00\x00\x03\x00\x06\x00",
        *b"XXOOX.XO.XO.",
        Outcome::ToMove(Colour::White),
        (0, 1, 1),
    )?;
    // allowed after a pass and a stone
    refereed(
        &rt,
        b"\x04\x03.XO.X.XO.XO.\xff\xff\x05\x00\xff\xff\x03\x00\x06\x00",
        *b".XOOX.XO.XO.",
        Outcome::ToMove(Colour::White),
        (0, 1, 1),
    )?;
    // two stones taken and one taken back is no ko
    refereed(
        &rt,
        b"\x05\x01...XX\x01\x00\x02\x00\x03\x00",
        *b".X.X.#######",
        Outcome::ToMove(Colour::White),
        (0, 2, 1),
    )?;
    // on two points
    refereed(
        &rt,
        b"\x02\x01..\x00\x00\x01\x00\x00\x00",
        *b".O##########",
        Outcome::Refused(Refusal::Ko(2)),
        (0, 1, 0),
    )?;
    // nothing to compare with at move 0
    refereed(
        &rt,
        b"\x02\x01.O\x00\x00",
        *b"X.##########",
        Outcome::ToMove(Colour::White),
        (0, 0, 1),
    )
}

#[test]
fn suicide(rt: HostRuntime) -> Result<(), Fail> {
    // one stone
    refereed(
        &rt,
        b"\x03\x01O.O\xff\xff\x01\x00\xff\xff",
        *b"O.O#########",
        Outcome::Refused(Refusal::Suicide(1)),
        (1, 0, 0),
    )?;
    // a stone without a liberty
    refereed(
        &rt,
        b"\x03\x02.X.X..\xff\xff\x00\x00",
        *b".X.X..######",
        Outcome::Refused(Refusal::Suicide(1)),
        (1, 0, 0),
    )?;
    // a chain
    refereed(
        &rt,
        b"\x03\x01.XX\x00\x00",
        *b".XX#########",
        Outcome::Refused(Refusal::Suicide(0)),
        (0, 0, 0),
    )
}

#[test]
fn passes(rt: HostRuntime) -> Result<(), Fail> {
    // none
    refereed(
        &rt,
        b"\x02\x02....",
        *b"....########",
        Outcome::ToMove(Colour::Black),
        (0, 0, 0),
    )?;
    // one
    refereed(
        &rt,
        b"\x02\x02....\xff\xff",
        *b"....########",
        Outcome::ToMove(Colour::White),
        (1, 0, 0),
    )?;
    // two in a row
    refereed(
        &rt,
        b"\x02\x02....\xff\xff\xff\xff",
        *b"....########",
        Outcome::Over,
        (2, 0, 0),
    )?;
    // two with a stone between
    refereed(
        &rt,
        b"\x02\x02....\xff\xff\x00\x00\xff\xff",
        *b"O...########",
        Outcome::ToMove(Colour::White),
        (1, 0, 0),
    )?;
    // and a pass after two
    refereed(
        &rt,
        b"\x02\x02....\xff\xff\xff\xff\xff\xff",
        *b"....########",
        Outcome::Refused(Refusal::AfterEnd(2)),
        (2, 0, 0),
    )?;
    // and a stone after two
    refereed(
        &rt,
        b"\x02\x02....\xff\xff\xff\xff\x00\x00",
        *b"....########",
        Outcome::Refused(Refusal::AfterEnd(2)),
        (2, 0, 0),
    )?;
    // and a point that is not there after two
    refereed(
        &rt,
        b"\x02\x02....\xff\xff\xff\xff\x04\x00",
        *b"....########",
        Outcome::Refused(Refusal::OffBoard(2)),
        (2, 0, 0),
    )?;
    // and a stone onto a stone after two
    refereed(
        &rt,
        b"\x02\x02X...\xff\xff\xff\xff\x00\x00",
        *b"X...########",
        Outcome::Refused(Refusal::Occupied(2)),
        (2, 0, 0),
    )?;
    // and suicide after two
    refereed(
        &rt,
        b"\x03\x02.O.O..\xff\xff\xff\xff\x00\x00",
        *b".O.O..######",
        Outcome::Refused(Refusal::Suicide(2)),
        (2, 0, 0),
    )
}

#[test]
fn refusals(rt: HostRuntime) -> Result<(), Fail> {
    // off the board first
    refereed(
        &rt,
        b"\x02\x02....\x04\x00",
        *b"....########",
        Outcome::Refused(Refusal::OffBoard(0)),
        (0, 0, 0),
    )?;
    // off the board later
    refereed(
        &rt,
        b"\x02\x02....\x00\x00\xff\xff\xfe\xff",
        *b"X...########",
        Outcome::Refused(Refusal::OffBoard(2)),
        (1, 0, 0),
    )?;
    // onto a stone first
    refereed(
        &rt,
        b"\x02\x02O...\x00\x00",
        *b"O...########",
        Outcome::Refused(Refusal::Occupied(0)),
        (0, 0, 0),
    )?;
    // onto a stone later
    refereed(
        &rt,
        b"\x02\x02....\x00\x00\x01\x00\x01\x00",
        *b"XO..########",
        Outcome::Refused(Refusal::Occupied(2)),
        (0, 0, 0),
    )?;
    // suicide first
    refereed(
        &rt,
        b"\x03\x02.O.O..\x00\x00",
        *b".O.O..######",
        Outcome::Refused(Refusal::Suicide(0)),
        (0, 0, 0),
    )?;
    // ko later
    refereed(
        &rt,
        b"\x04\x03.XO.X.XO.XO.\x00\x00\x05\x00\x06\x00",
        *b"XXO.XO.O.XO.",
        Outcome::Refused(Refusal::Ko(2)),
        (0, 1, 0),
    )?;
    // the first of two faults
    refereed(
        &rt,
        b"\x02\x02....\x00\x00\x00\x00\x04\x00",
        *b"X...########",
        Outcome::Refused(Refusal::Occupied(1)),
        (0, 0, 0),
    )
}

// The same six moves over and over, each time taking what the others put: no limit on the number of moves.
#[test]
fn seventy_thousand_moves(rt: HostRuntime) -> Result<(), Fail> {
    let mut bytes = Vec::new(rt.alloc());
    bytes.extend_from_slice(b"\x02\x02....\x00\x00\x01\x00")?;
    for _ in 0..11_700 {
        bytes.extend_from_slice(b"\x02\x00\x03\x00\x00\x00\x02\x00\x00\x00\x01\x00")?;
    }
    let mut lent = [BEFORE; 4];
    let answered = referee_record(&bytes, &mut lent)?;
    assert_eq!(rt; answered.answer.outcome, Outcome::ToMove(Colour::Black));
    assert_eq!(rt; lent, *b"XO..");
    Ok(())
}
