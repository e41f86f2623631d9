// Bytes and lent memory that are refused alike whatever is asked of the board.
use crate::memory::Lengths;
use grid::refusal::{Lent, Refusal, Side};

#[derive(Clone, Copy)]
pub struct Faulty {
    pub bytes: &'static [u8],
    pub lent: Lengths,
    pub refusal: Refusal,
}

fn entry(bytes: &'static [u8], lent: Lengths, refusal: Refusal) -> Faulty {
    Faulty {
        bytes,
        lent,
        refusal,
    }
}

// Most have several faults: the one that comes first in the list is said. The size is looked at before lent memory, and that before
// the points are counted.
pub fn faulty_bytes() -> [Faulty; 18] {
    let all = Lengths::all(5);
    let points = Lengths::all(4).with(Lent::Points, 5);
    let chains = points.with(Lent::Chains, 5);
    let rooms = chains.with(Lent::Rooms, 5);
    [
        entry(b"", Lengths::all(0), Refusal::BadSide(Side::Width)),
        entry(b"\x14\x00", Lengths::all(0), Refusal::BadSide(Side::Width)),
        entry(b"\x05", Lengths::all(0), Refusal::BadSide(Side::Height)),
        entry(b"\x05\x00", Lengths::all(0), Refusal::BadSide(Side::Height)),
        entry(
            b"\x05\x01",
            Lengths::all(4),
            Refusal::TooShort(Lent::Points),
        ),
        entry(b"\x05\x01", points, Refusal::TooShort(Lent::Chains)),
        entry(b"\x05\x01", chains, Refusal::TooShort(Lent::Rooms)),
        entry(b"\x05\x01", rooms, Refusal::TooShort(Lent::Moves)),
        entry(
            b"\x05\x01",
            all.with(Lent::Points, 4),
            Refusal::TooShort(Lent::Points),
        ),
        entry(
            b"\x05\x01",
            all.with(Lent::Chains, 4),
            Refusal::TooShort(Lent::Chains),
        ),
        entry(
            b"\x05\x01",
            all.with(Lent::Rooms, 4),
            Refusal::TooShort(Lent::Rooms),
        ),
        entry(b"\x05\x01XX?", all, Refusal::Count(3)),
        entry(b"\x05\x01XXXXX?", all, Refusal::Count(6)),
        entry(b"\x05\x01?XXXX", all, Refusal::BadByte(2)),
        entry(b"\x05\x01XXXX?", all, Refusal::BadByte(6)),
        entry(b"\x05\x01XXXXX", all, Refusal::NoLiberty(0)),
        entry(b"\x02\x01XX", Lengths::all(2), Refusal::NoLiberty(0)),
        entry(b"\x05\x01..XOX", all, Refusal::NoLiberty(3)),
    ]
}
