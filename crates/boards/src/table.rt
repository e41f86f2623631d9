// The boards whose judgement is known.
use crate::drawing::{board, exchanged};
use chains::colour::Colour;
use chains::labels::MAX_POINTS;
use chains::position::Position;
use std::alloc::Global;
use std::process::Abort;
use std::test::Fail;

pub const COLOURS: [Colour; 2] = [Colour::Black, Colour::White];

// How a list without a point is written.
const NONE: &str = "none";

// A board as it is drawn, its bytes and those of the board with its colours exchanged, and the list of its marked stones. These are
// black, and white where the colours are exchanged; no stone of the other colour is marked.
#[derive(Clone, Copy)]
pub struct Known {
    pub drawing: &'static str,
    black: &'static [u8],
    white: &'static [u8],
    pub marked: &'static str,
}

impl Known {
    // The board whose marked stones are of that colour.
    pub fn board(
        self,
        rt: &(impl Abort + Alloc<A = Global>),
        colour: Colour,
    ) -> Result<Position, Fail> {
        let drawn = board(rt, self.drawing)?;
        match colour {
            Colour::Black => Ok(drawn),
            Colour::White => exchanged(drawn),
        }
    }

    // Its bytes.
    pub fn bytes(self, colour: Colour) -> &'static [u8] {
        match colour {
            Colour::Black => self.black,
            Colour::White => self.white,
        }
    }

    // For each point whether it is in the list.
    pub fn marks(self, rt: &impl Abort) -> Result<[bool; MAX_POINTS], Fail> {
        let mut marks = [false; MAX_POINTS];
        if self.marked == NONE {
            return Ok(marks);
        }
        for word in self.marked.split(' ') {
            let point = word.parse::<usize>()?;
            assert!(rt; point < MAX_POINTS);
            marks[point] = true;
        }
        Ok(marks)
    }
}

// The last four catch judges that are nearly right.
pub const KNOWN_BOARDS: [Known; 20] = [
    Known {
        drawing: ".X.X.",
        black: b"\x05\x01.X.X.",
        white: b"\x05\x01.O.O.",
        marked: "1 3",
    },
    Known {
        drawing: ".X..X.",
        black: b"\x06\x01.X..X.",
        white: b"\x06\x01.O..O.",
        marked: "none",
    },
    Known {
        drawing: ".X. / X.X / .X.",
        black: b"\x03\x03.X.X.X.X.",
        white: b"\x03\x03.O.O.O.O.",
        marked: "1 3 5 7",
    },
    Known {
        drawing: ".XX. / X.X. / .XX.",
        black: b"\x04\x03.XX.X.X..XX.",
        white: b"\x04\x03.OO.O.O..OO.",
        marked: "1 2 4 6 9 10",
    },
    Known {
        drawing: ".X.X / XXXX / ....",
        black: b"\x04\x03.X.XXXXX....",
        white: b"\x04\x03.O.OOOOO....",
        marked: "1 3 4 5 6 7",
    },
    Known {
        drawing: "..X / ..X / XXX",
        black: b"\x03\x03..X..XXXX",
        white: b"\x03\x03..O..OOOO",
        marked: "none",
    },
    Known {
        drawing: ".XO / XXO / OO.",
        black: b"\x03\x03.XOXXOOO.",
        white: b"\x03\x03.OXOOXXX.",
        marked: "none",
    },
    Known {
        drawing: ".XX.XO / XX.XXO / .XXXOO / XXOOO.",
        black: b"\x06\x04.XX.XOXX.XXO.XXXOOXXOOO.",
        white: b"\x06\x04.OO.OXOO.OOX.OOOXXOOXXX.",
        marked: "1 2 4 6 7 9 10 13 14 15 18 19",
    },
    Known {
        drawing: "X.XO / .XXO / XXO.",
        black: b"\x04\x03X.XO.XXOXXO.",
        white: b"\x04\x03O.OX.OOXOOX.",
        marked: "0 2 5 6 8 9",
    },
    Known {
        drawing: ".X.. / XXXX / ..X. / ..XX",
        black: b"\x04\x04.X..XXXX..X...XX",
        white: b"\x04\x04.O..OOOO..O...OO",
        marked: "1 4 5 6 7 10 14 15",
    },
    Known {
        drawing: "XX.XX / X.X.X / XX.XX",
        black: b"\x05\x03XX.XXX.X.XXX.XX",
        white: b"\x05\x03OO.OOO.O.OOO.OO",
        marked: "0 1 3 4 5 7 9 10 11 13 14",
    },
    Known {
        drawing: ".O.X. / OOOXX / ...X.",
        black: b"\x05\x03.O.X.OOOXX...X.",
        white: b"\x05\x03.X.O.XXXOO...O.",
        marked: "3 8 9 13",
    },
    Known {
        drawing: ".... / ....",
        black: b"\x04\x02........",
        white: b"\x04\x02........",
        marked: "none",
    },
    Known {
        drawing: "..XX / XXXX / ....",
        black: b"\x04\x03..XXXXXX....",
        white: b"\x04\x03..OOOOOO....",
        marked: "2 3 4 5 6 7",
    },
    Known {
        drawing: "XX.O. / O.O.X / X.OX. / XXX.X",
        black: b"\x05\x04XX.O.O.O.XX.OX.XXX.X",
        white: b"\x05\x04OO.X.X.X.OO.XO.OOO.O",
        marked: "none",
    },
    Known {
        drawing: "XXOO / XXX. / .XXX / OXXX",
        black: b"\x04\x04XXOOXXX..XXXOXXX",
        white: b"\x04\x04OOXXOOO..OOOXOOO",
        marked: "0 1 4 5 6 9 10 11 13 14 15",
    },
    Known {
        drawing: ".X.X.X",
        black: b"\x06\x01.X.X.X",
        white: b"\x06\x01.O.O.O",
        marked: "none",
    },
    Known {
        drawing: ".X.X.X.X",
        black: b"\x08\x01.X.X.X.X",
        white: b"\x08\x01.O.O.O.O",
        marked: "none",
    },
    Known {
        drawing: ".X / O.",
        black: b"\x02\x02.XO.",
        white: b"\x02\x02.OX.",
        marked: "none",
    },
    Known {
        drawing: ".X.OX.",
        black: b"\x06\x01.X.OX.",
        white: b"\x06\x01.O.XO.",
        marked: "none",
    },
];
