//! Judges boards from standard input, one after another: prints a line a board, how many stones of each colour are marked.
//! The first board that is refused is the last line.

#![tactic(auto)]

use chains::colour::Colour;
use chains::labels::MAX_POINTS;
use grid::refusal::Refusal;
use notation::board::board_length;
use notation::judging::{judge_board, marked_stones};
use notation::lines::counts_line;
use std::io::Read;
use std::process::ExitCode;

fn main(rt: HostRuntime) -> anyhow::Result<ExitCode> {
    // the same two lines in each program: a function over a closure would require that it may be called
    let mut bytes = Vec::new(rt.alloc());
    rt.stdin().read_to_end(&mut bytes)?;
    let mut rest = bytes.as_slice();
    while !rest.is_empty() {
        let (board, after) = rest.split_at(board_length(rest));
        match counts(board) {
            Ok((black, white)) => rt.println(counts_line(rt.alloc(), black, white)?)?,
            Err(refusal) => {
                rt.println(refusal)?;
                return Ok(ExitCode::FAILURE);
            }
        }
        rest = after;
    }
    Ok(ExitCode::SUCCESS)
}

/// How many stones of black and of white are marked.
fn counts(board: &[u8]) -> Result<(usize, usize), Refusal> {
    let mut cells = [0; MAX_POINTS];
    let mut chains = [0; MAX_POINTS];
    let mut rooms = [0; MAX_POINTS];
    let black = judge_board(board, Colour::Black, &mut cells, &mut chains, &mut rooms)?;
    let white = judge_board(board, Colour::White, &mut cells, &mut chains, &mut rooms)?;
    Ok((marked_stones(black.marks), marked_stones(white.marks)))
}
