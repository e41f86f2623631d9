//! Judges a board from standard input: prints the marked points of each colour.

#![tactic(auto)]

use chains::colour::Colour;
use grid::refusal::Refusal;
use judge::judgement::Marks;
use notation::board::LENT_POINTS;
use notation::judging::judge_board;
use notation::point_lines::marks_line;
use std::io::Read;
use std::process::ExitCode;

fn main(rt: HostRuntime) -> anyhow::Result<ExitCode> {
    // the same two lines in each program: a function over a closure would require that it may be called
    let mut bytes = Vec::new(rt.alloc());
    rt.stdin().read_to_end(&mut bytes)?;
    for colour in [Colour::Black, Colour::White] {
        match marks(&bytes, colour) {
            Ok(marks) => rt.println(marks_line(rt.alloc(), colour, &marks.entries())?)?,
            Err(refusal) => {
                rt.println(refusal)?;
                return Ok(ExitCode::FAILURE);
            }
        }
    }
    Ok(ExitCode::SUCCESS)
}

/// The marks of the stones of one colour.
fn marks(bytes: &[u8], colour: Colour) -> Result<Marks, Refusal> {
    let mut cells = [0; LENT_POINTS];
    let mut chains = [0; LENT_POINTS];
    let mut rooms = [0; LENT_POINTS];
    let judged = judge_board(bytes, colour, &mut cells, &mut chains, &mut rooms)?;
    Ok(judged.marks)
}
