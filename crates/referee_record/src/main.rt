//! Referees a record from standard input: prints the last board, a line a row, and how the record ends.

#![tactic(auto)]

use notation::board::LENT_POINTS;
use notation::lines::row_line;
use notation::record::referee_record;
use std::io::Read;
use std::process::ExitCode;

fn main(rt: HostRuntime) -> anyhow::Result<ExitCode> {
    // the same two lines in each program: a function over a closure would require that it may be called
    let mut bytes = Vec::new(rt.alloc());
    rt.stdin().read_to_end(&mut bytes)?;
    let mut cells = [0; LENT_POINTS];
    match referee_record(&bytes, &mut cells) {
        Ok(answered) => {
            // a row by its number, as `row_line` takes it
            for row in 0..answered.size.height() {
                rt.println(row_line(rt.alloc(), answered.size, &cells, row)?)?;
            }
            rt.println(answered.answer.outcome)?;
            Ok(ExitCode::SUCCESS)
        }
        Err(refusal) => {
            rt.println(refusal)?;
            Ok(ExitCode::FAILURE)
        }
    }
}
