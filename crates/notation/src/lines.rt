//! The lines that the programs print.

ghost use Rattle.std.specs.Prelude.{◌≡◌, ◌*◌, [], take, drop, IfOk, if◌then◌else◌, string_bytes, nat_lt};
ghost use Rattle.grid.specs.Refusals.{refusal_text};
ghost use Rattle.referee.specs.Outcomes.{outcome_text};
ghost use Rattle.notation.specs.Lines.{shown, row_text, counts_text};

use chains::colour::is_point;
use grid::refusal::Refusal;
use grid::size::Size;
use referee::outcome::Outcome;
use std::alloc::{AllocError, Global};

/// A row of the board, as its points are written.
pub fn row_line(heap: Global, size: Size, cells: &[u8], row: usize) -> Result<String, AllocError>
    ensures { IfOk result (λ text. string_bytes text ≡ row_text size.width size.height cells.now row) }
{
    row_of(size, cells, row)
        .iter()
        .map(|byte| shown(*byte))
        .collect(heap)
}

/// A refusal by its number and place.
pub fn refusal_line(heap: Global, refusal: Refusal) -> Result<String, AllocError>
    ensures { IfOk result (λ text. string_bytes text ≡ refusal_text refusal) }
{
    format!(in heap; "{refusal}")
}

/// The part of the points that is that row; none where the row is not there.
fn row_of(size: Size, cells: &[u8], row: usize) -> &[u8]
    ensures { result.now ≡ (if nat_lt row size.height then take size.width (drop (row * size.width) cells.now) else []) }
{
    if row >= size.height() {
        return &[];
    }
    let rest = cells.get(row * size.width()..).unwrap_or(&[]);
    rest.get(0..size.width()).unwrap_or(rest)
}

fn shown(byte: u8) -> char
    ensures { result ≡ shown byte }
{
    if is_point(byte) { byte as char } else { '?' }
}

/// How a record ends.
pub fn outcome_line(heap: Global, outcome: Outcome) -> Result<String, AllocError>
    ensures { IfOk result (λ text. string_bytes text ≡ outcome_text outcome) }
{
    format!(in heap; "{outcome}")
}

/// How many stones of each colour are marked.
pub fn counts_line(heap: Global, black: usize, white: usize) -> Result<String, AllocError>
    ensures { IfOk result (λ text. string_bytes text ≡ counts_text black white) }
{
    format!(in heap; "X {black} O {white}")
}
