//! Which chains breathe: every empty point marks the chains of the stones beside it.

ghost use Rattle.std.specs.Prelude.{◌≡◌, ℕ, ◌-◌, ◌<◌, ◌≤◌, true, false, not, ◌&&◌, length, Some, None, nat_lt, slice_index, slice_index_or};
ghost use Rattle.std.specs.List.{find, range_with_len};
ghost use Rattle.chains.specs.Breath.{first_breathless, FromStart, BreathesAt, BreathlessFrom, FirstBreathless};
ghost use Rattle.chains.specs.Marks.{MarkedBeside, MarkedBelow, stone_mark, BreathMarks};
ghost use Rattle.chains.specs.Sized.{count_of, near_of, seen};
ghost use Rattle.chains.specs.Stands.{Stands};
ghost use Rattle.chains.specs.Views.{is_stone};

use crate::colour::{Colour, EMPTY_BYTE, is_stone};
use crate::labels::{MAX_POINTS, NO_POINT, label_points};
use grid::size::Size;

/// The stones of a board, and the chain of each by its label, which is a point.
#[derive(Clone, Copy)]
struct Labels<'a> {
    size: Size,
    cells: &'a [u8],
    labels: &'a [u16],
    ghost celled: { count_of size ≤ length cells.now },
    ghost labelled: { count_of size ≤ length labels.now },
    ghost inside: { (q : ℕ) → q < count_of size → is_stone (slice_index cells.now q) ≡ true → slice_index labels.now q < count_of size },
}

impl Labels<'_> {
    /// Marks the labels of the stones beside p.
    fn mark_beside(&self, p: usize, marks: &mut [bool; MAX_POINTS])
        ensures { MarkedBeside (near_of self.now.size) self.now.cells.now self.now.labels.now p marks.old marks.new }
    {
        for q in self.size.neighbours(p) {
            if is_stone(self.cells[q]) {
                marks[self.labels[q] as usize] = true;
            }
        }
    }

    /// Marks the labels of all stones beside empty points.
    fn mark_chains(&self, marks: &mut [bool; MAX_POINTS])
        requires { (q : ℕ) → slice_index_or marks.old q false ≡ false }
        ensures { MarkedBelow (near_of self.now.size) self.now.cells.now self.now.labels.now (count_of self.now.size) marks.new }
    {
        // by number: the neighbours of the point are marked
        for p in 0..self.size.points() {
            if !is_stone(self.cells[p]) {
                self.mark_beside(p, marks);
            }
        }
    }

    /// Whether a stone stands on each point whose label is marked.
    fn mark_stones(&self, chains: &[bool; MAX_POINTS]) -> [bool; MAX_POINTS]
        ensures { (p : ℕ) → slice_index_or result p false ≡ stone_mark (count_of self.now.size) self.now.cells.now self.now.labels.now chains.now p }
    {
        // not `from_fn`, which works out all 361 entries on the smallest board too
        let mut marks = [false; MAX_POINTS];
        for p in 0..self.size.points() {
            marks[p] = self.is_marked(p, chains);
        }
        marks
    }

    /// Whether a stone stands at p whose label is marked.
    fn is_marked(&self, p: usize, chains: &[bool; MAX_POINTS]) -> bool
        ensures { result ≡ stone_mark (count_of self.now.size) self.now.cells.now self.now.labels.now chains.now p }
    {
        self.has_stone(p) && chains[self.labels[p] as usize]
    }

    /// Whether a stone stands at p.
    fn has_stone(&self, p: usize) -> bool
        ensures { result ≡ (nat_lt p (count_of self.now.size) && is_stone (slice_index self.now.cells.now p)) }
    {
        p < self.size.points() && is_stone(self.cells[p])
    }
}

/// For each point whether a stone stands there whose chain breathes.
// Over any bytes and not a `Position`, as `breathing_stones` is.
pub(crate) fn breath(size: Size, cells: &[u8]) -> [bool; MAX_POINTS]
    requires { count_of size ≤ length cells.now }
    ensures { (colour : Colour) → BreathMarks (near_of size) (seen size cells.now colour) result }
{
    let mut chains = [NO_POINT; MAX_POINTS];
    let mut marks = [false; MAX_POINTS];
    label_points(size, cells, EMPTY_BYTE, &mut chains);
    let labels = Labels {
        size,
        cells,
        labels: &chains,
    };
    labels.mark_chains(&mut marks);
    labels.mark_stones(&marks)
}

/// For each point whether a stone stands there whose chain breathes; none where the cells do not reach over the board.
pub fn breathing_stones(size: Size, cells: &[u8]) -> Option<[bool; MAX_POINTS]>
    ensures { elim result [
      | Some marks ↦ (count_of size ≤ length cells.now) × ((colour : Colour) → BreathMarks (near_of size) (seen size cells.now colour) marks)
      | None ↦ length cells.now < count_of size
    ] }
{
    if cells.len() < size.points() {
        return None;
    }
    Some(breath(size, cells))
}

/// Whether a stone stands at p whose chain breathes.
pub(crate) fn breath_at(size: Size, cells: &[u8], p: usize) -> bool
    requires { count_of size ≤ length cells.now }
    ensures { (colour : Colour) → BreathesAt (near_of size) (seen size cells.now colour) p result }
{
    let marks = breath(size, cells);
    p < MAX_POINTS && marks[p]
}

/// The first point from `from` on whose stone does not breathe.
pub(crate) fn breathless_from(size: Size, cells: &[u8], from: usize) -> Option<usize>
    requires { count_of size ≤ length cells.now }
    ensures next { elim result [
      | Some p ↦ (p < count_of size) × ((colour : Colour) → BreathlessFrom (count_of size) (near_of size) (seen size cells.now colour) from p)
      | None ↦ (colour : Colour) → BreathlessFrom (count_of size) (near_of size) (seen size cells.now colour) from (count_of size)
    ] }
    ensures found { elim result [
      | Some p ↦ FromStart from ((colour : Colour) → FirstBreathless (near_of size) (seen size cells.now colour) p)
      | None ↦ FromStart from ((colour : Colour) → Stands size.width size.height (seen size cells.now colour))
    ] }
    ensures value { elim result [
      | Some p ↦ FromStart from ((p < count_of size) × ((colour : Colour) → first_breathless (count_of size) (near_of size) (seen size cells.now colour) ≡ p))
      | None ↦ FromStart from ((colour : Colour) → first_breathless (count_of size) (near_of size) (seen size cells.now colour) ≡ count_of size)
    ] }
{
    let marks = breath(size, cells);
    unmarked_from(cells, &marks, from, size.points())
}

/// The first point from `from` on, of so many, whose stone has no mark.
fn unmarked_from(
    cells: &[u8],
    marks: &[bool; MAX_POINTS],
    from: usize,
    count: usize,
) -> Option<usize>
    requires celled { count ≤ length cells.now }
    requires few { count ≤ 361 }
    ensures { result ≡ find (λ p. is_stone (slice_index cells.now p) && not (slice_index_or marks.now p false)) (range_with_len from (count - from)) }
{
    (from..count).find(|p| is_stone(cells[*p]) && !marks[*p])
}
