//! Chains and rooms by their first points: a label for each point.

ghost use Rattle.std.specs.Prelude.{◌≡◌, ℕ, ◌<◌, ◌≤◌, true, false, ◌&&◌, ◌++◌, length, drop, replicate, Ok, Err, nat_le, slice_index};
ghost use Rattle.chains.specs.Labels.{Labelled};
ghost use Rattle.chains.specs.Sized.{count_of, near_of};
ghost use Rattle.chains.specs.Walked.{Walked};

use grid::size::Size;

/// The most points that a board may have.
pub const MAX_POINTS: usize = 361;

/// The label of a point that has none: no board has a point of this number.
// A number and no Option, since chains and rooms are lent as slices of u16, a form that the society named.
pub const NO_POINT: u16 = 65_535;

/// Writes the name at p and at every point without a label that is reached from p over points of one class.
fn walk(size: Size, classes: &[u8], labels: &mut [u16], p: usize, name: u16)
    requires classed { count_of size ≤ length classes.now }
    requires labelled { count_of size ≤ length labels.old }
    requires inside { p < count_of size }
    requires free { slice_index labels.old p ≡ 65535 }
    requires named { name < 65535 }
    ensures { Walked (count_of size) (near_of size) classes.now p name labels.old labels.new }
{
    labels[p] = name;
    for q in size.neighbours(p) {
        if classes[q] == classes[p] && labels[q] == NO_POINT {
            walk(size, classes, labels, q, name);
        }
    }
}

/// Takes the labels off the first points.
fn clear(labels: &mut [u16], count: usize)
    requires { count ≤ length labels.old }
    ensures { labels.new ≡ replicate count 65535 ++ drop count labels.old }
{
    labels[0..count].fill(NO_POINT);
}

/// Labels every point whose class is not left out. In the order of the points a walk starts at the first point of what it reaches.
pub(crate) fn label_points(size: Size, classes: &[u8], left_out: u8, labels: &mut [u16])
    requires classed { count_of size ≤ length classes.now }
    requires labelled { count_of size ≤ length labels.old }
    ensures firsts { Labelled (count_of size) (near_of size) classes.now left_out labels.new }
    ensures past { drop (count_of size) labels.new ≡ drop (count_of size) labels.old }
{
    clear(labels, size.points());
    // by number: the walk writes the labels that the loop reads
    for p in 0..size.points() {
        if classes[p] != left_out && labels[p] == NO_POINT {
            walk(size, classes, labels, p, p as u16);
        }
    }
}

/// Memory that does not reach over the board.
#[derive(Clone, Copy, PartialEq, Eq, Debug)]
pub struct TooShort;

/// Gives each point the first point that is linked to it over points of its class, and NO_POINT where its class is left out.
/// If one of the slices does not reach over the board, nothing is written.
pub fn label(size: Size, classes: &[u8], left_out: u8, labels: &mut [u16]) -> Result<(), TooShort>
    ensures answer { elim result [
      | Ok _ ↦ ((nat_le (count_of size) (length classes.now) && nat_le (count_of size) (length labels.old)) ≡ true)
          × Labelled (count_of size) (near_of size) classes.now left_out labels.new
      | Err _ ↦ ((nat_le (count_of size) (length classes.now) && nat_le (count_of size) (length labels.old)) ≡ false)
          × (labels.new ≡ labels.old)
    ] }
    ensures past { drop (count_of size) labels.new ≡ drop (count_of size) labels.old }
{
    if classes.len() < size.points() || labels.len() < size.points() {
        return Err(TooShort);
    }
    label_points(size, classes, left_out, labels);
    Ok(())
}
