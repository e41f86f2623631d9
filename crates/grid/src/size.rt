//! The size of a board, and its neighbours by number.

ghost use Rattle.std.specs.Prelude.{◌≡◌, ℕ, ◌*◌, ◌<◌, ◌≤◌, true, false, [], ◌∷◌, Some, None};
ghost use Rattle.grid.specs.Grid.{points, near};
ghost use Rattle.grid.specs.Neighbours.{slots, hand};
ghost use Rattle.grid.specs.Sizes.{side_fits};

/// The longest side that a board may have.
pub const MAX_SIDE: u8 = 19;

/// The numbers that a point of the square board has for its neighbours.
pub(crate) const SLOTS: usize = 4;

/// How many points a side of the board has: 1 to 19.
#[derive(Clone, Copy, PartialEq, Eq, Debug)]
pub struct Extent {
    points: u8,
    ghost ok: { (1 ≤ points) × (points ≤ 19) },
}

impl Extent {
    /// The extent, if a side may be that long. As `NonZeroU8::new`: an error would say no more than none.
    pub fn new(points: u8) -> Option<Extent>
        ensures { elim result [
          | Some e ↦ (side_fits points ≡ true) × (e.points ≡ points)
          | None ↦ side_fits points ≡ false
        ] }
    {
        if points < 1 || points > MAX_SIDE {
            return None;
        }
        Some(Extent { points })
    }
}

/// A width and a height of 1 to 19 points each.
#[derive(Clone, Copy, PartialEq, Eq, Debug)]
pub struct Size {
    // two numbers and no two extents: clauses read `size.width`
    width: u8,
    height: u8,
    ghost ok: { (1 ≤ width) × (width ≤ 19) × (1 ≤ height) × (height ≤ 19) },
    ghost few: { (1 ≤ width * height) × (width * height ≤ 361) },
}

impl Size {
    /// The size of a board with these sides.
    pub fn new(width: Extent, height: Extent) -> Size
        ensures { (result.width ≡ width.points) × (result.height ≡ height.points) }
    {
        Size::of_sides(width.points, height.points)
    }

    fn of_sides(width: u8, height: u8) -> Size
        requires { (1 ≤ width) × (width ≤ 19) × (1 ≤ height) × (height ≤ 19) }
        ensures { (result.width ≡ width) × (result.height ≡ height) }
    {
        Size { width, height }
    }

    /// How many points a row has.
    pub fn width(self) -> usize
        ensures value { result ≡ self.width }
        ensures bounds { (1 ≤ result) × (result ≤ 19) }
    {
        self.width as usize
    }

    /// How many rows there are.
    pub fn height(self) -> usize
        ensures value { result ≡ self.height }
        ensures bounds { (1 ≤ result) × (result ≤ 19) }
    {
        self.height as usize
    }

    /// How many points the board has.
    pub fn points(self) -> usize
        ensures value { result ≡ points self.width self.height }
        ensures bounds { (1 ≤ result) × (result ≤ 361) }
    {
        self.width() * self.height()
    }

    /// How many numbers the neighbours of p have: every neighbour has one below this.
    pub fn neighbour_slots(self, p: usize) -> usize
        ensures value { result ≡ slots self.width self.height p }
        ensures complete { (q : ℕ) → near self.width self.height p q ≡ true →
            (k : ℕ) × (k < result) × (hand self.width self.height p k ≡ Some q) }
    {
        self.slots(p)
    }

    /// The neighbour of p with the number k: above, left, right and below, which is also the order of the points.
    pub fn neighbour(self, p: usize, k: usize) -> Option<usize>
        ensures value { result ≡ hand self.width self.height p k }
        ensures sound { elim result [ Some q ↦ (near self.width self.height p q ≡ true) × (q < points self.width self.height) | None ↦ Unit {0} ] }
        ensures ordered { (j o q : ℕ) → j < k → hand self.width self.height p j ≡ Some o → result ≡ Some q → o < q }
    {
        self.step(p, k)
    }

    /// Four numbers for a point of the board, none for one that is not there.
    fn slots(self, p: usize) -> usize
        ensures value { result ≡ slots self.width self.height p }
        ensures complete { (q : ℕ) → near self.width self.height p q ≡ true →
            (k : ℕ) × (k < result) × (hand self.width self.height p k ≡ Some q) }
    {
        if p < self.points() { SLOTS } else { 0 }
    }

    /// What `beside` gives for each number: worked out together, since a walk asks for all of them.
    pub(crate) fn numbered(self, p: usize) -> [Option<usize>; SLOTS]
        ensures { result ≡ hand self.width self.height p 0 ∷ hand self.width self.height p 1 ∷ hand self.width self.height p 2 ∷ hand self.width self.height p 3 ∷ [] }
    {
        [
            self.beside(p, 0),
            self.beside(p, 1),
            self.beside(p, 2),
            self.beside(p, 3),
        ]
    }

    /// What `beside` gives, with its facts.
    fn step(self, p: usize, k: usize) -> Option<usize>
        ensures value { result ≡ hand self.width self.height p k }
        ensures sound { elim result [ Some q ↦ (near self.width self.height p q ≡ true) × (q < points self.width self.height) | None ↦ Unit {0} ] }
        ensures ordered { (j o q : ℕ) → j < k → hand self.width self.height p j ≡ Some o → result ≡ Some q → o < q }
    {
        self.beside(p, k)
    }

    fn beside(self, p: usize, k: usize) -> Option<usize>
        ensures { result ≡ hand self.width self.height p k }
    {
        let points = self.points();
        let width = self.width();
        if p >= points {
            return None;
        }
        match k {
            0 if p >= width => Some(p - width),
            1 if p % width != 0 => Some(p - 1),
            2 if p % width + 1 != width => Some(p + 1),
            3 if p + width < points => Some(p + width),
            _ => None,
        }
    }
}
