//! The size of a board from the lengths of its sides.

ghost use Rattle.grid.specs.Sized.{SizeOfSides};

use crate::refusal::{Refusal, Side};
use crate::size::{Extent, Size};

impl TryFrom<(u8, u8)> for Size {
    type Error = Refusal;

    ghost try_from_gives = { SizeOfSides };

    /// The size of a board of that width and height, unless one of them is no length of a side.
    fn try_from(sides: (u8, u8)) -> Result<Size, Refusal> {
        let Some(width) = Extent::new(sides.0) else {
            return Err(Refusal::BadSide(Side::Width));
        };
        let Some(height) = Extent::new(sides.1) else {
            return Err(Refusal::BadSide(Side::Height));
        };
        Ok(Size::new(width, height))
    }
}
