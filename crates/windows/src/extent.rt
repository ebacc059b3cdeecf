// Numbers of batches and periods within their limits.
ghost use Rattle.std.specs.Prelude.{◌≤◌};

use crate::refusal::Refusal;
use crate::size::Size;

// Up to 32 batches and 1 to 64 periods.
#[derive(Clone, Copy)]
pub struct Extent {
    pub batches: u8,
    pub periods: u8,
    ghost few: { batches ≤ 32 },
    ghost some: { 1 ≤ periods },
    ghost most: { periods ≤ 64 },
}

impl TryFrom<Size> for Extent {
    type Error = Refusal;

    ghost use Rattle.windows.specs.Sizes.{Limited};

    ghost try_from_gives = { Limited };

    fn try_from(size: Size) -> Result<Extent, Refusal> {
        if size.breaks_limits() {
            return Err(Refusal::Limit);
        }
        Ok(Extent {
            batches: size.batches as u8,
            periods: size.periods as u8,
        })
    }
}

impl From<Extent> for Size {
    ghost use Rattle.std.specs.Prelude.{◌≡◌};

    ghost from_gives = { λ extent size. size ≡ record { batches = extent.batches; periods = extent.periods } };

    fn from(extent: Extent) -> Size {
        Size {
            batches: extent.batches as usize,
            periods: extent.periods as usize,
        }
    }
}
