// The ends of the periods that batches take in some schedules.
ghost use Rattle.std.specs.Prelude.{◌≡◌, length};

mod scan;
mod sought;

pub(crate) use sought::Sought;
use std::array;

// The earliest and the latest period found for each batch, counted from 0: two lists, since Windows is filled from two.
#[derive(Clone, Copy)]
pub struct Ends {
    pub(crate) earliest: [u8; 32],
    pub(crate) latest: [u8; 32],
    ghost low: { length earliest ≡ 32 },
    ghost high: { length latest ≡ 32 },
}

impl Ends {
    ghost use Rattle.flat.specs.Ends.{Taken};

    // The ends moved outward to hold a schedule.
    fn holding(self, placed: &[u8; 32]) -> Ends
        ensures { Taken self placed.now result }
    {
        Ends {
            earliest: array::from_fn(|k| self.earliest[k].min(placed[k])),
            latest: array::from_fn(|k| self.latest[k].max(placed[k])),
        }
    }
}
