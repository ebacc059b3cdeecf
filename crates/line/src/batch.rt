// A batch.
ghost use Rattle.std.specs.Prelude.{◌≡◌, ◌-◌, ◌*◌, ◌^◌, ◌<◌};

// A batch that waits to be placed: the ends of its window, the period it is due in, and its charge for each period before that.
#[derive(Clone, Copy, Debug, Default, PartialEq, Eq)]
pub struct Batch {
    pub earliest: u8,
    pub latest: u8,
    pub due: u8,
    pub rate: u32,
}

impl Batch {
    // The periods that it waits before it is due, if it is placed in this one.
    pub fn wait(self, period: u8) -> u8
        ensures { result ≡ self.due - period }
    {
        self.due.saturating_sub(period)
    }

    // What it is charged in this period.
    pub fn charge(self, period: u8) -> u64
        ensures exact { result ≡ self.rate * (self.due - period) }
        ensures small { result < 2 ^ 40 }
    {
        self.rate as u64 * self.wait(period) as u64
    }
}
