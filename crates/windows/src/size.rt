// How many batches and periods there are.
ghost use Rattle.std.specs.Prelude.{◌≡◌};
ghost use Rattle.windows.specs.Sizes.{out_of_size};

// Numbers of batches and of periods, whatever they are: a call that takes them judges them.
#[derive(Clone, Copy, Debug, PartialEq, Eq)]
pub struct Size {
    pub batches: usize,
    pub periods: usize,
}

impl Size {
    // So many batches and periods.
    pub fn new(batches: usize, periods: usize) -> Size
        ensures { result ≡ record { batches = batches; periods = periods } }
    {
        Size { batches, periods }
    }

    // Whether the numbers break their limits: at most 32 batches, 1 to 64 periods.
    pub fn breaks_limits(self) -> bool
        ensures { result ≡ out_of_size self.batches self.periods }
    {
        self.batches > 32 || self.periods < 1 || self.periods > 64
    }
}
