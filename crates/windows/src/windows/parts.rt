// Windows cut in two, and windows written out.
ghost use Rattle.std.specs.Prelude.{◌≡◌, length, position};
ghost use Rattle.windows.specs.Filling.{set_of};
ghost use Rattle.windows.specs.Halves.{wide, SplitUp, first_periods, Wrote};

use crate::refusal::Refusal;
use crate::window::Window;
use crate::windows::Windows;

impl Windows {
    // The lowest-numbered batch with more than one period, counted from 0, if there is one.
    fn first_wide(&self) -> Option<usize>
        ensures { result ≡ position wide (set_of self.now).each }
    {
        self.each().iter().position(|w| w.earliest < w.latest)
    }

    // Cuts the window of the lowest-numbered batch with more than one period after its middle: these windows keep the earlier
    // half, and those with the later half are answered. Nothing if every window is one period.
    pub fn split(&mut self) -> Option<Windows>
        ensures { SplitUp self.old self.new result }
    {
        let k = self.first_wide()?;
        let Window { earliest, latest } = self.each[k];
        let middle = (earliest + latest) / 2;
        let mut later = *self;
        later.each[k] = Window {
            earliest: middle + 1,
            latest,
        };
        self.each[k] = Window {
            earliest,
            latest: middle,
        };
        Some(later)
    }

    // Writes the earliest period of each batch, a byte each; what is beyond stays.
    pub fn write_earliest(&self, memory: &mut [u8]) -> Result<(), Refusal>
        ensures { Wrote (first_periods (set_of self.now).each) memory.old memory.new result }
    {
        let windows = self.each();
        if memory.len() < windows.len() {
            return Err(Refusal::ShortMemory);
        }
        // by index: of what is written through a zip of tables nothing would be known
        for (batch, window) in windows.iter().enumerate() {
            memory[batch] = window.earliest;
        }
        Ok(())
    }
}
