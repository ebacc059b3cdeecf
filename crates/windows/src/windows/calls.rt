// The calls on a set of windows.
ghost use Rattle.std.specs.Prelude.{◌≡◌, length};
ghost use Rattle.windows.specs.Filling.{set_of, blank, window_asked, bad, some_bad, fill_checks, Filled};
ghost use Rattle.windows.specs.Sizes.{Sized};

use crate::extent::Extent;
use crate::refusal::Refusal;
use crate::size::Size;
use crate::window::Window;
use crate::windows::Windows;

// Whether a window is empty or leaves the periods.
fn bad_window(periods: u8, earliest: u8, latest: u8) -> bool
    ensures { result ≡ bad periods earliest latest }
{
    earliest < 1 || latest < earliest || latest > periods
}

// Whether some window of the lists is bad.
fn some_bad_window(periods: u8, earliest: &[u8], latest: &[u8]) -> bool
    ensures { result ≡ some_bad periods earliest.now latest.now }
{
    earliest.iter().zip(latest).any(|(&earliest, &latest)| bad_window(periods, earliest, latest))
}

// Judges a fill by the checks in their order.
fn judge(size: Size, earliest: &[u8], latest: &[u8]) -> Result<Extent, Refusal>
    ensures { Sized (fill_checks size.batches size.periods earliest.now latest.now) size result }
{
    let extent = Extent::try_from(size)?;
    if earliest.len() != size.batches || latest.len() != size.batches {
        return Err(Refusal::ListLength);
    }
    if some_bad_window(extent.periods, earliest, latest) {
        return Err(Refusal::BadWindow);
    }
    Ok(extent)
}

impl Windows {
    // No batches and one period.
    pub fn new() -> Windows
        ensures { set_of result ≡ blank }
    {
        Windows {
            extent: Extent {
                batches: 0,
                periods: 1,
            },
            each: [Window {
                earliest: 1,
                latest: 1,
            }; 32],
        }
    }

    // How many batches there are.
    pub fn batches(&self) -> usize
        ensures { result ≡ length (set_of self.now).each }
    {
        self.extent.batches as usize
    }

    // How many periods there are.
    pub fn periods(&self) -> usize
        ensures { result ≡ (set_of self.now).periods }
    {
        self.extent.periods as usize
    }

    // How many batches and periods there are.
    pub fn size(&self) -> Size
        ensures batches { result.batches ≡ length (set_of self.now).each }
        ensures periods { result.periods ≡ (set_of self.now).periods }
    {
        Size::from(self.extent)
    }

    // The windows of the batches, in order.
    pub fn each(&self) -> &[Window]
        ensures { result.now ≡ (set_of self.now).each }
    {
        &self.each[..self.extent.batches as usize]
    }

    // The earliest and the latest period of a batch, numbered from 1.
    pub fn window(&self, batch: usize) -> Option<(u8, u8)>
        ensures { result ≡ window_asked (set_of self.now) batch }
    {
        let place = batch.checked_sub(1)?;
        let window = self.each().get(place)?;
        Some((window.earliest, window.latest))
    }

    // Loads the windows of some batches from the lists of their earliest and their latest periods.
    pub fn fill(&mut self, size: Size, earliest: &[u8], latest: &[u8]) -> Result<(), Refusal>
        ensures { Filled size.batches size.periods earliest.now latest.now self.old self.new result }
    {
        let extent = judge(size, earliest, latest)?;
        let mut each = [Window {
            earliest: 1,
            latest: 1,
        }; 32];
        // by index: of what is written through a zip of tables nothing would be known
        for (k, &earliest) in earliest.iter().enumerate() {
            each[k] = Window {
                earliest,
                latest: latest[k],
            };
        }
        *self = Windows { extent, each };
        Ok(())
    }
}
