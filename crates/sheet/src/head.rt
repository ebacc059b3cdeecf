// What stands before the sections of a sheet.
ghost use Rattle.std.specs.Prelude.{◌≡◌, ◌*◌};
ghost use Rattle.windows.specs.Refusals.{struck, Judged};
ghost use Rattle.sheet.specs.Checks.{over_limits, length_counted, head_checks};
ghost use Rattle.sheet.specs.Reading.{HeadIs};

use crate::bytes::{byte, number_at};
use rule::MAX_CHARGE;
use std::array;
use windows::{Refusal, Size};

// The numbers of batches, periods and kinds, the weight, and the cap.
#[derive(Clone, Copy, Debug, PartialEq)]
pub struct Head {
    pub batches: u8,
    pub periods: u8,
    pub weight: u8,
    pub kinds: u8,
    pub limit: u64,
}

impl Head {
    // How many bytes it has.
    pub(crate) const LENGTH: usize = 15;

    // The head that stands in some bytes, whatever they are.
    pub(crate) fn of(bytes: &[u8]) -> Head
        ensures { HeadIs bytes.now result }
    {
        Head {
            batches: byte(bytes, 3),
            periods: byte(bytes, 4),
            weight: byte(bytes, 5),
            kinds: byte(bytes, 6),
            limit: u64::from_be_bytes(array::from_fn(|k| byte(bytes, 7 + k))),
        }
    }

    // How many batches and periods there are.
    pub fn size(self) -> Size
        ensures { result ≡ record { batches = self.batches; periods = self.periods } }
    {
        Size::new(self.batches as usize, self.periods as usize)
    }

    // Whether a count, the weight or the cap breaks its limits.
    fn breaks_limits(self) -> bool
        ensures { result ≡ over_limits self.batches self.periods self.kinds self.weight self.limit }
    {
        self.size().breaks_limits()
            || self.kinds < 1
            || self.kinds > 8
            || self.weight < 1
            || self.weight > 100
            || self.limit > MAX_CHARGE
    }

    // How many charges there are from kind to kind.
    pub(crate) fn charge_count(self) -> usize
        ensures { result ≡ self.kinds * self.kinds }
    {
        let kinds = self.kinds as usize;
        kinds * kinds
    }

    // The length of what follows the first two bytes, by the counts.
    fn counted_length(self) -> usize
        ensures { result ≡ length_counted self.batches self.periods self.kinds }
    {
        13 + self.periods as usize + 2 * self.charge_count() + 6 * self.batches as usize
    }

    // Judges a sheet by the checks of its head, in their order.
    pub(crate) fn judge(self, bytes: &[u8]) -> Result<(), Refusal>
        requires { HeadIs bytes.now self }
        ensures { Judged (struck (head_checks bytes.now)) result }
    {
        let told = number_at(bytes, 0) as usize;
        if bytes.len() < Head::LENGTH || told + 2 != bytes.len() {
            return Err(Refusal::SheetLength);
        }
        if byte(bytes, 2) != 1 {
            return Err(Refusal::Version);
        }
        if self.breaks_limits() {
            return Err(Refusal::Limit);
        }
        if told != self.counted_length() {
            return Err(Refusal::ListLength);
        }
        Ok(())
    }
}
