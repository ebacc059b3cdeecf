// The sections of a sheet, and the sheet in its parts.
ghost use Rattle.std.specs.Prelude.{◌≡◌};
ghost use Rattle.sheet.specs.Layout.{charges_at, batches_at, capacity_bytes, charge_bytes, batch_bytes};
ghost use Rattle.sheet.specs.Reading.{SheetIs};

use crate::frame::Frame;
use crate::head::Head;
use crate::section::{Section, Sheet};

impl<'a> Frame<'a> {
    // Where the charges begin.
    fn charges_at(&self) -> usize
        ensures { result ≡ charges_at self.now.bytes.now }
    {
        Head::LENGTH + self.head.periods as usize
    }

    // Where the batches begin.
    fn batches_at(&self) -> usize
        ensures { result ≡ batches_at self.now.bytes.now }
    {
        self.charges_at() + 2 * self.head.charge_count()
    }

    // The bytes of the capacities.
    pub(super) fn capacities(&self) -> &'a [u8]
        ensures { result.now ≡ capacity_bytes self.now.bytes.now }
    {
        &self.bytes[Head::LENGTH..self.charges_at()]
    }

    // The bytes of the charges from kind to kind.
    pub(super) fn charges(&self) -> &'a [u8]
        ensures { result.now ≡ charge_bytes self.now.bytes.now }
    {
        &self.bytes[self.charges_at()..self.batches_at()]
    }

    // The bytes of the batches.
    pub(super) fn batches(&self) -> &'a [u8]
        ensures { result.now ≡ batch_bytes self.now.bytes.now }
    {
        &self.bytes[self.batches_at()..]
    }

    // The parts of the sheet.
    pub(crate) fn sheet(&self) -> Sheet<'a>
        ensures { SheetIs self.now.bytes.now result }
    {
        Sheet {
            head: self.head,
            capacities: Section::Capacities {
                place: Head::LENGTH,
                bytes: self.capacities(),
            },
            charges: Section::Charges {
                place: self.charges_at(),
                bytes: self.charges(),
            },
            batches: Section::Batches {
                place: self.batches_at(),
                bytes: self.batches(),
            },
        }
    }
}
