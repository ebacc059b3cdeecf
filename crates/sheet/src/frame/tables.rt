// Tables of numbers, from the bytes of a section. No heap: each has room for the most that there may be, and its front counts.
ghost use Rattle.std.specs.Prelude.{◌≡◌, ◌*◌, take};
ghost use Rattle.sheet.specs.Layout.{batch_count, batch_bytes, column, rates, reload_charges};
ghost use Rattle.sheet.specs.Reading.{place_of};

use crate::bytes::{byte, number_at};
use crate::frame::Frame;

// What a byte of a batch says, by its place in the six.
#[derive(Clone, Copy)]
pub(super) enum Field {
    Earliest = 0,
    Latest = 1,
    Due = 2,
    Kind = 3,
}

impl Frame<'_> {
    // Each table is a loop over one reader of bytes: its type, its place and its definition are its own. Only what counts is read.

    // One byte of each batch.
    pub(super) fn column(&self, field: Field) -> [u8; 32]
        ensures { take self.now.head.batches result ≡ column (batch_count self.now.bytes.now) (place_of field) (batch_bytes self.now.bytes.now) }
    {
        let batches = self.batches();
        let place = field as usize;
        let mut table = [0; 32];
        for k in 0..self.head.batches as usize {
            table[k] = byte(batches, 6 * k + place);
        }
        table
    }

    // The rate of each batch.
    pub(super) fn rates(&self) -> [u32; 32]
        ensures { take self.now.head.batches result ≡ rates self.now.bytes.now }
    {
        let batches = self.batches();
        let mut table = [0; 32];
        for k in 0..self.head.batches as usize {
            table[k] = number_at(batches, 6 * k + 4) as u32;
        }
        table
    }

    // The charges from kind to kind, row by row.
    pub(super) fn charge_table(&self) -> [u16; 64]
        ensures { take (self.now.head.kinds * self.now.head.kinds) result ≡ reload_charges self.now.bytes.now }
    {
        let charges = self.charges();
        let mut table = [0; 64];
        for k in 0..self.head.charge_count() {
            table[k] = number_at(charges, 2 * k);
        }
        table
    }
}
