// The parts of a sheet, in the host's own bytes.
use crate::head::Head;

// A section borrows its part of the bytes, with the place where that begins, counted from 0 at the sheet's first byte.
#[derive(Clone, Copy, Debug, PartialEq)]
pub enum Section<'a> {
    Capacities { place: usize, bytes: &'a [u8] }, // a byte for each period
    Charges { place: usize, bytes: &'a [u8] }, // two bytes from each kind to each
    Batches { place: usize, bytes: &'a [u8] }, // six bytes a batch
}

// A sheet in its parts.
#[derive(Clone, Copy, Debug, PartialEq)]
pub struct Sheet<'a> {
    pub head: Head,
    pub capacities: Section<'a>,
    pub charges: Section<'a>,
    pub batches: Section<'a>,
}
