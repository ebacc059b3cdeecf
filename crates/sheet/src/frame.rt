// A sheet whose head has passed its checks.
ghost use Rattle.sheet.specs.Reading.{Framed};

use crate::head::Head;

mod making;
mod parts;
mod sections;
mod tables;

// The bytes of a sheet, in the host's memory, and their head.
#[derive(Clone, Copy)]
pub(crate) struct Frame<'a> {
    bytes: &'a [u8],
    head: Head,
    ghost framed: { Framed bytes.now head },
}
