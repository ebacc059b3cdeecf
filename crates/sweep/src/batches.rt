// A set of batches.
ghost use Rattle.std.specs.Prelude.{◌≡◌, length};
ghost use Rattle.sweep.specs.Charges.{Sound};

use line::Batch;

mod calls;
mod copies;
mod placing;

// Up to 32 batches over up to 64 periods. No window is empty, all lie in the periods, and each ends by its batch's due period.
#[derive(Clone, Copy)]
pub struct Batches {
    // no heap: the batches are an array with its count
    count: usize,
    last: u8,
    each: [Batch; 32],
    ghost long: { length each ≡ 32 },
    ghost sound: { Sound count last each },
}
