// A plan as it is told.
ghost use Rattle.std.specs.Prelude.{◌≡◌, ◌≤◌, length};

// A charge, and a period for each batch: an array with its count, since a plan is copied and there is no heap.
#[derive(Clone, Copy, Debug)]
pub struct Plan {
    pub charge: u64,
    pub count: usize,
    pub periods: [u8; 32],
    ghost long: { length periods ≡ 32 },
    ghost few: { count ≤ 32 },
}

impl Plan {
    ghost use Rattle.report.specs.Texts.{plan_of};

    // The period of each batch.
    pub(crate) fn schedule(&self) -> &[u8]
        ensures holds { result.now ≡ (plan_of self.now).schedule }
        ensures few { length result.now ≤ 32 }
    {
        &self.periods[..self.count]
    }
}
