// The table of charges: a row for each kind that goes before, with an entry for each kind that follows.
ghost use Rattle.std.specs.Prelude.{◌≡◌, nat_lt};
ghost use Rattle.std.specs.List.{list_any};
ghost use Rattle.reload.specs.Loads.{out_of_kinds, some_own_charge, reload_charge};

// Whether the number of kinds breaks its limits: 1 to 8.
pub(crate) fn breaks_kinds(kinds_count: usize) -> bool
    ensures { result ≡ out_of_kinds kinds_count }
{
    kinds_count < 1 || kinds_count > 8
}

// Whether some charge is above a limit.
pub(crate) fn some_above(charges: &[u16], greatest: u16) -> bool
    ensures { result ≡ list_any (λ v. nat_lt greatest v) charges.now }
{
    // a line of its own: a charge is no byte
    charges.iter().any(|&charge| charge > greatest)
}

// The charge from a kind to a kind; 0 where the table has none.
pub(crate) fn charge_between(kinds_count: u8, charges: &[u16], before: u8, kind: u8) -> u16
    ensures { result ≡ reload_charge kinds_count charges.now before kind }
{
    let row = before.saturating_sub(1) as usize * kinds_count as usize;
    let place = row + kind.saturating_sub(1) as usize;
    charges.get(place).copied().unwrap_or(0)
}

// Whether some kind has a charge from itself to itself.
pub(crate) fn some_own(kinds_count: u8, charges: &[u16]) -> bool
    ensures { result ≡ some_own_charge kinds_count charges.now }
{
    (1..=kinds_count).any(|kind| charge_between(kinds_count, charges, kind, kind) != 0)
}
