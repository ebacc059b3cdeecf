// Who goes next.
ghost use Rattle.std.specs.Prelude.{◌≡◌, length, MatchOption};
ghost use Rattle.line.specs.Fronts.{Front};

use crate::waits::Waits;

// The first place of the line that no element is ahead of; nothing for an empty line.
pub fn front<E: Waits>(line: &[E]) -> Option<usize>
    ensures { MatchOption result (length line.now ≡ 0) (λ p. Front E.leads line.now p) }
{
    let mut best = None;
    for (i, element) in line.iter().enumerate() {
        match best {
            Some(b) if !element.ahead(&line[b]) => {}
            _ => best = Some(i),
        }
    }
    best
}
