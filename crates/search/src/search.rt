// A search around one rule.
use crate::inner::Inner;

mod asking;
mod calls;

// The rule stays as it is, as each call promises; all that the calls change is inside.
#[derive(Drop)]
pub struct Search<R> {
    rule: R,
    inner: Inner,
}
