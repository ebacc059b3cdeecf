// What a step did to the part that it took.
use std::fmt;

#[derive(Clone, Copy, Debug, PartialEq, Eq, Hash)]
pub enum Step {
    Closed,
    Plan,
    Split,
}

impl fmt::Display for Step {
    ghost use Rattle.std.specs.Prelude.{Some};
    ghost use Rattle.runs.specs.Words.{step_word};

    ghost output = { λ step. Some (step_word step) };

    fn fmt<W: fmt::Write>(&self, f: &mut fmt::Formatter<W>) -> fmt::Result {
        match self {
            Step::Closed => write!(f, "closed"),
            Step::Plan => write!(f, "plan"),
            Step::Split => write!(f, "split"),
        }
    }
}
