// What a search came to.
use crate::plan::Plan;
use windows::Refusal;

#[derive(Clone, Copy, Debug)]
pub enum Outcome {
    Refused(Refusal), // the sheet was refused, which is told like any other end
    Done(Option<Plan>), // the search is done, with its plan if there is one
    Stopped(Option<Plan>), // the search ran out of steps, with the plan held then if there is one
}
