//! Worked figures, proved of the definitions that the contracts cite.
#![tactic(auto)]

ghost use Rattle.worked.specs.Figures.{figures, AllHold};

// That every worked figure holds.
pub fn figures_hold()
    ensures { AllHold figures }
{}
