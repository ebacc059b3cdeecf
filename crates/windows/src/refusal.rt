// Why a call is turned down.
ghost use Rattle.std.specs.Prelude.{◌≡◌, Some, decimal};
ghost use Rattle.windows.specs.Refusals.{number as number_of};

use std::error::Error;
use std::fmt;

// The first check that strikes names the refusal, and a refused call changes nothing.
#[derive(Clone, Copy, Debug, PartialEq, Eq)]
pub enum Refusal {
    SheetLength = 1, // a sheet is too short, or its length miscounts what follows
    Version = 2, // the version of a sheet is unknown
    Limit = 3, // a count, a weight or a sheet's cap breaks its limits
    ListLength = 4, // a list, or the sheet, has another length than its counts give
    Entry = 5, // an entry of a table breaks its limits
    BadWindow = 6, // a window is empty or leaves the periods
    Unfit = 7, // the windows don't fit the rule
    CapTooHigh = 8, // a cap is above the greatest charge
    NoSchedule = 9, // the cut is none
    Idle = 10, // the search is idle
    Done = 11, // the search is done
    CapNotLower = 12, // a tightened cap is not below the present one
    NoPlan = 13, // no plan is held
    ShortMemory = 14, // the host's memory is shorter than the result
}

impl Refusal {
    // The refusal's number, 1 to 14.
    pub fn number(self) -> u8
        ensures { result ≡ number_of self }
    {
        self as u8
    }
}

// A refusal is printed as its number.
impl fmt::Display for Refusal {
    ghost output = { λ refusal. Some (decimal (number_of refusal)) };

    fn fmt<W: fmt::Write>(&self, f: &mut fmt::Formatter<W>) -> fmt::Result {
        let number = self.number();
        write!(f, "{number}")
    }
}

impl Error for Refusal {}
