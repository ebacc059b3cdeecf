// Loading what a sheet asks for.
ghost use Rattle.sheet.specs.Reading.{LoadedSheet};

use crate::frame::Frame;
use crate::job::Job;
use windows::Refusal;

// Loads the windows, the rule and the cap of a sheet, or answers the first refusal that strikes.
pub fn load(bytes: &[u8]) -> Result<Job, Refusal>
    ensures { LoadedSheet bytes.now result }
{
    Frame::new(bytes)?.job()
}
