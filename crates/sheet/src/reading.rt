// Reading a sheet in its parts.
ghost use Rattle.sheet.specs.Reading.{SheetRead};

use crate::frame::Frame;
use crate::section::Sheet;
use windows::Refusal;

// Reads a sheet: its parts, which borrow the bytes, or the first refusal that strikes.
pub fn read(bytes: &[u8]) -> Result<Sheet<'_>, Refusal>
    ensures { SheetRead bytes.now result }
{
    let frame = Frame::new(bytes)?;
    frame.job()?;
    Ok(frame.sheet())
}
