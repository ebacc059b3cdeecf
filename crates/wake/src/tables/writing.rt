// Windows written into tables.
ghost use Rattle.std.specs.Prelude.{◌≡◌, length};
ghost use Rattle.windows.specs.Filling.{set_of};
ghost use Rattle.windows.specs.Halves.{first_periods};
ghost use Rattle.wake.specs.Exports.{last_periods};

use windows::Windows;

// Writes both ends of each window into a table each.
pub(super) fn write_windows(windows: &Windows, earliest: &mut [u8], latest: &mut [u8])
    requires starts { length earliest.old ≡ length (set_of windows.now).each }
    requires ends { length latest.old ≡ length (set_of windows.now).each }
    ensures first { earliest.new ≡ first_periods (set_of windows.now).each }
    ensures last { latest.new ≡ last_periods (set_of windows.now).each }
{
    // by index: of what is written through a zip of tables nothing would be known
    for (batch, window) in windows.each().iter().enumerate() {
        earliest[batch] = window.earliest;
        latest[batch] = window.latest;
    }
}
