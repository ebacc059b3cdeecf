// How a text is read back.
ghost use Rattle.report.specs.Texts.{OneReading};

// Every text can be read in one way only.
pub fn one_reading()
    ensures { OneReading }
{}
