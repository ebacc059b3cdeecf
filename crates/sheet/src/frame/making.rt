// A frame made of the bytes of a sheet.
ghost use Rattle.std.specs.Prelude.{◌≡◌, MatchResult};
ghost use Rattle.windows.specs.Refusals.{number, struck};
ghost use Rattle.sheet.specs.Checks.{head_checks};

use crate::frame::Frame;
use crate::head::Head;
use windows::Refusal;

impl<'a> Frame<'a> {
    // The frame of a sheet, or the first refusal of its head that strikes.
    #[tactic(auto, using(crate::proofs::Frames::framed))]
    pub(crate) fn new(bytes: &'a [u8]) -> Result<Frame<'a>, Refusal>
        ensures { MatchResult result
            (λ frame. (struck (head_checks bytes.now) ≡ 0) × (frame.bytes.now ≡ bytes.now))
            (λ refusal. struck (head_checks bytes.now) ≡ number refusal) }
    {
        let head = Head::of(bytes);
        head.judge(bytes)?;
        Ok(Frame { bytes, head })
    }
}
