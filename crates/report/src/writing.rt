// The text of an outcome, and the text written into the host's memory.
ghost use Rattle.std.specs.Prelude.{◌≡◌, ◌+◌, ◌*◌, ◌≤◌, [], ◌++◌, length};
ghost use Rattle.windows.specs.Refusals.{number};
ghost use Rattle.report.specs.Texts.{line, lines_from, plan_text, refused_text, done_text, stopped_text};
ghost use Rattle.report.specs.Texts.{plan_of, plan_in, outcome_text, Reported};

use crate::outcome::Outcome;
use crate::plan::Plan;
use crate::text::Text;
use windows::Refusal;

impl Text {
    // Appends the line of one batch: its number and its period.
    fn push_line(&mut self, batch: u8, period: u8)
        requires { length self.old + 8 ≤ 320 }
        ensures holds { self.new ≡ self.old ++ line batch period }
        ensures short { length self.new ≤ length self.old + 8 }
    {
        self.push_number(batch);
        self.push(" ");
        self.push_number(period);
        self.push("\n");
    }

    // Appends a line for each batch, numbered from 1.
    fn push_lines(&mut self, periods: &[u8])
        requires few { length periods.now ≤ 32 }
        requires room { length self.old + 8 * 32 ≤ 320 }
        ensures { self.new ≡ self.old ++ lines_from 1 periods.now }
    {
        for (batch, period) in (1..).zip(periods) {
            self.push_line(batch, *period);
        }
    }

    // Appends a plan: its charge, and a line for each batch.
    fn push_plan(&mut self, plan: &Plan)
        requires { length self.old ≤ 8 }
        ensures { self.new ≡ self.old ++ plan_text (plan_of plan.now) }
    {
        self.push("plan ");
        self.push_number(plan.charge);
        self.push("\n");
        self.push_lines(plan.schedule());
    }

    // A refusal, by its number.
    fn refused(refusal: Refusal) -> Text
        ensures { result ≡ refused_text (number refusal) }
    {
        let mut text = Text::new();
        text.push("refused ");
        text.push_number(refusal.number());
        text.push("\n");
        text
    }

    // What a search that is done came to: its plan, or that there is none.
    fn done(plan: Option<Plan>) -> Text
        ensures { result ≡ done_text (plan_in plan) }
    {
        let mut text = Text::new();
        match plan {
            None => text.push("none\n"),
            Some(plan) => text.push_plan(&plan),
        }
        text
    }

    // What a search that was stopped came to: that it was, and the plan held then if there is one.
    fn stopped(plan: Option<Plan>) -> Text
        ensures { result ≡ stopped_text (plan_in plan) }
    {
        let mut text = Text::new();
        text.push("stopped\n");
        if let Some(plan) = plan {
            text.push_plan(&plan);
        }
        text
    }
}

impl From<&Outcome> for Text {
    ghost from_gives = { λ outcome text. text ≡ outcome_text outcome.now };

    fn from(outcome: &Outcome) -> Text {
        match *outcome {
            Outcome::Refused(refusal) => Text::refused(refusal),
            Outcome::Done(plan) => Text::done(plan),
            Outcome::Stopped(plan) => Text::stopped(plan),
        }
    }
}

// Writes the text of an outcome over the start of the host's memory, and answers its length. A memory that is shorter is
// refused by 14 and left as it is; 320 bytes are never too short.
pub fn write_report(outcome: &Outcome, memory: &mut [u8]) -> Result<usize, Refusal>
    ensures text { Reported (outcome_text outcome.now) memory.old memory.new result }
    ensures short { length (outcome_text outcome.now) ≤ 320 }
{
    let text = Text::from(outcome);
    let bytes = text.bytes();
    let len = bytes.len();
    if memory.len() < len {
        return Err(Refusal::ShortMemory);
    }
    memory[0..len].copy_from_slice(bytes);
    Ok(len)
}
