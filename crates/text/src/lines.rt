// The lines of output.
ghost use Rattle.std.specs.Prelude.{◌+◌, ◌*◌, ◌≤◌, length};
ghost use Rattle.forecast.specs.Contract.{told};
ghost use Rattle.text.specs.Text.{Prints, Room};
ghost use Rattle.text.specs.Lines.{answer_line, report_text, step_line, forecast_line, bad_line, short_line};

use crate::Output;
use common::answer::{DONE, Refusal};
use forecast::Length;
use sound::Report;

// What is printed of a list that has no length.
const NONE: Length = Length {
    lines: 0,
    cycles: 0,
    most: 0,
};

impl Output<'_> {
    // An answer, and other numbers behind it.
    pub fn answered(&mut self, answer: u8, others: &[u64])
        requires { Room self.old (21 * (length others.now + 1)) }
        ensures prints { Prints self.old (answer_line answer others.now) self.new }
        ensures upper_bound { self.new.at ≤ self.old.at + 21 * (length others.now + 1) }
    {
        self.number(u64::from(answer));
        for n in others {
            self.spaced(*n);
        }
        self.ended();
    }

    // A report: the cycles and the three channels.
    pub fn reported(&mut self, report: Report)
        requires { Room self.old 108 }
        ensures prints { Prints self.old (report_text report) self.new }
        ensures upper_bound { self.new.at ≤ self.old.at + 108 }
    {
        self.spaced(u64::from(report.cycles));
        for entry in &report.entries {
            self.did(entry.did);
        }
    }

    // A line that was stepped: the answer and the report.
    pub fn stepped(&mut self, answer: u8, report: Report)
        requires { Room self.old 129 }
        ensures prints { Prints self.old (step_line answer report) self.new }
        ensures upper_bound { self.new.at ≤ self.old.at + 129 }
    {
        self.number(u64::from(answer));
        self.reported(report);
        self.ended();
    }

    // A forecast: the answer, lines, least cycles, how many bytes the list takes, and most cycles.
    pub fn forecast(&mut self, foretold: Result<Length, Refusal>, bytes: usize)
        requires { Room self.old 105 }
        ensures prints { Prints self.old (forecast_line (told foretold).answer (told foretold).lines (told foretold).cycles bytes (told foretold).most) self.new }
        ensures upper_bound { self.new.at ≤ self.old.at + 105 }
    {
        match foretold {
            Ok(length) => self.forecast_by(DONE, length, bytes),
            Err(refusal) => self.forecast_by(refusal.number(), NONE, bytes),
        }
    }

    // The same by any answer number, with any lines and cycles beside it.
    pub fn forecast_by(&mut self, answer: u8, length: Length, bytes: usize)
        requires { Room self.old 105 }
        ensures prints { Prints self.old (forecast_line answer length.lines length.cycles bytes length.most) self.new }
        ensures upper_bound { self.new.at ≤ self.old.at + 105 }
    {
        let bytes = bytes as u64;
        self.answered(answer, &[length.lines, length.cycles, bytes, length.most]);
    }

    // A record that names no call.
    pub fn bad(&mut self)
        requires { Room self.old 4 }
        ensures prints { Prints self.old bad_line self.new }
        ensures upper_bound { self.new.at ≤ self.old.at + 4 }
    {
        self.put(b"bad\n");
    }

    // Input that ends too early.
    pub fn short(&mut self)
        requires { Room self.old 6 }
        ensures prints { Prints self.old short_line self.new }
        ensures upper_bound { self.new.at ≤ self.old.at + 6 }
    {
        self.put(b"short\n");
    }
}
