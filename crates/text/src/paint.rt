// A line as text.
ghost use Rattle.std.specs.Prelude.{◌≡◌, ◌+◌, ◌≤◌, get_or};
ghost use Rattle.text.specs.Text.{Prints, Room};
ghost use Rattle.text.specs.Paint.{character, characters, painted_line};

use crate::Output;
use common::answer::DONE;
use sound::Report;

// The character of a palette entry.
pub fn character(entry: u8) -> u8
    ensures { result ≡ character entry }
{
    match entry {
        0..10 => b'0' + entry,
        10..32 => b'a' + (entry - 10),
        _ => b'?',
    }
}

impl Output<'_> {
    // The characters of 640 entries.
    fn entries(&mut self, line: &[u8])
        requires { Room self.old 640 }
        ensures prints { Prints self.old (characters (λ x. get_or line.now x 0) 640) self.new }
        ensures value { self.new.at ≡ self.old.at + 640 }
    {
        for x in 0..640 {
            self.put(&[character(common::byte_at(line, x))]);
        }
    }

    // The line of a record that shows a line: the answer, and if it was served the entries and the report.
    pub fn painted(&mut self, answer: u8, line: &[u8], report: Report)
        requires { Room self.old 770 }
        ensures prints { Prints self.old (painted_line answer (λ x. get_or line.now x 0) report) self.new }
        ensures upper_bound { self.new.at ≤ self.old.at + 770 }
    {
        self.number(u64::from(answer));
        if answer == DONE {
            self.put(b" ");
            self.entries(line);
            self.reported(report);
        }
        self.ended();
    }
}
