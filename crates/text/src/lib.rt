// Text put into a lent buffer.

#![tactic(auto)]

pub mod dump;
pub mod lines;
pub mod paint;

ghost use Rattle.std.specs.Prelude.{◌+◌, ◌≤◌, length};
ghost use Rattle.text.specs.Text.{numeral, spaced_numeral, line_end, kind_name, did_text, Prints, Room};

use sound::Did;
use words::WordKind;

// A buffer that text is put into, and how many of its bytes have some.
#[derive(Drop)]
pub struct Output<'a> {
    pub bytes: &'a mut [u8],
    pub at: usize,
}

impl Output<'_> {
    // The bytes of a text.
    pub fn put(&mut self, text: &[u8])
        requires { Room self.old (length text.now) }
        ensures { Prints self.old text.now self.new }
    {
        let end = self.at + text.len();
        self.bytes[self.at..end].copy_from_slice(text);
        self.at = end;
    }

    // A number in decimal.
    pub fn number(&mut self, n: u64)
        requires { Room self.old 20 }
        ensures prints { Prints self.old (numeral n) self.new }
        ensures upper_bound { self.new.at ≤ self.old.at + 20 }
    {
        let mut buffer = itoa::Buffer::new();
        self.put(buffer.format(n).as_bytes());
    }

    // A space and a number.
    pub fn spaced(&mut self, n: u64)
        requires { Room self.old 21 }
        ensures prints { Prints self.old (spaced_numeral n) self.new }
        ensures upper_bound { self.new.at ≤ self.old.at + 21 }
    {
        self.put(b" ");
        self.number(n);
    }

    // The end of a line.
    pub fn ended(&mut self)
        requires { Room self.old 1 }
        ensures prints { Prints self.old line_end self.new }
        ensures upper_bound { self.new.at ≤ self.old.at + 1 }
    {
        self.put(b"\n");
    }

    // A space and the name of a kind of word.
    fn kind_name(&mut self, kind: WordKind)
        requires { Room self.old 8 }
        ensures prints { Prints self.old (kind_name kind) self.new }
        ensures upper_bound { self.new.at ≤ self.old.at + 8 }
    {
        self.put(match kind {
            WordKind::Load => b" load".as_slice(),
            WordKind::Pause => b" pause",
            WordKind::Repeat => b" repeat",
            WordKind::Control => b" control",
            WordKind::Nothing => b" nothing",
        });
    }

    // What a channel did: a dash if it sat out, else the kind and the low 12 bits of the word that it executed.
    pub fn did(&mut self, what: Did)
        requires { Room self.old 29 }
        ensures prints { Prints self.old (did_text what) self.new }
        ensures upper_bound { self.new.at ≤ self.old.at + 29 }
    {
        match what {
            Did::SatOut => self.put(b" -"),
            Did::Executed(kind, low) => {
                self.kind_name(kind);
                self.spaced(u64::from(low));
            }
        }
    }
}
