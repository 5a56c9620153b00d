// The export and the PSG as text.
ghost use Rattle.std.specs.Prelude.{◌≡◌, ◌+◌, ◌*◌, ◌≤◌, length};
ghost use Rattle.text.specs.Text.{Prints, Room};
ghost use Rattle.text.specs.Paint.{characters};
ghost use Rattle.text.specs.Dump.{digit_at, digit_line, export_line, psg_line};

use crate::Output;
use crate::paint::character;
use chip::Chip;
use common::answer::DONE;

impl Output<'_> {
    // Bytes in hexadecimal, two digits each.
    fn digits(&mut self, bytes: &[u8])
        requires { Room self.old (2 * length bytes.now) }
        ensures prints { Prints self.old (characters (digit_at bytes.now) (2 * length bytes.now)) self.new }
        ensures value { self.new.at ≡ self.old.at + 2 * length bytes.now }
    {
        for byte in bytes {
            self.put(&[character(*byte / 16), character(*byte % 16)]);
        }
    }

    // A line of an answer and bytes.
    fn dumped(&mut self, answer: u8, bytes: &[u8])
        requires { Room self.old (2 * length bytes.now + 22) }
        ensures prints { Prints self.old (digit_line answer bytes.now (2 * length bytes.now)) self.new }
        ensures upper_bound { self.new.at ≤ self.old.at + 2 * length bytes.now + 22 }
    {
        self.number(u64::from(answer));
        self.put(b" ");
        self.digits(bytes);
        self.ended();
    }

    // The line of an order that exports.
    pub fn exported(&mut self, chip: Chip)
        requires { Room self.old 1000 }
        ensures prints { Prints self.old (export_line chip) self.new }
        ensures upper_bound { self.new.at ≤ self.old.at + 1000 }
    {
        let mut bytes = [0u8; 477];
        let answer = export::export(chip, &mut bytes);
        self.dumped(answer, &bytes);
    }

    // The line of an order that shows the PSG's registers.
    #[tactic(auto, unfolding(crate::specs::Dump::psg_line))]
    pub fn psg(&mut self, registers: [u8; 16])
        requires { Room self.old 54 }
        ensures prints { Prints self.old (psg_line registers) self.new }
        ensures upper_bound { self.new.at ≤ self.old.at + 54 }
    {
        self.dumped(DONE, &registers);
    }
}
