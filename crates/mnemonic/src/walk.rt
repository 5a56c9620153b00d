// A word's line handed to a sink, part after part. What is called at more than one place is inlined, so that a sink stays in registers,
// and digits beside each other are one part, since each part is asked for its room.
ghost use Rattle.std.specs.Prelude.{◌≡◌, List, [], ◌∷◌, ◌++◌, ℕ, ◌/◌, ◌≤◌, ◌<◌};
ghost use Rattle.digits.specs.Digits.{digits, decimal};
ghost use Rattle.mnemonic.specs.Mnemonic.{text_line};
ghost use Rattle.mnemonic.specs.Parts.{decimal_then, load_line_of, word_line};

// What takes the bytes of a line, in order.
pub trait Sink {
    // A sink before some bytes, these bytes, and the sink after them.
    ghost takes: { Self → List ℕ → Self → Type 0 };

    // Takes the bytes of a part.
    fn part(&mut self, bytes: &[u8])
        ensures { takes self.old bytes.now self.new };

    // Takes one byte.
    fn byte(&mut self, byte: u8)
        ensures { takes self.old (byte ∷ []) self.new }
    {
        self.part(&[byte]);
    }

    // Bytes after bytes are taken as if they came at once.
    ghost joined: { (s t u : Self) (a b : List ℕ) → takes s a t → takes t b u → takes s (a ++ b) u };
}

// The last digit of a number in a base.
fn put_one<S: Sink>(sink: &mut S, base: u16, n: u16)
    requires { (0 < base) × (base ≤ 16) }
    ensures { S.takes sink.old (digits base 1 n) sink.new }
{
    sink.byte(digits::character(n % base));
}

// The last two digits of a number in a base.
fn put_two<S: Sink>(sink: &mut S, base: u16, n: u16)
    requires { (0 < base) × (base ≤ 16) }
    ensures { S.takes sink.old (digits base 2 n) sink.new }
{
    sink.part(&[
        digits::character(n / base % base),
        digits::character(n % base),
    ]);
}

// A number in decimal, of four digits at most.
#[inline(always)]
fn put_decimal<S: Sink>(sink: &mut S, n: u16)
    ensures { S.takes sink.old (decimal n) sink.new }
{
    match n {
        0..=9 => put_one(sink, 10, n),
        10..=99 => put_two(sink, 10, n),
        100..=999 => {
            put_one(sink, 10, n / 100);
            put_two(sink, 10, n);
        }
        _ => {
            put_two(sink, 10, n / 100);
            put_two(sink, 10, n);
        }
    }
}

// A name, a number and the character after it.
#[inline(always)]
fn put_number<S: Sink>(sink: &mut S, name: &[u8], n: u16, after: u8)
    ensures { S.takes sink.old (name.now ++ decimal_then n after) sink.new }
{
    sink.part(name);
    put_decimal(sink, n);
    sink.byte(after);
}

// LOAD, its register and its data.
fn put_load<S: Sink>(sink: &mut S, word: u16)
    ensures { S.takes sink.old (load_line_of word) sink.new }
{
    put_number(sink, b"LOAD ", word / 256, b' ');
    let high = digits::character(word % 256 / 16);
    let low = digits::character(word % 256);
    sink.part(&[high, low, b'\n']);
}

// A word with no name of its own.
#[inline(always)]
fn put_word<S: Sink>(sink: &mut S, word: u16)
    ensures { S.takes sink.old (word_line word) sink.new }
{
    let high = digits::character(word / 256 / 16);
    let next = digits::character(word / 256);
    let third = digits::character(word / 16);
    let low = digits::character(word);
    sink.part(&[b'W', b'O', b'R', b'D', b' ', high, next, third, low, b'\n']);
}

// A control word, with LOOP and without it.
#[tactic(auto, using(crate::proofs::Lines::unnamed_line), unfolding(crate::specs::Mnemonic::text_line, words::specs::Words::kind_of))]
fn put_control<S: Sink>(sink: &mut S, word: u16)
    requires { word / 4096 ≡ 4 }
    ensures { S.takes sink.old (text_line word) sink.new }
{
    match word {
        0x4000 => sink.part(b"NOP\n"),
        0x4001 => sink.part(b"LOOP\n"),
        0x4010 => sink.part(b"INT\n"),
        0x4011 => sink.part(b"LOOP+INT\n"),
        0x4020 => sink.part(b"STOP\n"),
        0x4021 => sink.part(b"LOOP+STOP\n"),
        0x4030 => sink.part(b"INT+STOP\n"),
        0x4031 => sink.part(b"LOOP+INT+STOP\n"),
        _ => put_word(sink, word),
    }
}

// The line of a word.
#[tactic(auto, using(crate::proofs::Lines::forms))]
pub fn line<S: Sink>(sink: &mut S, word: u16)
    ensures { S.takes sink.old (text_line word) sink.new }
{
    match word / 4096 {
        0 => put_load(sink, word),
        1 => put_number(sink, b"PAUSE ", word % 4096, b'\n'),
        2 => put_number(sink, b"REPEAT ", word % 4096, b'\n'),
        4 => put_control(sink, word),
        _ => put_word(sink, word),
    }
}
