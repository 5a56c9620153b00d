// The forecast of a sound list: its lines and cycles before it plays.

#![tactic(auto)]

ghost use Rattle.std.specs.Prelude.{◌≡◌, [], ◌^◌, ◌≤◌};
ghost use Rattle.common.specs.Answers.{served};
ghost use Rattle.forecast.specs.Rule.{lines_of, cycles_of, open_count, answer_of, list_of};
ghost use Rattle.forecast.specs.Contract.{told, Forecasts};
ghost use Rattle.forecast.specs.Pass.{added, passed, Room, Open};

use common::answer::Refusal;
use common::size::RAM;
use sound::Access;

// The lines of a list, and the least and the most cycles that it takes.
#[derive(Clone, Copy)]
pub struct Length {
    pub lines: u64,
    pub cycles: u64,
    pub most: u64,
}

// The lines of one pass of a word.
#[tactic(auto, unfolding(crate::specs::Rule::lines_of))]
fn lines_of(word: u16, prescale: u8) -> u64
    ensures { result ≡ lines_of prescale word }
{
    let low = words::low_12(word);
    if !words::is_pause(words::kind_of(word)) || low == 0 {
        return 1;
    }
    u64::from(low) * (u64::from(prescale) + 1)
}

// The cycles of one pass of a word, if a LOAD meets this access.
#[tactic(auto, unfolding(crate::specs::Rule::cycles_of))]
fn cycles_of(word: u16, access: Access) -> u64
    ensures { result ≡ cycles_of access word }
{
    if words::is_load(words::kind_of(word)) {
        return 9 + u64::from(sound::disturbance(access));
    }
    2
}

// The open count after a word: that of the last REPEAT, 0 once a LOOP has come.
#[tactic(auto, unfolding(crate::specs::Rule::open_count))]
fn open_count(count: u16, word: u16) -> u16
    ensures { result ≡ open_count count word }
{
    if words::repeats(word) {
        return words::low_12(word);
    }
    if words::loops(word) {
        return 0;
    }
    count
}

// A cost summed up over the words so far: all of it, and one pass of the words since the last REPEAT.
#[derive(Clone, Copy, Default)]
struct Sums {
    total: u64,
    since: u64,
}

impl Sums {
    // One more word, of this cost: a LOOP goes back over the words since the REPEAT, itself with them.
    #[tactic(auto, unfolding(crate::specs::Pass::added))]
    fn added(self, word: u16, count: u16, cost: u64) -> Sums
        requires room { Room self }
        requires cost_bound { cost ≤ 2 ^ 20 }
        requires count_bound { count ≤ 4095 }
        ensures { result ≡ added word count cost self }
    {
        let total = self.total + cost;
        let body = self.since + cost;
        if words::stops(word) {
            return Sums { total, since: body };
        }
        if words::loops(word) {
            return Sums {
                total: total + u64::from(count) * body,
                since: 0,
            };
        }
        if words::repeats(word) {
            return Sums { total, since: 0 };
        }
        Sums { total, since: body }
    }
}

// The pass over the words so far: the sums, and the open count.
#[derive(Clone, Copy, Default)]
struct Scan {
    lines: Sums,
    cycles: Sums,
    most: Sums,
    count: u16,
}

impl Scan {
    // One more word.
    #[tactic(auto, using(crate::proofs::Pass::small))]
    fn passed(self, word: u16, prescale: u8) -> Scan
        requires { Open self }
        ensures { result ≡ passed prescale word self }
    {
        let count = self.count;
        let least = cycles_of(word, Access::Off);
        let most = cycles_of(word, Access::PsgWrite);
        Scan {
            lines: self.lines.added(word, count, lines_of(word, prescale)),
            cycles: self.cycles.added(word, count, least),
            most: self.most.added(word, count, most),
            count: open_count(count, word),
        }
    }
}

// The lines of the list at a start address, and the least and the most cycles, before it plays.
pub fn forecast(ram: &[u8], start: u16, prescale: u8) -> Result<Length, Refusal>
    ensures { Forecasts ram.now start prescale (told result) }
{
    if ram.len() != RAM {
        return Err(Refusal::WrongLength);
    }
    let first = start as usize / 2 * 2;
    let (words, _) = ram[first..].as_chunks::<2>();
    let mut scan = Scan::default();
    for bytes in words {
        let word = u16::from_le_bytes(*bytes);
        scan = scan.passed(word, prescale);
        if words::stops(word) {
            return Ok(Length {
                lines: scan.lines.total,
                cycles: scan.cycles.total,
                most: scan.most.total,
            });
        }
    }
    Err(Refusal::NoStop)
}

// The bytes of the list, its STOP with them, as a part of RAM; empty where the forecast is refused.
pub fn list(ram: &[u8], start: u16) -> &[u8]
    ensures { result.now ≡ served (answer_of ram.now start) (list_of ram.now start) [] }
{
    if ram.len() != RAM {
        return &ram[..0];
    }
    let rest = &ram[start as usize / 2 * 2..];
    let (words, _) = rest.as_chunks::<2>();
    let stop = |word: &[u8; 2]| words::stops(u16::from_le_bytes(*word));
    match words.iter().position(stop) {
        Some(before) => &rest[..(before + 1) * 2],
        None => &ram[..0],
    }
}
