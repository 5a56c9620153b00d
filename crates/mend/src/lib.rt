// Mends the words of an old list: reserved codes, stray bits, and a STOP after the last where there is none.

#![tactic(auto)]

ghost use Rattle.std.specs.Prelude.{◌≡◌, [], ◌∷◌, ◌+◌, ◌*◌, ◌≤◌, ◌<◌, length};
ghost use Rattle.std.proofs.lemmas.List.Edits.{sets};
ghost use Rattle.mend.specs.Rule.{mended, changes_from, room_of, change_at};
ghost use Rattle.mend.specs.Contract.{Mending, Mends};
ghost use Rattle.mend.specs.Passes.{change_of, told, Sees, MendsWord, MendsWords};

use common::answer::{DONE, Refusal};
use words::WordKind;

// One change: the place of the word, from 0, the word that stood there and the one that stands there now.
#[repr(C)]
#[derive(Clone, Copy, Default)]
pub struct Change {
    pub place: u64,
    pub old: u16,
    pub new: u16,
}

// What mending gives: the answer, how many words are in use afterwards, and how many changes the report has.
#[repr(C)]
#[derive(Clone, Copy)]
pub struct Mended {
    pub answer: u8,
    pub used: usize,
    pub changes: usize,
}

// The control word that does nothing.
const NOP: u16 = 0x4000;

// The one that stops and does nothing else.
const STOP: u16 = 0x4020;

// What stays of a control word: its code, LOOP, INT and STOP.
const KEPT: u16 = 0x4031;

// A word mended.
#[tactic(auto, using(crate::proofs::Word::kept), unfolding(crate::specs::Rule::mended, words::specs::Words::kind_of))]
pub fn mended_word(word: u16) -> u16
    ensures { result ≡ mended word }
{
    match words::kind_of(word) {
        WordKind::Pause if words::low_12(word) == 0 => NOP,
        WordKind::Load | WordKind::Pause | WordKind::Repeat => word,
        WordKind::Control => word & KEPT,
        WordKind::Nothing => NOP,
    }
}

// What stands among words: how many that mending changes, and whether a STOP.
#[derive(Clone, Copy)]
struct Seen {
    changes: usize,
    stop: bool,
}

// A pass over words that only measures.
#[tactic(auto, using(crate::proofs::Measuring::steps), unfolding(crate::specs::Rule::changes_from, words::specs::Words::has_stop))]
fn measured(words: &[u16]) -> Seen
    ensures { Sees words.now result.changes result.stop }
{
    let mut changes = 0;
    let mut stop = false;
    for word in words {
        changes += usize::from(mended_word(*word) != *word);
        stop |= words::stops(*word);
    }
    Seen { changes, stop }
}

// Puts a change into the report behind so many; by index, since what is written through chunks_exact_mut is not known afterwards.
fn put_change(report: &mut [u64], count: usize, change: Change)
    requires { count < room_of report.old }
    ensures { report.new ≡ sets report.old (count * 2) (change.place ∷ (change.old * 65536 + change.new) ∷ []) }
{
    report[count * 2] = change.place;
    report[count * 2 + 1] = u64::from(change.old) * 65536 + u64::from(change.new);
}

// Mends a word of a place and, if that changes it, reports it behind so many changes; it gives how many there are then.
#[tactic(auto, unfolding(crate::specs::Rule::numbers_of))]
fn mend_word(word: &mut u16, place: usize, report: &mut [u64], count: usize) -> usize
    requires { count + length (change_of place word.old) ≤ room_of report.old }
    ensures { MendsWord word.old place report.old count word.new report.new result }
{
    let old = *word;
    let new = mended_word(old);
    if new == old {
        return count;
    }
    let change = Change {
        place: place as u64,
        old,
        new,
    };
    put_change(report, count, change);
    *word = new;
    count + 1
}

// A pass over words that mends them where they stand and reports each change.
#[tactic(auto, unfolding(crate::specs::Rule::changes_from, crate::specs::Rule::numbers_of))]
fn mend_words(words: &mut [u16], report: &mut [u64])
    requires { length (changes_from 0 words.old) ≤ room_of report.old }
    ensures { MendsWords words.old report.old words.new report.new }
{
    let mut count = 0;
    for (place, word) in words.iter_mut().enumerate() {
        count = mend_word(word, place, report, count);
    }
}

// Mends the words in use, and puts a STOP after them where none stands among them.
fn mend_list(words: &mut [u16], used: usize, report: &mut [u64]) -> Result<Mended, Refusal>
    ensures { Mending words.old used report.old words.new report.new (told result) }
{
    if words.len() < used {
        return Err(Refusal::WrongLength);
    }
    let seen = measured(&words[..used]);
    let added = usize::from(!seen.stop);
    if words.len() - used < added {
        return Err(Refusal::NoRoomForStop);
    }
    let changes = seen.changes + added;
    if report.len() / 2 < changes {
        return Err(Refusal::ReportTooSmall);
    }
    mend_words(&mut words[..used], report);
    if !seen.stop {
        let change = Change {
            place: used as u64,
            old: words[used],
            new: STOP,
        };
        put_change(report, seen.changes, change);
        words[used] = STOP;
    }
    Ok(Mended {
        answer: DONE,
        used: used + added,
        changes,
    })
}

// Mends the words of a buffer that are in use, where they stand, and reports every change. A change takes two numbers of the report: its
// place, then 65,536 times the old word and the new one.
pub fn mend(words: &mut [u16], used: usize, report: &mut [u64]) -> Mended
    ensures { Mends words.old used report.old words.new report.new result }
{
    match mend_list(words, used, report) {
        Ok(mended) => mended,
        Err(refusal) => Mended {
            answer: refusal.number(),
            used: 0,
            changes: 0,
        },
    }
}

// A change of a report by its number from 0; all 0 where the report has no room for so many.
#[tactic(auto, unfolding(crate::specs::Rule::change_at))]
pub fn change_at(report: &[u64], number: usize) -> Change
    ensures { result ≡ change_at report.now number }
{
    if report.len() / 2 <= number {
        return Change::default();
    }
    let words = report[number * 2 + 1];
    Change {
        place: report[number * 2],
        old: (words / 65536 % 65536) as u16,
        new: (words % 65536) as u16,
    }
}
