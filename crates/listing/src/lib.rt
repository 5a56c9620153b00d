// A list of words printed as text, and such a text read back.

#![tactic(auto)]

ghost use Rattle.std.specs.Prelude.{◌≡◌, [], ◌≤◌, leb, length};
ghost use Rattle.common.specs.Refusals.{number};
ghost use Rattle.common.specs.Storing.{Puts};
ghost use Rattle.listing.specs.Text.{text_of, Parsed};
ghost use Rattle.listing.specs.Contract.{PrintsWords, ReadsText};
ghost use Rattle.listing.specs.Passes.{Checked, Listed};

use common::answer::{DONE, Refusal};
use compare::begins_with_line;
use guess::guess;
use mnemonic::{put_line, width};

// What printing gives: the answer and the bytes written.
#[repr(C)]
#[derive(Clone, Copy)]
pub struct Printed {
    pub answer: u8,
    pub size: usize,
}

// Prints words into a buffer for text.
pub fn print(words: &[u16], text: &mut [u8]) -> Printed
    ensures { PrintsWords words.now text.old text.new result.answer result.size }
{
    if !fits(words, text.len()) {
        return Printed {
            answer: Refusal::TooSmall.number(),
            size: 0,
        };
    }
    let size = written(words, text);
    Printed { answer: DONE, size }
}

// Whether the text of words has room.
#[tactic(auto, using(crate::proofs::Texts::room_steps))]
fn fits(words: &[u16], room: usize) -> bool
    ensures { result ≡ leb (length (text_of words.now)) room }
{
    let mut left = room;
    for word in words {
        let size = width(*word);
        if left < size {
            return false;
        }
        left -= size;
    }
    true
}

// Writes the text of words, which has room, and gives its size.
fn written(words: &[u16], text: &mut [u8]) -> usize
    requires { length (text_of words.now) ≤ length text.old }
    ensures { Puts text.old 0 (text_of words.now) text.new result }
{
    let mut at = 0;
    for word in words {
        at = put_line(text, at, *word);
    }
    at
}

// What reading gives: the answer, the words written, and the number of the first bad line.
#[repr(C)]
#[derive(Clone, Copy)]
pub struct ReadBack {
    pub answer: u8,
    pub count: usize,
    pub line: usize,
}

// Reads a text into a buffer for words.
pub fn read(text: &[u8], words: &mut [u16]) -> ReadBack
    ensures { ReadsText text.now words.old words.new result.answer result.count result.line }
{
    let count = match checked(text) {
        Ok(count) => count,
        Err(FirstBad(line)) => return refused(Refusal::NotListing, line),
    };
    if words.len() < count {
        return refused(Refusal::TooSmall, 0);
    }
    stored(text, &mut words[..count]);
    ReadBack {
        answer: DONE,
        count,
        line: 0,
    }
}

// No word is written.
fn refused(refusal: Refusal, line: usize) -> ReadBack
    ensures { (result.answer ≡ number refusal) × (result.count ≡ 0) × (result.line ≡ line) }
{
    ReadBack {
        answer: refusal.number(),
        count: 0,
        line,
    }
}

// The number of the first line that is no word's, from 1.
#[derive(Clone, Copy)]
struct FirstBad(usize);

// How many lines a text has, if each is a word's.
fn checked(text: &[u8]) -> Result<usize, FirstBad>
    ensures { Checked text.now result }
{
    let mut rest = text;
    let mut count = 0;
    while !rest.is_empty() {
        let word = guess(rest);
        if !begins_with_line(rest, word) {
            return Err(FirstBad(count + 1));
        }
        rest = rest.split_at(width(word)).1;
        count += 1;
    }
    Ok(count)
}

// Stores the words of a text that is as many lines of words as there are places.
fn stored(text: &[u8], places: &mut [u16])
    requires { Listed text.now (length places.old) }
    ensures { Parsed text.now places.new [] }
{
    let mut rest = text;
    for place in places.iter_mut() {
        let word = guess(rest);
        *place = word;
        rest = rest.split_at(width(word)).1;
    }
}
