// The C interface: every call under a C name, with structs by value and slices as a pointer and a length. `plus_c` exports them.

#![tactic(auto)]

ghost use Rattle.std.specs.Prelude.{◌≡◌};
ghost use Rattle.chip.specs.Promises.{Answers};
ghost use Rattle.chip.specs.Interrupts.{Acknowledges};
ghost use Rattle.chip.specs.Ports.{Selects, data_answer, data_written, gate_answer, gate_written};
ghost use Rattle.chip.specs.Reset.{Reset};
ghost use Rattle.editors.specs.Table.{editor_by};
ghost use Rattle.picture.specs.Palette.{grey_of};
ghost use Rattle.page.specs.Page.{Reads, Writes};
ghost use Rattle.placing.specs.Contract.{GivesArea};
ghost use Rattle.export.specs.Export.{Exports};
ghost use Rattle.listing.specs.Contract.{PrintsWords, ReadsText};
ghost use Rattle.mend.specs.Rule.{change_at};
ghost use Rattle.take.specs.Record.{packed, unpacked};
ghost use Rattle.take.specs.Open.{Opening, ReadsRecord};
ghost use Rattle.take.specs.Contract.{WritesTake};
ghost use Rattle.replay.specs.Contract.{Replays};
ghost use Rattle.plus.specs.Report.{accesses_by, kind_number, low_of};
ghost use Rattle.plus.specs.Promises.{LineTold, LengthTold};
ghost use Rattle.plus.specs.Undo.{UndoTold};
ghost use Rattle.plus.specs.Mute.{MuteTold};
ghost use Rattle.plus.specs.Start.{StartTold};
ghost use Rattle.plus.specs.Mend.{MendTold};
ghost use Rattle.plus.specs.Lists.{PlaceTold, RemoveTold};
ghost use Rattle.plus.specs.Built.{Built};

use chip::{Acknowledged, Answered, Chip};
use common::answer::DONE;
use editors::{Editor, Owners};
use listing::{Printed, ReadBack};
use mend::{Change, Mended};
use page::ByteRead;
use placing::PlacedList;
use replay::Replayed;
use sound::{Accesses, Did, Entry};
use take::{Opened, Record, RecordRead, Written};
use words::WordKind;

// A line's answer, without enums: of each channel the number of what it did, and the low 12 bits of its word.
#[repr(C)]
#[derive(Clone, Copy)]
pub struct PlusStepped {
    pub chip: Chip,
    pub answer: u8,
    pub cycles: u8,
    pub kinds: [u8; 3],
    pub lows: [u16; 3],
}

// A forecast's answer. The list is that part of RAM which starts at `offset` and has `length` bytes.
#[repr(C)]
#[derive(Clone, Copy)]
pub struct PlusLength {
    pub answer: u8,
    pub lines: u64,
    pub cycles: u64,
    pub most: u64,
    pub offset: u32,
    pub length: u32,
}

// What the library was built with: its version as one number, and how many bytes a chip's state has in C.
#[repr(C)]
#[derive(Clone, Copy)]
pub struct PlusBuilt {
    pub version: u32,
    pub state: u32,
}

// The version, and the bytes of the state.
pub fn plus_built() -> PlusBuilt
    ensures { Built result }
{
    PlusBuilt {
        version: 1400,
        state: 280,
    }
}

// The chip after reset.
pub fn plus_reset() -> Chip
    ensures { Reset result }
{
    chip::start::reset()
}

// A byte written to BCxx.
pub fn plus_write_bc(chip: Chip, byte: u8) -> Answered
    ensures { Selects chip byte result }
{
    chip::ports::write_bc(chip, byte)
}

// A 6845 data write.
pub fn plus_write_bd(chip: Chip, byte: u8) -> Answered
    ensures { Answers (data_answer chip) (data_written chip byte) chip result }
{
    chip::ports::write_bd(chip, byte)
}

// A byte written to 7Fxx.
pub fn plus_write_7f(chip: Chip, byte: u8) -> Answered
    ensures { Answers (gate_answer byte) (gate_written chip byte) chip result }
{
    chip::ports::write_7f(chip, byte)
}

// The host gives the table of owners; both undo records are empty then.
#[tactic(auto, using(crate::proofs::Runs::over_runs))]
pub fn plus_start(chip: Chip, owners: Owners) -> Answered
    ensures { StartTold chip owners result }
{
    chip::table::start(chip, owners)
}

// A byte that an editor reads from the page.
pub fn plus_page_read(chip: Chip, editor: u8, store: &[u8], address: u16, bus: u8) -> ByteRead
    ensures { Reads chip (editor_by editor) store.now address bus result }
{
    page::page_read(chip, Editor::from(editor), store, address, bus)
}

// A byte that an editor writes to the page, and the write kept for its undo.
pub fn plus_page_write(
    chip: Chip,
    editor: u8,
    store: &mut [u8],
    places: &mut [u32; 256],
    address: u16,
    byte: u8,
) -> Answered
    ensures { Writes chip (editor_by editor) store.old places.old address byte store.new places.new result }
{
    page::page_write(chip, Editor::from(editor), store, places, address, byte)
}

// The newest write of an editor's that is kept, taken back.
pub fn plus_undo(chip: Chip, editor: u8, store: &mut [u8], places: &[u32; 256]) -> Answered
    ensures { UndoTold chip (editor_by editor) store.old places.now store.new result }
{
    page::undo(chip, Editor::from(editor), store, places)
}

// Gives the area of RAM for lists, by its bounds.
pub fn plus_area(chip: Chip, from: u32, upto: u32) -> Answered
    ensures { GivesArea chip from upto result }
{
    placing::area(chip, from, upto)
}

// Mutes a channel, whose LOADs then leave the PSG, or has it heard again.
#[tactic(auto, using(crate::proofs::Runs::over_runs))]
pub fn plus_mute(chip: Chip, channel: u16, on: bool) -> Answered
    ensures { MuteTold chip channel on result }
{
    chip::mute::mute(chip, channel, on)
}

// Places a list in the area, with the places of the lists lent, and copies it into RAM.
#[tactic(auto, using(crate::proofs::Runs::over_runs))]
pub fn plus_place(chip: Chip, places: &mut [u32; 64], ram: &mut [u8], list: &[u8]) -> PlacedList
    ensures { PlaceTold chip places.old ram.old list.now places.new ram.new result }
{
    placing::place(chip, places, ram, list)
}

// Removes a placed list, by its handle.
#[tactic(auto, using(crate::proofs::Runs::over_runs))]
pub fn plus_remove(chip: Chip, places: &[u32; 64], handle: u32) -> Answered
    ensures { RemoveTold chip places.now handle result }
{
    placing::remove(chip, places, handle)
}

// The contents of the registers outside the pixels, into 477 bytes.
pub fn plus_export(chip: Chip, out: &mut [u8]) -> u8
    ensures { Exports chip out.old out.new result }
{
    export::export(chip, out)
}

// Interrupt acknowledge.
pub fn plus_acknowledge(chip: Chip) -> Acknowledged
    ensures { Acknowledges chip result }
{
    chip::acknowledge::acknowledge(chip)
}

// What a channel did, as a number.
fn kind_number(entry: Entry) -> u8
    ensures { result ≡ kind_number entry.did }
{
    match entry.did {
        Did::SatOut => 0,
        Did::Executed(WordKind::Load, _) => 1,
        Did::Executed(WordKind::Pause, _) => 2,
        Did::Executed(WordKind::Repeat, _) => 3,
        Did::Executed(WordKind::Control, _) => 4,
        Did::Executed(WordKind::Nothing, _) => 5,
    }
}

// The low 12 bits of the word that a channel executed, or 0.
fn low_of(entry: Entry) -> u16
    ensures { result ≡ low_of entry.did }
{
    match entry.did {
        Did::SatOut => 0,
        Did::Executed(_, low) => low,
    }
}

// What the processor does at the 8255 for each channel, from numbers.
fn accesses(first: u8, second: u8, third: u8) -> Accesses
    ensures { result ≡ accesses_by first second third }
{
    Accesses {
        first: sound::access_by(first),
        second: sound::access_by(second),
        third: sound::access_by(third),
    }
}

// Draws the current line into 640 bytes, and steps the chip to the next. The numbers say what the processor does at the 8255 for each
// channel.
pub fn plus_line(
    chip: Chip,
    ram: &[u8],
    store: &[u8],
    line: &mut [u8],
    first: u8,
    second: u8,
    third: u8,
) -> PlusStepped
    ensures { LineTold chip ram.now store.now (accesses_by first second third) line.old line.new result }
{
    let stepped = line::line(chip, ram, store, line, accesses(first, second, third));
    let entries = stepped.report.entries;
    PlusStepped {
        chip: stepped.chip,
        answer: stepped.answer,
        cycles: stepped.report.cycles,
        kinds: entries.map(kind_number),
        lows: entries.map(low_of),
    }
}

// The lines of the list at a start address, the least and the most cycles, and where the list stands.
pub fn plus_forecast(ram: &[u8], start: u16, prescale: u8) -> PlusLength
    ensures { LengthTold ram.now start prescale result }
{
    match forecast::forecast(ram, start, prescale) {
        Ok(told) => PlusLength {
            answer: DONE,
            lines: told.lines,
            cycles: told.cycles,
            most: told.most,
            offset: start as u32 / 2 * 2,
            length: forecast::list(ram, start).len() as u32,
        },
        Err(refusal) => PlusLength {
            answer: refusal.number(),
            lines: 0,
            cycles: 0,
            most: 0,
            offset: 0,
            length: 0,
        },
    }
}

// The grey of a palette entry, from its two bytes.
pub fn plus_grey(low: u8, high: u8) -> u8
    ensures { result ≡ grey_of low high }
{
    picture::palette::grey(low, high)
}

// Prints words as text.
pub fn plus_print(words: &[u16], text: &mut [u8]) -> Printed
    ensures { PrintsWords words.now text.old text.new result.answer result.size }
{
    listing::print(words, text)
}

// Reads such a text back.
pub fn plus_read(text: &[u8], words: &mut [u16]) -> ReadBack
    ensures { ReadsText text.now words.old words.new result.answer result.count result.line }
{
    listing::read(text, words)
}

// Mends the words of a buffer that are in use, where they stand, and reports every change.
pub fn plus_mend(words: &mut [u16], used: usize, report: &mut [u64]) -> Mended
    ensures { MendTold words.old used report.old words.new report.new result }
{
    mend::mend(words, used, report)
}

// A change of a report, by its number from 0.
pub fn plus_change(report: &[u64], number: usize) -> Change
    ensures { result ≡ change_at report.now number }
{
    mend::change_at(report, number)
}

// A record of a take as a number of 64 bits.
pub fn plus_take_pack(entry: Record) -> u64
    ensures { result ≡ packed entry }
{
    take::pack(entry)
}

// The record in such a number.
pub fn plus_take_unpack(number: u64) -> Record
    ensures { result ≡ unpacked number }
{
    take::unpack(number)
}

// Writes a take, its records lent as numbers.
pub fn plus_take_write(comment: &[u8], records: &[u64], output: &mut [u8]) -> Written
    ensures { WritesTake comment.now records.now output.old output.new result.answer result.size result.bad }
{
    take::write(comment, records, output)
}

// Opens a take: its record count, and the offset of its first record.
pub fn plus_take_open(file: &[u8]) -> Opened
    ensures { Opening file.now result.answer result.bad result.count result.offset }
{
    take::open(file)
}

// The record of a take with this number, from 1.
pub fn plus_take_record(file: &[u8], number: usize) -> RecordRead
    ensures { ReadsRecord file.now number result.answer result.entry }
{
    take::record_at(file, number)
}

// Plays a take from reset, whose starts all give these owners.
pub fn plus_replay(
    ram: &[u8],
    store: &mut [u8],
    song: &mut [u32; 256],
    picture: &mut [u32; 256],
    owners: Owners,
    file: &[u8],
) -> Replayed
    ensures { Replays ram.now store.old song.old picture.old owners file.now store.new song.new picture.new result }
{
    replay::replay(ram, store, song, picture, owners, file)
}
