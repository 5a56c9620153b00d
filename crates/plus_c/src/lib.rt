// The calls of `plus` as C finds them in libplus.a: each under its name, with the same clauses.

#![tactic(auto)]

ghost use Rattle.std.specs.Prelude.{◌≡◌};
ghost use Rattle.chip.specs.Promises.{Answers};
ghost use Rattle.chip.specs.Interrupts.{Acknowledges};
ghost use Rattle.chip.specs.Ports.{Selects, data_answer, data_written, gate_answer, gate_written};
ghost use Rattle.chip.specs.Reset.{Reset};
ghost use Rattle.editors.specs.Table.{editor_by};
ghost use Rattle.picture.specs.Palette.{grey_of};
ghost use Rattle.page.specs.Page.{Reads, Writes};
ghost use Rattle.placing.specs.Contract.{GivesArea};
ghost use Rattle.export.specs.Export.{Exports};
ghost use Rattle.listing.specs.Contract.{PrintsWords, ReadsText};
ghost use Rattle.mend.specs.Rule.{change_at};
ghost use Rattle.take.specs.Record.{packed, unpacked};
ghost use Rattle.take.specs.Open.{Opening, ReadsRecord};
ghost use Rattle.take.specs.Contract.{WritesTake};
ghost use Rattle.replay.specs.Contract.{Replays};
ghost use Rattle.plus.specs.Report.{accesses_by};
ghost use Rattle.plus.specs.Promises.{LineTold, LengthTold};
ghost use Rattle.plus.specs.Undo.{UndoTold};
ghost use Rattle.plus.specs.Mute.{MuteTold};
ghost use Rattle.plus.specs.Start.{StartTold};
ghost use Rattle.plus.specs.Mend.{MendTold};
ghost use Rattle.plus.specs.Lists.{PlaceTold, RemoveTold};
ghost use Rattle.plus.specs.Built.{Built};

use chip::{Acknowledged, Answered, Chip};
use editors::Owners;
use listing::{Printed, ReadBack};
use mend::{Change, Mended};
use page::ByteRead;
use placing::PlacedList;
use plus::{PlusBuilt, PlusLength, PlusStepped};
use replay::Replayed;
use take::{Opened, Record, RecordRead, Written};

// The version, and the bytes of the state.
#[unsafe(no_mangle)]
pub extern "C" fn plus_built() -> PlusBuilt
    ensures { Built result }
{
    plus::plus_built()
}

// The chip after reset.
#[unsafe(no_mangle)]
pub extern "C" fn plus_reset() -> Chip
    ensures { Reset result }
{
    plus::plus_reset()
}

// A byte written to BCxx.
#[unsafe(no_mangle)]
pub extern "C" fn plus_write_bc(chip: Chip, byte: u8) -> Answered
    ensures { Selects chip byte result }
{
    plus::plus_write_bc(chip, byte)
}

// A 6845 data write.
#[unsafe(no_mangle)]
pub extern "C" fn plus_write_bd(chip: Chip, byte: u8) -> Answered
    ensures { Answers (data_answer chip) (data_written chip byte) chip result }
{
    plus::plus_write_bd(chip, byte)
}

// A byte written to 7Fxx.
#[unsafe(no_mangle)]
pub extern "C" fn plus_write_7f(chip: Chip, byte: u8) -> Answered
    ensures { Answers (gate_answer byte) (gate_written chip byte) chip result }
{
    plus::plus_write_7f(chip, byte)
}

// The host gives the table of owners; both undo records are empty then.
#[unsafe(no_mangle)]
pub extern "C" fn plus_start(chip: Chip, owners: Owners) -> Answered
    ensures { StartTold chip owners result }
{
    plus::plus_start(chip, owners)
}

// A byte that an editor reads from the page.
#[unsafe(no_mangle)]
pub extern "C" fn plus_page_read(
    chip: Chip,
    editor: u8,
    store: &[u8],
    address: u16,
    bus: u8,
) -> ByteRead
    ensures { Reads chip (editor_by editor) store.now address bus result }
{
    plus::plus_page_read(chip, editor, store, address, bus)
}

// A byte that an editor writes to the page, and the write kept for its undo.
#[unsafe(no_mangle)]
pub extern "C" fn plus_page_write(
    chip: Chip,
    editor: u8,
    store: &mut [u8],
    places: &mut [u32; 256],
    address: u16,
    byte: u8,
) -> Answered
    ensures { Writes chip (editor_by editor) store.old places.old address byte store.new places.new result }
{
    plus::plus_page_write(chip, editor, store, places, address, byte)
}

// The newest write of an editor's that is kept, taken back.
#[unsafe(no_mangle)]
pub extern "C" fn plus_undo(
    chip: Chip,
    editor: u8,
    store: &mut [u8],
    places: &[u32; 256],
) -> Answered
    ensures { UndoTold chip (editor_by editor) store.old places.now store.new result }
{
    plus::plus_undo(chip, editor, store, places)
}

// Gives the area of RAM for lists, by its bounds.
#[unsafe(no_mangle)]
pub extern "C" fn plus_area(chip: Chip, from: u32, upto: u32) -> Answered
    ensures { GivesArea chip from upto result }
{
    plus::plus_area(chip, from, upto)
}

// Mutes a channel, whose LOADs then leave the PSG, or has it heard again.
#[unsafe(no_mangle)]
pub extern "C" fn plus_mute(chip: Chip, channel: u16, on: bool) -> Answered
    ensures { MuteTold chip channel on result }
{
    plus::plus_mute(chip, channel, on)
}

// Places a list in the area, with the places of the lists lent, and copies it into RAM.
#[unsafe(no_mangle)]
pub extern "C" fn plus_place(
    chip: Chip,
    places: &mut [u32; 64],
    ram: &mut [u8],
    list: &[u8],
) -> PlacedList
    ensures { PlaceTold chip places.old ram.old list.now places.new ram.new result }
{
    plus::plus_place(chip, places, ram, list)
}

// Removes a placed list, by its handle.
#[unsafe(no_mangle)]
pub extern "C" fn plus_remove(chip: Chip, places: &[u32; 64], handle: u32) -> Answered
    ensures { RemoveTold chip places.now handle result }
{
    plus::plus_remove(chip, places, handle)
}

// The contents of the registers outside the pixels, into 477 bytes.
#[unsafe(no_mangle)]
pub extern "C" fn plus_export(chip: Chip, out: &mut [u8]) -> u8
    ensures { Exports chip out.old out.new result }
{
    plus::plus_export(chip, out)
}

// Interrupt acknowledge.
#[unsafe(no_mangle)]
pub extern "C" fn plus_acknowledge(chip: Chip) -> Acknowledged
    ensures { Acknowledges chip result }
{
    plus::plus_acknowledge(chip)
}

// Draws the current line into 640 bytes, and steps the chip to the next. The numbers say what the processor does at the 8255 for each
// channel.
#[unsafe(no_mangle)]
pub extern "C" fn plus_line(
    chip: Chip,
    ram: &[u8],
    store: &[u8],
    line: &mut [u8],
    first: u8,
    second: u8,
    third: u8,
) -> PlusStepped
    ensures { LineTold chip ram.now store.now (accesses_by first second third) line.old line.new result }
{
    plus::plus_line(chip, ram, store, line, first, second, third)
}

// The lines of the list at a start address, the least and the most cycles, and where the list stands.
#[unsafe(no_mangle)]
pub extern "C" fn plus_forecast(ram: &[u8], start: u16, prescale: u8) -> PlusLength
    ensures { LengthTold ram.now start prescale result }
{
    plus::plus_forecast(ram, start, prescale)
}

// The grey of a palette entry, from its two bytes.
#[unsafe(no_mangle)]
pub extern "C" fn plus_grey(low: u8, high: u8) -> u8
    ensures { result ≡ grey_of low high }
{
    plus::plus_grey(low, high)
}

// Prints words as text.
#[unsafe(no_mangle)]
pub extern "C" fn plus_print(words: &[u16], text: &mut [u8]) -> Printed
    ensures { PrintsWords words.now text.old text.new result.answer result.size }
{
    plus::plus_print(words, text)
}

// Reads such a text back.
#[unsafe(no_mangle)]
pub extern "C" fn plus_read(text: &[u8], words: &mut [u16]) -> ReadBack
    ensures { ReadsText text.now words.old words.new result.answer result.count result.line }
{
    plus::plus_read(text, words)
}

// Mends the words of a buffer that are in use, where they stand, and reports every change.
#[unsafe(no_mangle)]
pub extern "C" fn plus_mend(words: &mut [u16], used: usize, report: &mut [u64]) -> Mended
    ensures { MendTold words.old used report.old words.new report.new result }
{
    plus::plus_mend(words, used, report)
}

// A change of a report, by its number from 0.
#[unsafe(no_mangle)]
pub extern "C" fn plus_change(report: &[u64], number: usize) -> Change
    ensures { result ≡ change_at report.now number }
{
    plus::plus_change(report, number)
}

// A record of a take as a number of 64 bits.
#[unsafe(no_mangle)]
pub extern "C" fn plus_take_pack(entry: Record) -> u64
    ensures { result ≡ packed entry }
{
    plus::plus_take_pack(entry)
}

// The record in such a number.
#[unsafe(no_mangle)]
pub extern "C" fn plus_take_unpack(number: u64) -> Record
    ensures { result ≡ unpacked number }
{
    plus::plus_take_unpack(number)
}

// Writes a take, its records lent as numbers.
#[unsafe(no_mangle)]
pub extern "C" fn plus_take_write(comment: &[u8], records: &[u64], output: &mut [u8]) -> Written
    ensures { WritesTake comment.now records.now output.old output.new result.answer result.size result.bad }
{
    plus::plus_take_write(comment, records, output)
}

// Opens a take: its record count, and the offset of its first record.
#[unsafe(no_mangle)]
pub extern "C" fn plus_take_open(file: &[u8]) -> Opened
    ensures { Opening file.now result.answer result.bad result.count result.offset }
{
    plus::plus_take_open(file)
}

// The record of a take with this number, from 1.
#[unsafe(no_mangle)]
pub extern "C" fn plus_take_record(file: &[u8], number: usize) -> RecordRead
    ensures { ReadsRecord file.now number result.answer result.entry }
{
    plus::plus_take_record(file, number)
}

// Plays a take from reset, whose starts all give these owners.
#[unsafe(no_mangle)]
pub extern "C" fn plus_replay(
    ram: &[u8],
    store: &mut [u8],
    song: &mut [u32; 256],
    picture: &mut [u32; 256],
    owners: Owners,
    file: &[u8],
) -> Replayed
    ensures { Replays ram.now store.old song.old picture.old owners file.now store.new song.new picture.new result }
{
    plus::plus_replay(ram, store, song, picture, owners, file)
}
