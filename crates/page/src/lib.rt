// The register page: reads, writes with their record, and undo.

#![tactic(auto)]

ghost use Rattle.std.specs.Prelude.{◌≡◌};
ghost use Rattle.registers.specs.Registers.{register_answer};
ghost use Rattle.page.specs.Page.{page_answer, read_answer, Writes, Reads};
ghost use Rattle.page.specs.Undo.{Undoes};
ghost use Rattle.page.specs.declared.Edit.TheVariants.{Write};
ghost use Rattle.page.specs.Parts.{refusal, back_change, KeepsEntry, Changes, Edits};

use chip::{Answered, Chip};
use common::answer::{DONE, Refusal, answer_number};
use common::size::STORE;
use editors::Editor;
use registers::address::Register;
use ring::Undo;

// A page read's answer: the number and the byte. It changes nothing.
#[repr(C)]
#[derive(Clone, Copy)]
pub struct ByteRead {
    pub answer: u8,
    pub byte: u8,
}

// What is asked of the page beside reads: a byte written to an address, or the newest write taken back.
#[derive(Clone, Copy)]
enum Edit {
    Write(u16, u8),
    Back,
}

// What an edit changes: a register gets a byte, but a pixel one of its own in the store, and the record goes on. One that is refused
// has no register.
#[derive(Clone, Copy)]
struct Change {
    answer: u8,
    register: Register,
    byte: u8,
    pixel: u8,
    undo: Undo,
}

// The answer number of a page read, for a store of this length.
#[tactic(auto, unfolding(crate::specs::Page::read_answer, crate::specs::Page::page_answer))]
fn read_answer(chip: Chip, size: usize, address: u16) -> u8
    ensures { result ≡ read_answer chip size address }
{
    if size != STORE {
        return Refusal::WrongLength.number();
    }
    if address < 0x4000 {
        return Refusal::NotMapped.number();
    }
    if 0x8000 <= address {
        return Refusal::NotMapped.number();
    }
    if !chip.gate.mapped {
        return Refusal::NotMapped.number();
    }
    DONE
}

// The answer number of an editor's page write to this register.
fn write_answer(chip: Chip, editor: Editor, size: usize, address: u16, register: Register) -> u8
    ensures { result ≡ page_answer chip size address (register_answer chip.editing.table editor register) }
{
    let answer = read_answer(chip, size, address);
    if answer != DONE {
        return answer;
    }
    answer_number(registers::writing::register_answer(chip.editing.table, editor, register))
}

// The state of the record after a served write to this register, whose entry is given; one to DCSR is not kept.
fn kept(undo: Undo, register: Register, place: &mut u32, entry: u32) -> Undo
    ensures { KeepsEntry undo register place.old entry place.new result }
{
    if let Register::Dcsr = register {
        return undo;
    }
    *place = entry;
    undo.pushed()
}

// What becomes of an edit that is refused: nothing.
fn refusal(undo: Undo, answer: u8) -> Change
    ensures { result ≡ refusal undo answer }
{
    Change {
        answer,
        register: Register::Empty,
        byte: 0,
        pixel: 0,
        undo,
    }
}

// A byte written to an address; of a pixel 4 bits are stored.
fn write_change(
    chip: Chip,
    editor: Editor,
    store: &[u8],
    place: &mut u32,
    address: u16,
    byte: u8,
) -> Change
    ensures { Changes chip editor store.now place.old (Write address byte) place.new result }
{
    let undo = chip::table::undo_of(chip.editing, editor);
    let register = registers::address::register_at(address);
    let answer = write_answer(chip, editor, store.len(), address, register);
    if answer != DONE {
        return refusal(undo, answer);
    }
    let before = contents::contents_of(chip, store, register);
    let entry = address as u32 * 256 + before as u32;
    Change {
        answer,
        register,
        byte,
        pixel: byte % 16,
        undo: kept(undo, register, place, entry),
    }
}

// The newest entry taken back; a pixel's whole byte is.
fn undo_change(undo: Undo, length: usize, entry: u32) -> Change
    ensures { result ≡ back_change undo length entry }
{
    if length != STORE {
        return refusal(undo, Refusal::WrongLength.number());
    }
    if undo.count == 0 {
        return refusal(undo, Refusal::NothingToUndo.number());
    }
    let byte = (entry % 256) as u8;
    Change {
        answer: DONE,
        register: registers::address::register_at((entry / 256 % 65536) as u16),
        byte,
        pixel: byte,
        undo: undo.popped(),
    }
}

// What an edit changes. `place` is what the record has at the place of the entry that a write puts there, or that is taken back.
fn change_of(chip: Chip, editor: Editor, store: &[u8], place: &mut u32, edit: Edit) -> Change
    ensures { Changes chip editor store.now place.old edit place.new result }
{
    match edit {
        Edit::Write(address, byte) => write_change(chip, editor, store, place, address, byte),
        Edit::Back => {
            let undo = chip::table::undo_of(chip.editing, editor);
            undo_change(undo, store.len(), *place)
        }
    }
}

// Makes an edit. Page write and undo are this one function, which changes the chip in place: a call of it copies the chip once in and
// once out, and a function between would copy it again.
fn edited(mut chip: Chip, editor: Editor, store: &mut [u8], place: &mut u32, edit: Edit) -> Answered
    ensures { Edits chip editor store.old place.old edit store.new place.new result }
{
    let change = change_of(chip, editor, store, place, edit);
    let answer = change.answer;
    let register = change.register;
    let byte = change.byte;
    let undo = change.undo;
    registers::writing::store_put(store, register, change.pixel);
    let editing = chip::table::with_undo(chip.editing, editor, undo);
    chip.editing = editing;
    match register {
        Register::Pixel(_) => {}
        Register::Sprite(n, part) => {
            if n < 16 {
                let sprite = chip.sprites[n];
                chip.sprites[n] = sprite.written(part, byte);
            }
        }
        Register::Palette(i) => {
            if i < 64 {
                chip.palette[i] = picture::palette::kept_byte(i, byte);
            }
        }
        Register::Video(which) => {
            chip.video = registers::writing::video_written(chip.video, which, byte);
        }
        Register::Ivr => chip.interrupts.ivr = byte,
        Register::Converter => {}
        Register::Channel(n, which) => {
            chip.sound = registers::writing::channels_written(chip.sound, n, which, byte);
        }
        Register::Dcsr => {
            chip.sound = registers::writing::dcsr_written(
                chip.sound,
                chip.editing.table,
                editor,
                byte,
            );
        }
        Register::Status => {}
        Register::Empty => {}
    }
    Answered { chip, answer }
}

// A byte that an editor writes to the page. Its record of writes stands at the lent places.
pub fn page_write(
    chip: Chip,
    editor: Editor,
    store: &mut [u8],
    places: &mut [u32; 256],
    address: u16,
    byte: u8,
) -> Answered
    ensures { Writes chip editor store.old places.old address byte store.new places.new result }
{
    let undo = chip::table::undo_of(chip.editing, editor);
    let mut place = undo.standing(places);
    let done = edited(chip, editor, store, &mut place, Edit::Write(address, byte));
    undo.put(places, place);
    done
}

// Takes back the newest write that an editor's record has left: its register gets its former contents.
pub fn undo(chip: Chip, editor: Editor, store: &mut [u8], places: &[u32; 256]) -> Answered
    ensures { Undoes chip editor store.old places.now store.new result }
{
    let undo = chip::table::undo_of(chip.editing, editor);
    let mut place = undo.newest(places);
    edited(chip, editor, store, &mut place, Edit::Back)
}

// A byte that an editor reads from the page; `bus` is what the bus holds where nothing can be read.
pub fn page_read(chip: Chip, editor: Editor, store: &[u8], address: u16, bus: u8) -> ByteRead
    ensures { Reads chip editor store.now address bus result }
{
    let answer = read_answer(chip, store.len(), address);
    if answer != DONE {
        return ByteRead { answer, byte: 0 };
    }
    let register = registers::address::register_at(address);
    ByteRead {
        answer: DONE,
        byte: registers::reading::register_read(chip, editor, store, register, bus),
    }
}
