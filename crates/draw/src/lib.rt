// Drawing the current line.

#![tactic(auto)]

ghost use Rattle.std.specs.Prelude.{◌≡◌, ◌+◌, ◌*◌, ◌%◌, ◌≤◌, length};
ghost use Rattle.common.specs.Refusals.{answer_number};
ghost use Rattle.crtc.specs.Line.{scroll_lines};
ghost use Rattle.picture.specs.Screen.{row_line};
ghost use Rattle.overlay.specs.Stretches.{Covered};
ghost use Rattle.draw.specs.Drawing.{draw_answer, Draws};
ghost use Rattle.draw.specs.Mixing.{left_of, right_of, main_at, over_at, covered_at, mixed_at, Has, Changed};

mod layout;

use chip::Chip;
use common::answer::Refusal;
use common::size::{LINE, RAM, STORE};
use crtc::{Counters, Registers};
use layout::{Edges, Main};
use overlay::Stretch;
use overlay::shown::{LineSprite, LineSprites, Spans};

// The main screen between the edges. Its pens are made where they are laid: a whole line of them, handed on, would be copied.
fn lay_main(line: &mut [u8; 640], ram: &[u8], main: Main, edges: Edges)
    requires { edges.left ≤ edges.right }
    ensures { Changed (λ x v. main_at ram.now main x) edges.left edges.right line.old line.new }
{
    let pens = screen::line_pens(ram, main.mode, main.address, main.row);
    let lead = 16 - main.scroll;
    line[edges.left..edges.right].copy_from_slice(&pens[edges.left + lead..edges.right + lead]);
}

// The sprites that cover a stretch from `from` on: at each position the first of them that isn't transparent there. The first of
// them all is asked ahead of the others.
fn lay_stretch(
    line: &mut [u8; 640],
    store: &[u8; 4096],
    list: &[LineSprite; 16],
    covers: &[usize; 16],
    s: Stretch,
    from: usize,
)
    requires { (from ≤ s.until) × (s.until ≤ 640) × Covered list.now covers.now s from }
    ensures { Changed (covered_at store.now list.now covers.now s.count) from s.until line.old line.new }
{
    let count = s.count;
    let until = s.until;
    if count == 0 {
        return;
    }
    let lowest = covers[0];
    let front = list[lowest];
    'pixel: for x in from..until {
        let first = overlay::pixel_of(store, front, x);
        if first != 0 {
            line[x] = 16 + first;
            continue 'pixel;
        }
        for k in 1..count {
            let n = covers[k];
            let e = list[n];
            let pixel = overlay::pixel_of(store, e, x);
            if pixel != 0 {
                line[x] = 16 + pixel;
                continue 'pixel;
            }
        }
    }
}

// The sprites between the edges, stretch by stretch.
fn lay_sprites(line: &mut [u8; 640], shown: &LineSprites, store: &[u8; 4096], edges: Edges)
    requires { edges.left ≤ edges.right }
    ensures { Changed (over_at store.now shown.now.list shown.now.count) edges.left edges.right line.old line.new }
{
    if shown.count == 0 {
        return;
    }
    let spans = Spans::of(shown);
    let mut covers = [0; 16];
    let mut s = Stretch {
        count: 0,
        begun: 0,
        until: edges.left,
    };
    while s.until < edges.right {
        let x = s.until;
        s = spans.next_stretch(&mut covers, s, edges.right);
        lay_stretch(line, store, &shown.list, &covers, s, x);
    }
}

// Each of the 640 entries: border, else the first sprite that isn't transparent there, else the main pen.
fn mix(
    line: &mut [u8; 640],
    ram: &[u8],
    main: Main,
    shown: &LineSprites,
    store: &[u8; 4096],
    edges: Edges,
)
    ensures { Has (mixed_at ram.now main shown.now store.now edges) 640 line.new }
{
    line.fill(16);
    if edges.right <= edges.left {
        return;
    }
    lay_main(line, ram, main, edges);
    lay_sprites(line, shown, store, edges);
}

// The left edge: 16 if SSCR bit 7 is set.
fn left_of(sscr: u8) -> usize
    ensures { result ≡ left_of sscr }
{
    if sscr / 128 % 2 == 1 {
        return 16;
    }
    0
}

// The right edge: after R1 characters, or the line's end. With the whole line border it is 0.
fn right_of(r: Registers, c: Counters) -> usize
    ensures { (result ≡ right_of r c) × (result ≤ 640) }
{
    if c.adjust {
        return 0;
    }
    if r.r6 <= c.vc {
        return 0;
    }
    if 40 <= r.r1 {
        return 640;
    }
    r.r1 as usize * 16
}

// The positions of horizontal soft scroll.
fn scroll_of(sscr: u8) -> usize
    ensures { result ≡ sscr % 16 }
{
    sscr as usize % 16
}

// The line in the row: RC and the lines of soft scroll, mod 8.
fn row_line(rc: u8, sscr: u8) -> u8
    ensures { result ≡ row_line rc (scroll_lines sscr) }
{
    ((rc as u16 + sscr as u16 / 16 % 8) % 8) as u8
}

// The line of the frame that sprites count in.
fn frame_line(r: Registers, c: Counters) -> u16
    ensures { result ≡ c.vc * (r.r9 + 1) + c.rc }
{
    c.vc as u16 * (r.r9 as u16 + 1) + c.rc as u16
}

// What drawing is refused for: a buffer of another length, and then mode 3.
#[tactic(auto, unfolding(crate::specs::Drawing::draw_answer))]
fn may_draw(chip: Chip, ram: &[u8], store: &[u8], line: &[u8]) -> Result<(), Refusal>
    ensures { answer_number result ≡ draw_answer chip (length ram.now) (length store.now) (length line.now) }
{
    if ram.len() != RAM || store.len() != STORE || line.len() != LINE {
        return Err(Refusal::WrongLength);
    }
    if chip.gate.mode == 3 {
        return Err(Refusal::ModeThree);
    }
    Ok(())
}

// Draws the current line into 640 bytes, each a palette entry. A refused call leaves them as they were.
pub fn draw(chip: Chip, ram: &[u8], store: &[u8], line: &mut [u8]) -> Result<(), Refusal>
    ensures { Draws chip ram.now store.now line.old line.new (answer_number result) }
{
    may_draw(chip, ram, store, line)?;
    let store = store.as_array::<STORE>().unwrap();
    let line = line.as_mut_array::<LINE>().unwrap();
    let crtc = chip.crtc;
    let registers = crtc.registers;
    let counters = crtc.counters;
    let sscr = chip.video.sscr;
    let shown = overlay::line_sprites(chip.sprites, frame_line(registers, counters));
    let edges = Edges {
        left: left_of(sscr),
        right: right_of(registers, counters),
    };
    let main = Main {
        mode: chip.gate.mode,
        address: counters.address,
        row: row_line(counters.rc, sscr),
        scroll: scroll_of(sscr),
    };
    mix(line, ram, main, &shown, store, edges);
    Ok(())
}
