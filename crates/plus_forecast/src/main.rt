// Reads a RAM image from standard input and prints the forecast of the list at 8000h with prescale 0.

#![tactic(auto)]

use length_line::{Length, Line};

// The descriptor of standard input. The kit's `io` reads it: std's readers that fill a buffer either don't tell how far, or fill a `Vec`,
// and there is no heap.
const STDIN_FILENO: i32 = 0;

fn main(rt: HostRuntime) {
    // one byte more than RAM has, so that a longer image is told from RAM
    let mut image = [0; 65537];
    let n = io::read_full(STDIN_FILENO, &mut image);
    let length = match forecast::forecast(&image[..n], 0x8000, 0) {
        Ok(told) => Ok(Length {
            lines: told.lines,
            cycles: told.cycles,
        }),
        Err(refusal) => Err(refusal.number()),
    };
    // what can't be written is passed over
    let _ = println!(rt; "{}", Line(length));
}
