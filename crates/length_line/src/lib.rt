// The line that a program prints of a list: its lines and cycles, or why there are none.

#![tactic(auto)]

ghost use Rattle.std.specs.Prelude.{Some};
ghost use Rattle.length_line.specs.Line.{line_of};

use std::fmt;

// The lines of a list, and its channel's own cycles.
#[derive(Clone, Copy)]
pub struct Length {
    pub lines: u64,
    pub cycles: u64,
}

// That line without its end, of a list's length or of the number with which it is refused. A number and no `Refusal`, since the calls
// that answer in C structs have only that.
#[derive(Clone, Copy)]
pub struct Line(pub Result<Length, u8>);

impl fmt::Display for Line {
    ghost output = { λ line. Some (line_of line.0) };

    // `lines N cycles N`, or `refused N`.
    fn fmt<W: fmt::Write>(&self, f: &mut fmt::Formatter<W>) -> fmt::Result {
        match self.0 {
            Ok(Length { lines, cycles }) => write!(f, "lines {lines} cycles {cycles}"),
            Err(number) => write!(f, "refused {number}"),
        }
    }
}
