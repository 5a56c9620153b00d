// How a line is laid out: its border, and its main screen.
ghost use Rattle.std.specs.Prelude.{◌≤◌};

// Where a line is border, which is below `left` and from `right` on.
#[derive(Clone, Copy)]
pub struct Edges {
    pub left: usize,
    pub right: usize,
    ghost in_line: { right ≤ 640 },
}

// The main screen on a line: its mode, the screen address, the line in the row, and how many positions the scroll moves it right.
#[derive(Clone, Copy)]
pub struct Main {
    pub mode: u8,
    pub address: u16,
    pub row: u8,
    pub scroll: usize,
    ghost small: { scroll ≤ 16 },
}
