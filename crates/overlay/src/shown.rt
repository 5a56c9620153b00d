// The sprites on a line, and where they begin and end.
ghost use Rattle.std.specs.Prelude.{◌≤◌};
ghost use Rattle.overlay.specs.Kept.{AllSized};
ghost use Rattle.overlay.specs.Rising.{Rising};

// A sprite on a line: X, its magnification across, and where the pixels of its row start in the store.
#[derive(Clone, Copy)]
pub struct LineSprite {
    pub x: i16,
    pub magnification: u16,
    pub pixels: u16,
}

// Those that the line can show, lowest number first: so many of the list.
#[derive(Clone, Copy)]
pub struct LineSprites {
    pub list: [LineSprite; 16],
    pub count: usize,
    ghost bound: { count ≤ 16 },
    ghost sized: { AllSized list count },
}

// So many starts of the sprites on a line, rising, and where each of them ends.
#[derive(Clone, Copy)]
pub struct Spans {
    pub total: usize,
    pub starts: [usize; 16],
    pub ends: [usize; 16],
    ghost few: { total ≤ 16 },
    ghost rising: { Rising starts total },
}
