// The two editors, and the table of which of them may write what.

#![tactic(auto)]

ghost use Rattle.std.specs.Prelude.{◌≡◌};
ghost use Rattle.editors.specs.Table.{editor_by, no_table, holding, names, mine};

// An editor.
#[derive(Clone, Copy, PartialEq, Eq)]
pub enum Editor {
    Song,
    Picture,
}

// The editor that a number names: 0 is the song editor, any other the picture editor.
impl From<u8> for Editor {
    ghost from_gives = { λ number r. r ≡ editor_by number };

    fn from(number: u8) -> Editor {
        match number {
            0 => Editor::Song,
            _ => Editor::Picture,
        }
    }
}

impl Editor {
    // Whether an owner's bit names this editor.
    fn names(self, picture: bool) -> bool
        ensures { result ≡ names self picture }
    {
        (self == Editor::Picture) == picture
    }
}

// Owners as a host gives them: bit n is palette entry, sprite or channel n, and set for the picture editor.
#[repr(C)]
#[derive(Clone, Copy)]
pub struct Owners {
    pub palette: u32,
    pub sprites: u16,
    pub channels: u8,
}

// The table: whether one holds, and its owners. C sees it as a part of the chip, so a flag stands where an Option of owners would.
#[repr(C)]
#[derive(Clone, Copy)]
pub struct Table {
    pub held: bool,
    pub channels: u8,
    pub sprites: u16,
    pub palette: u32,
}

impl Table {
    // No table.
    pub fn no_table() -> Table
        ensures { result ≡ no_table }
    {
        Table {
            held: false,
            channels: 0,
            sprites: 0,
            palette: 0,
        }
    }

    // The table that holds with these owners; there are 3 channels.
    pub fn holding(owners: Owners) -> Table
        ensures { result ≡ holding owners }
    {
        Table {
            held: true,
            channels: owners.channels % 8,
            sprites: owners.sprites,
            palette: owners.palette,
        }
    }

    // Whether a thing with this owner's bit is the editor's: while no table holds, everything is each one's.
    pub fn mine(self, editor: Editor, picture: bool) -> bool
        ensures { result ≡ mine self editor picture }
    {
        !self.held || editor.names(picture)
    }
}
