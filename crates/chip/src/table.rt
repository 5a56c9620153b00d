// What is kept for the editors: a record each, and the table that a start gives.
ghost use Rattle.std.specs.Prelude.{◌≡◌};
ghost use Rattle.common.specs.Answers.{done};
ghost use Rattle.chip.specs.Promises.{Answers};
ghost use Rattle.chip.specs.Editors.{undo_of, editing_with, started};

use crate::{Answered, Chip, Editing};
use common::answer::DONE;
use editors::{Editor, Owners, Table};
use ring::Undo;

// The state of an editor's record.
pub fn undo_of(editing: Editing, editor: Editor) -> Undo
    ensures { result ≡ undo_of editing editor }
{
    match editor {
        Editor::Song => editing.song,
        Editor::Picture => editing.picture,
    }
}

// The same with another state of that record.
pub fn with_undo(editing: Editing, editor: Editor, undo: Undo) -> Editing
    ensures { result ≡ editing_with editing editor undo }
{
    match editor {
        Editor::Song => Editing {
            song: undo,
            ..editing
        },
        Editor::Picture => Editing {
            picture: undo,
            ..editing
        },
    }
}

// The host gives the table, which empties both records. Placed lists stay.
#[tactic(auto, unfolding(crate::specs::Editors::started))]
pub fn start(mut chip: Chip, owners: Owners) -> Answered
    ensures { Answers done (started chip owners) chip result }
{
    chip.editing = Editing {
        table: Table::holding(owners),
        song: Undo::default(),
        picture: Undo::default(),
        ..chip.editing
    };
    Answered { answer: DONE, chip }
}
