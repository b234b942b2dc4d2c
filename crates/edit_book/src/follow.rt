//! An outline follows a journal by itself.
ghost use Rattle.std.specs.Prelude.{◌≡◌, ◌++◌, ◌∷◌, [], OnErr, OnOk};
ghost use Rattle.edit_book.specs.Books.{IsLawfulOutline};
ghost use Rattle.edit_book.specs.Outlines.{HasShortText, MayCome};

use crate::Outline;
use edit_journal::{Edit, Entry};
use knit_base::NoMemory;

impl Outline {
    /// Enters an entry whose edit may come next. Where memory runs out all is as before.
    pub fn follow(&mut self, entry: Entry) -> Result<(), NoMemory>
        requires comes { MayCome self.old.opening self.old.entries entry.edit }
        requires short { HasShortText entry.edit }
        ensures opening { self.new.opening ≡ self.old.opening }
        ensures ok { OnOk result (self.new.entries ≡ self.old.entries ++ entry ∷ []) }
        ensures err { OnErr result (self.new.entries ≡ self.old.entries) }
        ensures lawful { IsLawfulOutline self.new.opening self.new.entries }
    {
        let Entry { session, edit } = entry;
        match edit {
            Edit::Put { block, seen, text } => self.enter_put(session, block, seen, text),
            Edit::Add {
                anchor,
                block,
                text,
            } => self.enter_add(session, anchor, block, text),
            Edit::Cut { block, seen } => self.enter_cut(session, block, seen),
            Edit::Head { seen, declared } => self.enter_head(session, seen, declared),
        }
    }
}
