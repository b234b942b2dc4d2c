//! The header as it stands.
ghost use Rattle.std.specs.Prelude.{◌≡◌, ◌∷◌, [], IfOk, Some};
ghost use Rattle.knit_base.specs.Names.{header_line};
ghost use Rattle.knitout_reader.specs.Head.{names_in_line};
ghost use Rattle.edit_book.specs.Books.{document};
ghost use Rattle.edit_book.specs.Replies as request;
ghost use Rattle.edit_book.specs.Replies.{IsAnswer};

use crate::{Book, Reply};
use edit_journal::HEAD;
use knit_base::{Lines, NoMemory};

impl Book {
    /// The header as it stands: its stamp, and the one line `;;Carriers:` with a space before each name.
    #[inline(never)]
    pub fn look_head(&self) -> Reply
        ensures { IsAnswer self.now.opening self.now.entries request.LookHead result }
    {
        match self.header_lines() {
            Ok(text) => Reply::Shown {
                version: self.version(),
                block: HEAD,
                stamp: self.header_stamp(),
                first: 1,
                text,
            },
            Err(NoMemory) => Reply::NoMemory,
        }
    }

    #[tactic(auto, using(knitout_reader::proofs::HeaderLines::declared_again))]
    fn header_lines(&self) -> Result<Lines, NoMemory>
        ensures lines { IfOk result (λ lines. lines ≡ header_line (document self.now).header.names ∷ []) }
        ensures names { let names = (document self.now).header.names in IfOk result (λ lines. names_in_line (header_line names) ≡ Some names) }
    {
        let line = self.setting().declared.header_line(self.outline.alloc())?;
        let mut lines = Lines::new(self.outline.alloc());
        lines.push(line.as_str())?;
        Ok(lines)
    }
}
