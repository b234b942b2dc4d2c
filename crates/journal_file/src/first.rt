//! The blocks with which the document of a book began.
ghost use Rattle.std.specs.Prelude.{◌≡◌, IfOk};
ghost use Rattle.journal_file.specs.SavedParts.{first_blocks};

use edit_book::Book;
use edit_journal::{BlockAt, TextList};
use knit_base::NoMemory;
use std::alloc::Global;

/// The blocks with which the document began, as a saved text has them. The only error is want of memory.
pub fn first_blocks(alloc: Global, book: &Book) -> Result<TextList, NoMemory>
    ensures { IfOk result (λ blocks. blocks ≡ first_blocks book.now.opening) }
{
    let _few = book.ids();
    let mut blocks = TextList::new(alloc);
    while let Some(text) = book.text_at(blocks.len(), 0) {
        let block = blocks.len();
        let text = text.try_clone()?;
        blocks.push(BlockAt {
            block,
            stamp: 0,
            text,
        })?;
    }
    Ok(blocks)
}
