//! The blocks of a document with their texts.
ghost use Rattle.std.specs.Prelude.{◌≡◌, ◌<◌, Some, IfOk, length, slice_get};
ghost use Rattle.edit_book.specs.Books.{document};
ghost use Rattle.edit_book.specs.Headers.{blocks_at};
ghost use Rattle.edit_book.specs.Replies as request;
ghost use Rattle.edit_book.specs.Replies.{IsAnswer};

use crate::{Book, Reply};
use edit_journal::{BlockAt, TextList};
use knit_base::{ListOf, NoMemory};

impl Book {
    /// The blocks as they stand, in their order, each with its id, its stamp and its text.
    #[inline(never)]
    pub fn texts(&self) -> Reply
        ensures { IsAnswer self.now.opening self.now.entries request.Texts result }
    {
        match self.blocks_at() {
            Ok(blocks) => Reply::Texts {
                version: self.version(),
                blocks,
            },
            Err(NoMemory) => Reply::NoMemory,
        }
    }

    #[tactic(auto, using(crate::proofs::Looks::take_next))]
    fn blocks_at(&self) -> Result<TextList, NoMemory>
        ensures { IfOk result (λ blocks. blocks ≡ blocks_at (document self.now).blocks) }
    {
        let mut blocks = ListOf::with_capacity(self.outline.alloc(), self.outline.len())?;
        for at in 0..self.outline.len() {
            blocks.push(self.whole_block(at)?)?;
        }
        Ok(blocks)
    }

    // The block at a place, with its text.
    fn whole_block(&self, at: u32) -> Result<BlockAt, NoMemory>
        requires { at < length (document self.now).blocks }
        ensures { IfOk result (λ block. slice_get (blocks_at (document self.now).blocks) at ≡ Some block) }
    {
        let Some(block) = self.outline.id_at(at) else {
            unreachable!();
        };
        let Some(stamp) = self.stamp(block) else {
            unreachable!();
        };
        let Some(text) = self.text_of(block) else {
            unreachable!();
        };
        Ok(BlockAt {
            block,
            stamp,
            text: text.try_clone()?,
        })
    }
}
