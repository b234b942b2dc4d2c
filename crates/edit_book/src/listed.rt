//! The blocks in their order, and the block in which a line of the file stands.
ghost use Rattle.std.specs.Prelude.{◌≡◌, length, slice_get};
ghost use Rattle.edit_book.specs.Books.{document};
ghost use Rattle.edit_book.specs.Listing.{line_place_of, block_places};

use crate::Book;

/// A block as it stands: its id, its stamp, the file line at which it begins, or would, counted from 1, and how many lines it has.
#[derive(Clone, Copy, Debug, PartialEq, Eq)]
pub struct BlockPlace {
    pub block: u32,
    pub stamp: u32,
    pub first: u32,
    pub lines: u32,
}

/// Where a line of the file stands: the block's id, and which of the block's lines it is, counted from 1.
#[derive(Clone, Copy, Debug, PartialEq, Eq)]
pub struct LinePlace {
    pub block: u32,
    pub line: u32,
}

impl Book {
    /// How many blocks are there.
    pub fn block_count(&self) -> u32
        ensures { result ≡ length (document self.now).blocks }
    {
        self.outline.len()
    }

    /// The block at a place of the order, the first being 0. Takes no memory.
    pub fn block_at(&self, at: u32) -> Option<BlockPlace>
        ensures { result ≡ slice_get (block_places self.now.opening (document self.now)) at }
    {
        let Some(block) = self.outline.id_at(at) else {
            return None;
        };
        let Some(stamp) = self.stamp(block) else {
            unreachable!();
        };
        let Some(text) = self.text_of(block) else {
            unreachable!();
        };
        Some(BlockPlace {
            block,
            stamp,
            first: self.outline.first() + self.tree.lines_before(at),
            lines: text.len(),
        })
    }

    /// Where the line with this number in the file stands. One of the head, or behind the last, stands in no block. Takes no memory.
    pub fn place_of(&self, line: u32) -> Option<LinePlace>
        ensures { result ≡ line_place_of self.now.opening (document self.now) line }
    {
        let first = self.outline.first();
        if line < first {
            return None;
        }
        let Some((at, within)) = self.tree.leaf_of_line(line - first) else {
            return None;
        };
        let Some(block) = self.outline.id_at(at) else {
            unreachable!();
        };
        Some(LinePlace {
            block,
            line: within + 1,
        })
    }
}
