//! One loop of a block.
ghost use Rattle.std.specs.Prelude.{◌≡◌, IfOk};

use face_data::Segs;
use knit_base::{Dir, Needle, NoMemory, Yarns};

/// A loop that a block makes: the offset of its line, counted from 0, on which needle, in which direction, with which yarns, and
/// the segments of the loops through which it is drawn.
#[derive(Drop)]
pub struct LoopRow {
    pub offset: u32,
    pub needle: Needle,
    pub dir: Dir,
    pub yarns: Yarns,
    pub through: Segs,
}

impl LoopRow {
    /// An equal row. Of up to four yarns and two segments it takes no memory.
    pub fn try_clone(&self) -> Result<Self, NoMemory>
        ensures { IfOk result (λ row. row ≡ self.now) }
    {
        Ok(LoopRow {
            offset: self.offset,
            needle: self.needle,
            dir: self.dir,
            yarns: self.yarns.try_clone()?,
            through: self.through.try_clone()?,
        })
    }
}
