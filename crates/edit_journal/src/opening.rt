//! What a document begins with.
use knit_base::{BlockText, ListOf, Setting};

/// What a document begins with: what it is read by, and the texts of its first blocks in their order.
#[derive(Drop)]
pub struct Opening {
    pub setting: Setting,
    pub texts: ListOf<BlockText>,
}
