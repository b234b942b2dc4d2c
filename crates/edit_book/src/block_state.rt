//! Where a block is.

/// A block that was drawn is there, with its stamp, or was cut by the entry with this number.
#[derive(Clone, Copy, Debug, PartialEq, Eq)]
pub(crate) enum BlockState {
    There(u32),
    CutBy(u32),
}
