//! What most lines say.
use crate::{CarrierNo, Dir, Needle};

/// An operation that forms a loop of one carrier, or a transfer. It takes no memory, and most lines of a program are such.
#[derive(Clone, Copy, Debug, PartialEq, Eq)]
pub enum Usual {
    Knit(Dir, Needle, CarrierNo),
    Tuck(Dir, Needle, CarrierNo),
    Xfer(Needle, Needle),
}
