//! Why bytes aren't cut into lines.
ghost use Rattle.std.specs.Prelude.{◌≡◌};
ghost use Rattle.line_cutter.specs.declared.fault.CutFault.TheVariants as refused;

use knit_base::NoMemory;
use std::alloc::{AllocError, AllocFailed};
use thiserror::Error;

/// Why bytes aren't cut into lines. Lines are counted from 1, and the first one that is refused is named.
#[derive(Clone, Copy, Debug, PartialEq, Eq, Error)]
pub enum CutFault {
    /// The line isn't UTF-8.
    #[error("line {line} isn't UTF-8")]
    NotUtf8 { line: u32 },

    /// The line is UTF-8 and has over 4,096 bytes.
    #[error("line {line} is too long")]
    LineLong { line: u32 },

    /// Memory ran out.
    #[error("out of memory")]
    NoMemory,
}

impl From<AllocError> for CutFault {
    ghost from_gives = { λ _ e. e ≡ refused.NoMemory };

    fn from(_: AllocError) -> Self {
        CutFault::NoMemory
    }
}

impl<T: Drop> From<AllocFailed<T>> for CutFault {
    ghost from_gives = { λ _ e. e ≡ refused.NoMemory };

    fn from(_: AllocFailed<T>) -> Self {
        CutFault::NoMemory
    }
}

impl From<NoMemory> for CutFault {
    ghost from_gives = { λ _ e. e ≡ refused.NoMemory };

    fn from(_: NoMemory) -> Self {
        CutFault::NoMemory
    }
}
