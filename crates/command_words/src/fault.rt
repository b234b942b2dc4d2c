//! Why words are not read.
ghost use Rattle.std.specs.Prelude.{◌≡◌, ◌↔◌};

use clap::Error;
use clap::error::ErrorKind;
use std::alloc::AllocError;

/// Why words are not read: they are outside the grammar, or memory ran out.
#[derive(Clone, Copy, Debug, PartialEq, Eq)]
pub enum WordFault {
    Usage,
    NoMemory,
}

impl From<AllocError> for WordFault {
    ghost use Rattle.command_words.specs.declared.fault.WordFault.TheVariants.{NoMemory};

    ghost from_gives = { λ _ e. e ≡ NoMemory };

    fn from(_: AllocError) -> Self {
        WordFault::NoMemory
    }
}

impl From<Error> for WordFault {
    ghost use Rattle.clap.specs.Values.{kind_of};
    ghost use Rattle.clap.specs.declared.error.kind.ErrorKind.TheVariants.{OutOfMemory};
    ghost use Rattle.command_words.specs.declared.fault.WordFault.TheVariants.{Usage};

    ghost from_gives = { λ e f. (f ≡ Usage) ↔ ((kind_of e ≡ OutOfMemory) → ⊥) };

    fn from(error: Error) -> Self {
        if error.kind() == ErrorKind::OutOfMemory {
            WordFault::NoMemory
        } else {
            WordFault::Usage
        }
    }
}
