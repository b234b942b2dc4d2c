//! The words of operations and directions.
ghost use Rattle.std.specs.Prelude.{◌≡◌, ◌≢◌, MatchOption};
ghost use Rattle.knit_base.specs.declared.needle.Dir.{Dir};
ghost use Rattle.knit_base.specs.Spelling.{dir_word};
ghost use Rattle.knitout_reader.specs.declared.words.CarrierOperation.{CarrierOperation};
ghost use Rattle.knitout_reader.specs.declared.words.LoopOperation.{LoopOperation};
ghost use Rattle.knitout_reader.specs.declared.words.NeedleOperation.{NeedleOperation};
ghost use Rattle.knitout_reader.specs.declared.words.FreeOperation.{FreeOperation};
ghost use Rattle.knitout_reader.specs.declared.words.Operation.{Operation};
ghost use Rattle.knitout_reader.specs.Operations.{IsWordOf};

use knit_base::Dir;

/// Operations on carriers alone.
#[derive(Clone, Copy, Debug, PartialEq, Eq)]
pub(crate) enum CarrierOperation {
    In,
    Out,
    HookIn,
    HookOut,
    ReleaseHook,
}

/// Operations with a direction, a needle and carriers.
#[derive(Clone, Copy, Debug, PartialEq, Eq)]
pub(crate) enum LoopOperation {
    Knit,
    Tuck,
    Miss,
}

/// Operations with one needle and nothing else.
#[derive(Clone, Copy, Debug, PartialEq, Eq)]
pub(crate) enum NeedleOperation {
    Drop,
    Amiss,
}

/// Operations that any tokens may follow.
#[derive(Clone, Copy, Debug, PartialEq, Eq)]
pub(crate) enum FreeOperation {
    Stitch,
    Pause,
    Extension,
}

/// The operations, those of like operands together.
#[derive(Clone, Copy, Debug, PartialEq, Eq)]
pub(crate) enum Operation {
    Loop(LoopOperation),
    Xfer,
    Split,
    Needle(NeedleOperation),
    Rack,
    Carrier(CarrierOperation),
    Free(FreeOperation),
}

/// The operation that a word names.
pub(crate) fn operation_of(word: &[u8]) -> Option<Operation>
    ensures { MatchOption result ((operation : Operation) → IsWordOf operation word.now → ⊥) (λ operation. IsWordOf operation word.now) }
{
    match word {
        b"knit" => Some(Operation::Loop(LoopOperation::Knit)),
        b"tuck" => Some(Operation::Loop(LoopOperation::Tuck)),
        b"miss" => Some(Operation::Loop(LoopOperation::Miss)),
        b"xfer" => Some(Operation::Xfer),
        b"split" => Some(Operation::Split),
        b"drop" => Some(Operation::Needle(NeedleOperation::Drop)),
        b"amiss" => Some(Operation::Needle(NeedleOperation::Amiss)),
        b"rack" => Some(Operation::Rack),
        b"in" => Some(Operation::Carrier(CarrierOperation::In)),
        b"out" => Some(Operation::Carrier(CarrierOperation::Out)),
        b"inhook" => Some(Operation::Carrier(CarrierOperation::HookIn)),
        b"outhook" => Some(Operation::Carrier(CarrierOperation::HookOut)),
        b"releasehook" => Some(Operation::Carrier(CarrierOperation::ReleaseHook)),
        b"stitch" => Some(Operation::Free(FreeOperation::Stitch)),
        b"pause" => Some(Operation::Free(FreeOperation::Pause)),
        [b'x', b'-', ..] => Some(Operation::Free(FreeOperation::Extension)),
        _ => None,
    }
}

/// The direction that a token names.
pub(crate) fn direction(token: &[u8]) -> Option<Dir>
    ensures { MatchOption result ((dir : Dir) → token.now ≢ dir_word dir) (λ dir. token.now ≡ dir_word dir) }
{
    match token {
        b"+" => Some(Dir::Right),
        b"-" => Some(Dir::Left),
        _ => None,
    }
}
