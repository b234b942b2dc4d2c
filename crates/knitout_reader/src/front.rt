//! The front of a line in the spelling that most lines have: one space behind each token.
ghost use Rattle.std.specs.Prelude.{◌≡◌, ◌∷◌, IfSome};
ghost use Rattle.knit_base.specs.Spelling.{dir_word};
ghost use Rattle.knitout_reader.specs.Operations.{loop_word};
ghost use Rattle.knitout_reader.specs.Tokens.{tokens_of};

use crate::words::LoopOperation;
use knit_base::Dir;

/// The operation and the direction with which a line begins that forms loops, and what stands behind them. They are told at
/// once where each is followed by one space; `None` says nothing of the line, which is then read token by token.
pub(crate) fn usual_front<'a>(code: &'a [u8]) -> Option<(LoopOperation, Dir, &'a [u8])>
    ensures { IfSome result (λ front. tokens_of code.now ≡ loop_word front.0 ∷ dir_word front.1 ∷ tokens_of front.2.now) }
{
    let (which, behind) = usual_word(code)?;
    let (dir, operands) = usual_direction(behind)?;
    Some((which, dir, operands))
}

fn usual_word<'a>(code: &'a [u8]) -> Option<(LoopOperation, &'a [u8])>
    ensures { IfSome result (λ front. tokens_of code.now ≡ loop_word front.0 ∷ tokens_of front.1.now) }
{
    match code {
        [b'k', b'n', b'i', b't', b' ', behind @ ..] => Some((LoopOperation::Knit, behind)),
        [b't', b'u', b'c', b'k', b' ', behind @ ..] => Some((LoopOperation::Tuck, behind)),
        _ => None,
    }
}

fn usual_direction<'a>(code: &'a [u8]) -> Option<(Dir, &'a [u8])>
    ensures { IfSome result (λ front. tokens_of code.now ≡ dir_word front.0 ∷ tokens_of front.1.now) }
{
    match code {
        [b'+', b' ', behind @ ..] => Some((Dir::Right, behind)),
        [b'-', b' ', behind @ ..] => Some((Dir::Left, behind)),
        _ => None,
    }
}
