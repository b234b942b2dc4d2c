//! The loop of a conversation.
ghost use Rattle.std.specs.Prelude.{◌≡◌, ◌<◌, ◌+◌, ◌-◌, ◌^◌, ℕ, List, [], ◌∷◌, length, OnOk};
ghost use Rattle.knit_base.specs.Lines.{HasNoLineEnd};
ghost use Rattle.knit_ports.specs.Ears.{kept_front};
ghost use Rattle.knit_ports.specs.Pieces.{PiecesGoOn, Heard, Piece};
ghost use Rattle.talk_loop.specs.Conversed.{Conversed, HasTalkCause, IsLast};
ghost use Rattle.talk_loop.specs.Finished.{Finishes};
ghost use Rattle.talk_loop.specs.InStep.{AreDeskAnswers};

use crate::desk::Desk;
use knit_base::NoMemory;
use knit_ports::{Ear, LineEnd, Talk, say_whole};
use std::sync::Wait;
use std::thread::Threads;

/// Why a conversation ended before its end.
#[derive(Clone, Copy, Debug, PartialEq, Eq)]
pub enum TalkFault {
    /// Hearing failed. All that was due had been said.
    Hearing,
    /// Saying failed. Nothing was heard after it.
    Saying,
    /// Memory ran out for what was to be said.
    NoMemory,
}

/// Hears the lines of a conversation, of which the first has this number, and has each answered. `out` is room for what is to be said.
///
/// What is pending in the ear is heard first, as if it were a piece by itself.
pub fn converse<R: Threads + Wait + Sync, T: Talk, D: Desk>(
    rt: &R,
    talk: &mut T,
    ear: &mut Ear,
    desk: &mut D,
    first: u64,
    out: &mut Vec<u8>,
) -> Result<(), TalkFault>
    requires first { first ≡ (D.asking (D.opening desk.old)).first }
    requires nothing { (D.asking (D.opening desk.old)).orders [] ≡ [] }
    requires begun { D.behind desk.old [] [] }
    ensures conversed { (pieces : List Piece) × PiecesGoOn (T.told talk.old) (T.told talk.new) pieces × Conversed (D.asking (D.opening desk.old)) (D.ends (D.opening desk.old)) (Heard ear.old.pending ∷ pieces) result }
    ensures cause { HasTalkCause (T.faults talk.old) (T.faults talk.new) result }
{
    'lines: for number in first..u64::MAX {
        out.clear();
        let end = match ear.hear(talk) {
            Ok(end) => end,
            Err(_) => return Err(TalkFault::Hearing),
        };
        match end {
            LineEnd::LineFeed => {}
            _ => return finish(rt, talk, ear.line(), desk, number, out),
        }
        let Ok(()) = desk.hear(rt, number, ear.line(), out) else {
            return Err(TalkFault::NoMemory);
        };
        match say_whole(talk, out) {
            Ok(()) => {}
            Err(_) => return Err(TalkFault::Saying),
        }
    }
    out.clear();
    finish(rt, talk, &[], desk, u64::MAX, out)
}

// Answers the last line, which has no line feed, if there is one, and says what ends the conversation.
fn finish<R: Threads + Wait + Sync, T: Talk, D: Desk>(
    rt: &R,
    talk: &mut T,
    line: &[u8],
    desk: &mut D,
    number: u64,
    out: &mut Vec<u8>,
) -> Result<(), TalkFault>
    requires one { HasNoLineEnd line.now }
    requires begun { (lines : List (List ℕ)) × (as_ : List D.Answer) × D.behind desk.old lines as_ × (number ≡ (D.asking (D.opening desk.old)).first + length lines) }
    requires kept { (rest : List ℕ) × (line.now ≡ kept_front rest) }
    requires room { 0 < length line.now → number < 2 ^ 64 - 1 }
    requires empty { out.old.items ≡ [] }
    ensures finished { (lines : List (List ℕ)) (as_ : List D.Answer) (rest : List ℕ) → D.behind desk.old lines as_ → number ≡ (D.asking (D.opening desk.old)).first + length lines
        → AreDeskAnswers (D.asking (D.opening desk.old)) (D.asking (D.opening desk.old)).start ((D.asking (D.opening desk.old)).orders lines) as_ → line.now ≡ kept_front rest → Finishes (D.asking (D.opening desk.old)) (D.ends (D.opening desk.old)) lines rest as_ (T.told talk.old) (T.told talk.new) result }
    ensures cause { HasTalkCause (T.faults talk.old) (T.faults talk.new) result }
{
    let Ok(()) = append_last(rt, line, desk, number, out) else {
        return Err(TalkFault::NoMemory);
    };
    match say_whole(talk, out) {
        Ok(()) => Ok(()),
        Err(_) => Err(TalkFault::Saying),
    }
}

// Appends the answers to the last line, which has no line feed, if there is one, and what ends the conversation.
fn append_last<R: Threads + Wait + Sync, D: Desk>(
    rt: &R,
    line: &[u8],
    desk: &mut D,
    number: u64,
    out: &mut Vec<u8>,
) -> Result<(), NoMemory>
    requires one { HasNoLineEnd line.now }
    requires begun { (lines : List (List ℕ)) × (as_ : List D.Answer) × D.behind desk.old lines as_ × (number ≡ (D.asking (D.opening desk.old)).first + length lines) }
    requires kept { (rest : List ℕ) × (line.now ≡ kept_front rest) }
    requires room { 0 < length line.now → number < 2 ^ 64 - 1 }
    requires empty { out.old.items ≡ [] }
    ensures last { OnOk result ((lines : List (List ℕ)) (as_ : List D.Answer) (rest : List ℕ) → D.behind desk.old lines as_ → number ≡ (D.asking (D.opening desk.old)).first + length lines
        → AreDeskAnswers (D.asking (D.opening desk.old)) (D.asking (D.opening desk.old)).start ((D.asking (D.opening desk.old)).orders lines) as_ → line.now ≡ kept_front rest
        → (more : List D.Answer) × IsLast (D.asking (D.opening desk.old)) (D.ends (D.opening desk.old)) lines as_ rest out.new.items more) }
{
    if line.is_empty() {
        return desk.end(rt, number, out);
    }
    desk.hear(rt, number, line, out)?;
    desk.end(rt, number + 1, out)
}
