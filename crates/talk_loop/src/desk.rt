//! Who answers the lines of a conversation.
ghost use Rattle.std.specs.Thread.{IsSync};
ghost use Rattle.std.specs.Prelude.{◌≡◌, ◌+◌, ◌++◌, ◌∷◌, [], ℕ, List, length, OnOk};
ghost use Rattle.knit_base.specs.Lines.{HasNoLineEnd};
ghost use Rattle.knit_ports.specs.Ears.{kept_front};
ghost use Rattle.talk_loop.specs.Conversed.{IsLineAnswered};
ghost use Rattle.talk_loop.specs.InStep.{Asking};

use knit_base::NoMemory;
use std::sync::Wait;
use std::thread::Threads;

/// Who answers the lines of a conversation, one after the other, and says what ends it.
pub trait Desk {
    /// What a line asks for.
    type Order;

    /// What is answered to an order.
    type Answer;

    /// How the conversation stands.
    type State;

    /// What the conversation begins with.
    type Opening;

    /// What it began with. It never changes.
    ghost opening: { Self → Self.Opening };

    /// What lines ask for behind an opening, and what may be answered.
    ghost asking: { Self.Opening → Asking Self.Order Self.Answer Self.State };

    /// What may be said at the end, behind these lines and the answers to what they ask for.
    ghost ends: { Self.Opening → List (List ℕ) → List Self.Answer → List ℕ → Type 0 };

    /// These lines were heard, and these answers given to what they ask for.
    ghost behind: { Self → List (List ℕ) → List Self.Answer → Type 0 };

    /// Hears a line, which has this number, and appends what is to be said for it. Of a line the first 8,194 bytes are handed on.
    ///
    /// Where memory runs out for what is to be said, the conversation can't go on.
    fn hear<R: Threads + Wait + Sync>(
        &mut self,
        rt: &R,
        number: u64,
        line: &[u8],
        out: &mut Vec<u8>,
    ) -> Result<(), NoMemory>
        requires one { HasNoLineEnd line.now }
        requires sync { IsSync R.row }
        requires begun { (lines : List (List ℕ)) × (as_ : List Self.Answer) × behind self.old lines as_ × (number ≡ (asking (opening self.old)).first + length lines) }
        ensures same { opening self.new ≡ opening self.old }
        ensures answered { OnOk result ((lines : List (List ℕ)) (as_ : List Self.Answer) (whole : List ℕ) → behind self.old lines as_ → number ≡ (asking (opening self.old)).first + length lines
            → line.now ≡ kept_front whole
            → (more : List Self.Answer) × behind self.new (lines ++ whole ∷ []) (as_ ++ more) × IsLineAnswered (asking (opening self.old)) lines as_ whole out.old.items out.new.items more) };

    /// Appends what is to be said at the end, where the line behind the last one would have this number.
    fn end<R: Threads + Wait + Sync>(
        &mut self,
        rt: &R,
        number: u64,
        out: &mut Vec<u8>,
    ) -> Result<(), NoMemory>
        requires sync { IsSync R.row }
        requires begun { (lines : List (List ℕ)) × (as_ : List Self.Answer) × behind self.old lines as_ × (number ≡ (asking (opening self.old)).first + length lines) }
        ensures last { OnOk result ((lines : List (List ℕ)) (as_ : List Self.Answer) → behind self.old lines as_ → number ≡ (asking (opening self.old)).first + length lines
            → (final : List ℕ) × (out.new.items ≡ out.old.items ++ final) × ends (opening self.old) lines as_ final) };
}
