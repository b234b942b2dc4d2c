//! Where a conversation is heard and answered.
ghost use Rattle.std.specs.Prelude.{List, ℕ, ◌≡◌, ◌<◌, length, IfOk, OnErr, OnOk};
ghost use Rattle.std.specs.declared.option.Option.{Option};
ghost use Rattle.std.specs.Io.{ReadsAtMost, WritesAtMost};
ghost use Rattle.knit_ports.specs.Faults.{HasCause, Rose};
ghost use Rattle.knit_ports.specs.Pieces.{Piece, Says, SaysFront, TellsHeard, TellsSaid};

use crate::Failed;

/// Where a conversation is heard and answered: what is heard and what is said have one order.
pub trait Talk {
    /// What was heard and what was said, in one order, where it tells that.
    ghost told: { Self → Option (List Piece) };

    /// How often a call has failed.
    ghost faults: { Self → ℕ };

    /// Fills a front of the piece with bytes that are there, and waits only where there are none. `Ok(0)` is the end of the
    /// input. A call that fails gives no byte; one that doesn't leaves the count of faults.
    fn hear(&mut self, piece: &mut [u8]) -> Result<usize, Failed>
        requires { 0 < length piece.old }
        ensures bound { ReadsAtMost result piece.new }
        ensures told { TellsHeard (told self.old) (told self.new) result piece.new }
        ensures cause { HasCause (faults self.old) (faults self.new) result }
        ensures calm { OnOk result (faults self.new ≡ faults self.old) };

    /// Says a front of the piece, and where the piece isn't empty at least a byte of it: who listens has it then. A call that
    /// fails says nothing; one that doesn't leaves the count of faults.
    fn say(&mut self, piece: &[u8]) -> Result<usize, Failed>
        ensures bound { WritesAtMost result piece.now }
        ensures progress { IfOk result (λ n. 0 < length piece.now → 0 < n) }
        ensures told { TellsSaid (told self.old) (told self.new) result piece.now }
        ensures cause { HasCause (faults self.old) (faults self.new) result }
        ensures calm { OnOk result (faults self.new ≡ faults self.old) };
}

/// Says a whole text, and hears nothing meanwhile. Each call is handed all that is left of it. Where a call fails, a front of
/// the text was said.
pub fn say_whole<T: Talk>(talk: &mut T, text: &[u8]) -> Result<(), Failed>
    ensures ok { OnOk result (Says (T.told talk.old) (T.told talk.new) text.now) }
    ensures calm { OnOk result (T.faults talk.new ≡ T.faults talk.old) }
    ensures err { OnErr result (SaysFront (T.told talk.old) (T.told talk.new) text.now) }
    ensures cause { OnErr result (Rose (T.faults talk.old) (T.faults talk.new)) }
{
    let mut done = 0;
    'saying: while done < text.len() {
        done += talk.say(&text[done..])?;
    }
    Ok(())
}

#[cfg(test)]
mod tests;
