//! A conversation over a source and a sink.
ghost use Rattle.std.specs.Prelude.{◌≡◌, ◌+◌, ◌<◌, length, IfOk, None, OnOk};
ghost use Rattle.std.specs.Io.{ReadsAtMost, WritesAtMost};
ghost use Rattle.std.specs.Io.KnownBytes.{ReadConsumes, WriteAppends};
ghost use Rattle.knit_ports.specs.Faults.{HasCause};
ghost use Rattle.knit_ports.specs.Pieces.{TellsHeard, TellsSaid};

use crate::{Failed, Sink, Source, Talk};

/// Hears what the source gives, and says what the sink takes, for as long as both are lent. It tells nothing of the order,
/// since two places tell nothing of one another. Its count of faults is the sum of both.
#[derive(Drop)]
pub struct Ends<'a, S, K> {
    pub source: &'a mut S,
    pub sink: &'a mut K,
}

impl<S: Source, K: Sink> Talk for Ends<'_, S, K> {
    ghost told = { λ t. None };

    ghost faults = { λ t. S.faults t.source.now + K.faults t.sink.now };

    fn hear(&mut self, piece: &mut [u8]) -> Result<usize, Failed>
        ensures bound { ReadsAtMost result piece.new }
        ensures told { TellsHeard None None result piece.new }
        ensures bytes { ReadConsumes (S.left self.old.source.now) (S.left self.new.source.now) result piece.new }
        ensures sink { self.new.sink.now ≡ self.old.sink.now }
        ensures cause { HasCause (S.faults self.old.source.now + K.faults self.old.sink.now) (S.faults self.new.source.now + K.faults self.new.sink.now) result }
        ensures calm { OnOk result
            (S.faults self.new.source.now + K.faults self.new.sink.now ≡ S.faults self.old.source.now + K.faults self.old.sink.now) }
    {
        self.source.read(piece)
    }

    fn say(&mut self, piece: &[u8]) -> Result<usize, Failed>
        ensures bound { WritesAtMost result piece.now }
        ensures progress { IfOk result (λ n. 0 < length piece.now → 0 < n) }
        ensures told { TellsSaid None None result piece.now }
        ensures bytes { WriteAppends (K.taken self.old.sink.now) (K.taken self.new.sink.now) result piece.now }
        ensures source { self.new.source.now ≡ self.old.source.now }
        ensures cause { HasCause (S.faults self.old.source.now + K.faults self.old.sink.now) (S.faults self.new.source.now + K.faults self.new.sink.now) result }
        ensures calm { OnOk result
            (S.faults self.new.source.now + K.faults self.new.sink.now ≡ S.faults self.old.source.now + K.faults self.old.sink.now) }
    {
        self.sink.write(piece)
    }
}
