//! A whole input, up to a limit, and a whole report.
ghost use Rattle.std.specs.Prelude.{◌+◌, ◌-◌, ◌<◌, ◌^◌, vec_len, ◌≤◌, ◌≡◌, [], length, IfOk, OnOk, OnErr, IsErrOf};
ghost use Rattle.std.specs.Io.KnownBytes.{Appends, Consumes, IsAtEnd, Keeps};
ghost use Rattle.knit_ports.specs.declared.whole.InputFault.TheVariants as fault;
ghost use Rattle.knit_ports.specs.Faults.{Rose};
ghost use Rattle.knit_ports.specs.Whole.{GaveAtMost, GavePiece, HasMore, TookFront};

use crate::limit::PIECE;
use crate::{Failed, Sink, Source};
use std::alloc::{AllocError, Global};

/// Why an input wasn't read to its end.
#[derive(Clone, Copy, Debug, PartialEq, Eq)]
pub enum InputFault {
    /// A read failed.
    Failed,
    NoMemory,
}

impl From<Failed> for InputFault {
    ghost from_gives = { λ _ e. e ≡ fault.Failed };

    fn from(_: Failed) -> Self {
        InputFault::Failed
    }
}

impl From<AllocError> for InputFault {
    ghost from_gives = { λ _ e. e ≡ fault.NoMemory };

    fn from(_: AllocError) -> Self {
        InputFault::NoMemory
    }
}

/// Reads a source to its end, or until it has given a byte more than the limit. An input that was read whole has at most
/// as many bytes as the limit says. Each read is offered 65,536 bytes, or what is missing to one past the limit.
///
/// After an error the bytes that the source has given are lost: at most as many as the limit where a read failed, and one
/// more where memory ran out, which isn't tied to a fault of the source.
pub fn read_input<S: Source>(
    alloc: Global,
    source: &mut S,
    limit: usize,
) -> Result<Vec<u8>, InputFault>
    requires { limit < 2 ^ 60 }
    ensures bytes { IfOk result (λ bytes. Consumes (S.left source.old) (S.left source.new) bytes.items) }
    ensures within { IfOk result (λ bytes. length bytes.items ≤ limit + 1) }
    ensures whole { IfOk result (λ bytes. length bytes.items ≤ limit → IsAtEnd (S.left source.new)) }
    ensures calm { OnOk result (S.faults source.new ≡ S.faults source.old) }
    ensures failed { IsErrOf result InputFault.Failed → Rose (S.faults source.old) (S.faults source.new) }
    ensures gave { IsErrOf result InputFault.Failed → GaveAtMost limit (S.left source.old) (S.left source.new) }
    ensures lost { IsErrOf result InputFault.NoMemory → GaveAtMost (limit + 1) (S.left source.old) (S.left source.new) }
{
    let mut bytes = with_room(alloc, limit + 1);
    read_on(alloc, source, limit, &mut bytes)?;
    Ok(bytes)
}

// Reads on behind the bytes that were read, until the source is at its end or there is a byte more than the limit.
fn read_on<S: Source>(
    alloc: Global,
    source: &mut S,
    limit: usize,
    bytes: &mut Vec<u8>,
) -> Result<(), InputFault>
    requires limit { limit < 2 ^ 60 }
    requires few { length bytes.old.items ≤ limit + 1 }
    ensures more { OnOk result (HasMore (S.left source.old) (S.left source.new) bytes.old.items bytes.new.items) }
    ensures within { OnOk result (length bytes.new.items ≤ limit + 1) }
    ensures whole { OnOk result (length bytes.new.items ≤ limit → IsAtEnd (S.left source.new)) }
    ensures calm { OnOk result (S.faults source.new ≡ S.faults source.old) }
    ensures failed { IsErrOf result InputFault.Failed → Rose (S.faults source.old) (S.faults source.new) }
    ensures gave { IsErrOf result InputFault.Failed → GaveAtMost (limit - length bytes.old.items) (S.left source.old) (S.left source.new) }
    ensures lost { IsErrOf result InputFault.NoMemory → GaveAtMost (limit + 1 - length bytes.old.items) (S.left source.old) (S.left source.new) }
{
    let mut piece = zeros(alloc, PIECE)?;
    'reading: while bytes.len() <= limit {
        let want = piece.len().min(limit + 1 - bytes.len());
        let given = read_piece(source, &mut piece[..want], bytes)?;
        if given == 0 {
            break;
        }
    }
    Ok(())
}

// No bytes yet, and room for so many, if there is memory for them, so that none of them is copied when more come. The system gives a
// page of room only when it is written to.
fn with_room(alloc: Global, room: usize) -> Vec<u8>
    ensures { result.items ≡ [] }
{
    match Vec::with_capacity(alloc, room) {
        Ok(bytes) => bytes,
        Err(_) => Vec::new(alloc),
    }
}

// So many zeros, to be read into.
pub(crate) fn zeros(alloc: Global, count: usize) -> Result<Vec<u8>, AllocError>
    ensures { IfOk result (λ piece. vec_len piece ≡ count) }
{
    vec![in alloc; 0; count]
}

// One read, whose bytes go to the end of those that there are.
fn read_piece<S: Source>(
    source: &mut S,
    piece: &mut [u8],
    bytes: &mut Vec<u8>,
) -> Result<usize, InputFault>
    ensures ok { IfOk result (λ n. GavePiece (S.left source.old) (S.left source.new) bytes.old.items bytes.new.items (length piece.old) n) }
    ensures calm { OnOk result (S.faults source.new ≡ S.faults source.old) }
    ensures failed { IsErrOf result InputFault.Failed → Rose (S.faults source.old) (S.faults source.new) }
    ensures kept { IsErrOf result InputFault.Failed → Keeps (S.left source.old) (S.left source.new) }
    ensures lost { IsErrOf result InputFault.NoMemory → GaveAtMost (length piece.old) (S.left source.old) (S.left source.new) }
{
    let given = source.read(piece)?;
    bytes.extend_from_slice(&piece[..given])?;
    Ok(given)
}

/// Writes a whole report. Each write is handed all that is left of it. Where a write fails, the sink has taken a front of
/// the report.
pub fn write_report<K: Sink>(sink: &mut K, report: &[u8]) -> Result<(), Failed>
    ensures ok { OnOk result (Appends (K.taken sink.old) (K.taken sink.new) report.now) }
    ensures calm { OnOk result (K.faults sink.new ≡ K.faults sink.old) }
    ensures err { OnErr result (TookFront (K.taken sink.old) (K.taken sink.new) report.now) }
    ensures cause { OnErr result (Rose (K.faults sink.old) (K.faults sink.new)) }
{
    let mut done = 0;
    'writing: while done < report.len() {
        done += sink.write(&report[done..])?;
    }
    Ok(())
}
