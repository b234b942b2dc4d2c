//! The part of a file that is held while its lines are taken.
ghost use Rattle.std.specs.Prelude.{◌≡◌, ◌<◌, ◌≤◌, ◌+◌, ◌-◌, [], false, true, length, take, drop, vec_len, IfOk, IsErrOf, OnErr, OnOk};
ghost use Rattle.std.specs.Io.KnownBytes.{Keeps};
ghost use Rattle.knit_ports.specs.Faults.{Rose};
ghost use Rattle.knit_ports.specs.Whole.{GaveAtMost, GavePiece};
ghost use Rattle.knit_ports.specs.Windows.{IsReadOut};
ghost use Rattle.knit_ports.specs.WholeLines.{AreWholeLines};

use crate::limit::INPUT_LIMIT;
use crate::whole::{InputFault, zeros};
use crate::{Failed, Source};
use memchr::memrchr;
use std::alloc::{AllocError, Global};
use std::marker::Model;

// So many bytes are held, where no line is longer.
const WINDOW: usize = 131_072;

/// The bytes of a file that were read and belong to lines that weren't taken yet. They are a front of the buffer.
#[derive(Drop)]
pub(crate) struct Window {
    bytes: Vec<u8>,
    end: usize,
    // How many bytes of the file were read in all.
    count: usize,
}

impl Model for Window {
    ghost use Rattle.std.specs.Prelude.{◌<◌, ◌≤◌, ◌+◌, length, take};
    ghost use Rattle.knit_ports.specs.declared.limit.TheConstants.{INPUT_LIMIT};
    ghost use Rattle.knit_ports.specs.Windows.{WindowView};

    ghost Value = { WindowView };

    ghost view = { λ w. record { held = take w.end w.bytes.items; count = w.count } };

    ghost invariant = { λ w. (w.end ≤ length w.bytes.items) × (0 < length w.bytes.items) × (w.end ≤ w.count)
        × (w.count ≤ INPUT_LIMIT + 1) };
}

impl Window {
    /// The window before a file is read.
    pub(crate) fn new(alloc: Global) -> Result<Self, AllocError>
        ensures { IfOk result (λ window. window ≡ record { held = []; count = 0 }) }
    {
        let bytes = zeros(alloc, WINDOW)?;
        Ok(Window {
            bytes,
            end: 0,
            count: 0,
        })
    }

    pub(crate) fn held(&self) -> &[u8]
        ensures { result.now ≡ self.now.held }
    {
        &self.bytes[..self.end]
    }

    /// Whether a byte past the limit was read.
    pub(crate) fn is_past_limit(&self) -> bool
        ensures past { result ≡ true → self.now.count ≡ INPUT_LIMIT + 1 }
        ensures within { result ≡ false → self.now.count ≤ INPUT_LIMIT }
    {
        self.count > INPUT_LIMIT
    }

    /// One read, whose bytes are held behind those that there are. It tells how many they are: none only at the end of the file. It is
    /// offered the room that there is, and no more than what is missing to a byte past the limit.
    pub(crate) fn read<S: Source>(&mut self, source: &mut S) -> Result<usize, InputFault>
        requires { self.old.count ≤ INPUT_LIMIT }
        ensures ok { IfOk result (λ n. GavePiece (S.left source.old) (S.left source.new) self.old.held self.new.held
            (INPUT_LIMIT + 1 - self.old.count) n) }
        ensures count { IfOk result (λ n. self.new.count ≡ self.old.count + n) }
        ensures calm { OnOk result (S.faults source.new ≡ S.faults source.old) }
        ensures failed { IsErrOf result InputFault.Failed → Rose (S.faults source.old) (S.faults source.new) }
        ensures kept { OnErr result (Keeps (S.left source.old) (S.left source.new)) }
    {
        make_room(&mut self.bytes, self.end)?;
        let room = (self.bytes.len() - self.end).min(INPUT_LIMIT + 1 - self.count);
        let given = read_behind(source, &mut self.bytes, self.end, room)?;
        self.end += given;
        self.count += given;
        Ok(given)
    }

    /// Lets go of the first bytes: what is left is moved to the front.
    pub(crate) fn pass(&mut self, len: usize)
        requires { len ≤ length self.old.held }
        ensures held { self.new.held ≡ drop len self.old.held }
        ensures count { self.new.count ≡ self.old.count }
    {
        if len == 0 {
            return;
        }
        self.bytes.as_mut_slice().copy_within(len..self.end, 0);
        self.end -= len;
    }

    /// Reads what is left of the file, to its end or to a byte past the limit. Nothing is held any more.
    pub(crate) fn read_out<S: Source>(&mut self, source: &mut S) -> Result<(), Failed>
        ensures ok { OnOk result (IsReadOut (S.left source.old) (S.left source.new) self.old.count self.new.count) }
        ensures calm { OnOk result (S.faults source.new ≡ S.faults source.old) }
        ensures failed { OnErr result (Rose (S.faults source.old) (S.faults source.new)) }
        ensures gave { OnErr result (GaveAtMost (INPUT_LIMIT - self.old.count) (S.left source.old) (S.left source.new)) }
    {
        self.end = 0;
        'passing: while self.count <= INPUT_LIMIT {
            let room = self.bytes.len().min(INPUT_LIMIT + 1 - self.count);
            let given = read_behind(source, &mut self.bytes, 0, room)?;
            if given == 0 {
                break;
            }
            self.count += given;
        }
        Ok(())
    }
}

// Makes room behind so many bytes of the buffer: where they fill it, it becomes twice as long.
fn make_room(bytes: &mut Vec<u8>, end: usize) -> Result<(), AllocError>
    requires within { end ≤ vec_len bytes.old }
    requires some { 0 < vec_len bytes.old }
    requires few { end ≤ INPUT_LIMIT }
    ensures kept { take end bytes.new.items ≡ take end bytes.old.items }
    ensures longer { vec_len bytes.old ≤ vec_len bytes.new }
    ensures room { OnOk result (end < vec_len bytes.new) }
{
    if end == bytes.len() {
        bytes.resize(2 * end, 0)?;
    }
    Ok(())
}

// One read into the buffer, behind so many of its bytes.
fn read_behind<S: Source>(
    source: &mut S,
    bytes: &mut Vec<u8>,
    end: usize,
    room: usize,
) -> Result<usize, Failed>
    requires { end + room ≤ vec_len bytes.old }
    ensures len { vec_len bytes.new ≡ vec_len bytes.old }
    ensures ok { IfOk result (λ n. GavePiece (S.left source.old) (S.left source.new) (take end bytes.old.items)
        (take (end + n) bytes.new.items) room n) }
    ensures calm { OnOk result (S.faults source.new ≡ S.faults source.old) }
    ensures failed { OnErr result (Rose (S.faults source.old) (S.faults source.new)) }
    ensures kept { OnErr result (Keeps (S.left source.old) (S.left source.new)) }
{
    source.read(&mut bytes[end..end + room])
}

/// How many of the held bytes are whole lines, where these many were read last and no line ends before them.
pub(crate) fn whole_len(held: &[u8], given: usize) -> usize
    requires { given ≤ length held.now }
    ensures within { result ≤ length held.now }
    ensures whole { AreWholeLines (take result held.now) }
{
    let before = held.len() - given;
    match memrchr(b'\n', &held[before..]) {
        Some(place) => before + place + 1,
        None => 0,
    }
}
