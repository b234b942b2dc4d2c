//! The names that a text line gives to the header.
ghost use Rattle.std.specs.Prelude.{◌≡◌, None, nat_le, length, ◌≤◌};
ghost use Rattle.std.specs.List.{list_any};
ghost use Rattle.std.specs.Option.{is_some};
ghost use Rattle.std.specs.Str.{bytes_eq};
ghost use Rattle.knit_base.specs.Lines.{IsLine};
ghost use Rattle.knitout_reader.specs.Head.{has_name_twice, names_in_line};
ghost use Rattle.knitout_reader.specs.Tokens.{tokens_of};
ghost use Rattle.script_reader.specs.Hearing.{Hearing, header_heard};
ghost use Rattle.script_reader.specs.Listener.{IsListenerMoved};

use crate::command::Command;
use crate::fault::Cause;
use crate::listener::state::{ListenerMove, ordered, refusal};
use crate::order::Order;
use crate::step::Step;
use knit_base::NoMemory;
use knitout_reader::{declared_in, next_token};
use std::alloc::Global;

// What the header begins with that names the carriers.
const CARRIERS: &[u8] = b";;Carriers:";

/// How many names a header gives at most.
const NAME_LIMIT: u32 = 64;

/// The names of the header, which the text line with this number gives.
pub(crate) fn header_heard(alloc: Global, session: u32, number: u64, text: &str) -> ListenerMove
    requires line { IsLine text.now }
    requires short { length text.now ≤ 4096 }
    ensures { (h : Hearing) → h.session ≡ session → h.group ≡ None → IsListenerMoved result h.adds number (header_heard h number (names_in_line text.now)) }
{
    // Whether the text gives names is known without memory, so that want of it changes no refusal.
    if !gives_names(text.as_bytes()) {
        return refusal(number, Cause::BadLine);
    }
    match declared_in(alloc, text) {
        Ok(Some(names)) => ordered(Order::Ask {
            session,
            step: Step::One(Command::PutHead(names)),
        }),
        Ok(None) => refusal(number, Cause::BadLine),
        Err(NoMemory) => ordered(Order::Lost { session, adds: 0 }),
    }
}

// Whether the line gives names to the header.
fn gives_names(line: &[u8]) -> bool
    ensures { result ≡ is_some (names_in_line line.now) }
{
    if !line.starts_with(CARRIERS) {
        return false;
    }
    let names = &line[CARRIERS.len()..];
    !has_name_twice(names) && are_few(names)
}

// Whether there are at most 64 names.
fn are_few(names: &[u8]) -> bool
    ensures { result ≡ nat_le (length (tokens_of names.now)) 64 }
{
    let mut rest = names;
    let mut room = NAME_LIMIT;
    while let Some((_, after)) = next_token(rest) {
        if room == 0 {
            return false;
        }
        room -= 1;
        rest = after;
    }
    true
}

// Whether some name stands twice.
fn has_name_twice(names: &[u8]) -> bool
    ensures { result ≡ has_name_twice (tokens_of names.now) }
{
    let mut rest = names;
    while let Some((name, after)) = next_token(rest) {
        if has_name(after, name) {
            return true;
        }
        rest = after;
    }
    false
}

// Whether this name is among those.
fn has_name(names: &[u8], name: &[u8]) -> bool
    ensures { result ≡ list_any (bytes_eq name.now) (tokens_of names.now) }
{
    let mut rest = names;
    while let Some((other, after)) = next_token(rest) {
        if name == other {
            return true;
        }
        rest = after;
    }
    false
}
