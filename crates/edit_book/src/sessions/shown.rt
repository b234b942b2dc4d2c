//! The names that a header's line shows.
ghost use Rattle.std.specs.Prelude.{◌<◌, IfSome};
ghost use Rattle.edit_book.specs.Asking.{ShowsNames};

use crate::Reply;
use knit_base::Declared;
use knitout_reader::declared_in;
use std::alloc::Global;

/// The names of a header that is shown, if there is memory for them.
pub fn names_shown(alloc: Global, reply: &Reply) -> Option<Declared>
    ensures { IfSome result (λ names. ShowsNames reply.now names) }
{
    let Reply::Shown { text, .. } = reply else {
        return None;
    };
    let Some(line) = text.get(0) else {
        return None;
    };
    // A line of 65,535 bytes, which names of a script never make, can't be read. That is told as want of memory, too.
    if line.len() >= 65_535 {
        return None;
    }
    match declared_in(alloc, line) {
        Ok(names) => names,
        Err(_) => None,
    }
}
