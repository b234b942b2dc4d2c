//! Lines in a buffer, and some of those that several lists share.
ghost use Rattle.std.specs.Arc.{arc_value};
ghost use Rattle.knit_base.specs.Lines.{AreSomeSpans};

use crate::lines::Span;
use std::sync::Arc;

/// Bytes, and where lines lie in them.
#[derive(Drop)]
pub(crate) struct Cut {
    pub bytes: Vec<u8>,
    pub spans: Vec<Span>,
}

/// Some of the lines of a cut that others may hold, too: from `start` to `end`, which isn't counted, each without its first `skipped`
/// bytes.
#[derive(Drop)]
pub(crate) struct CutPart {
    pub cut: Arc<Cut>,
    pub start: u32,
    pub end: u32,
    pub skipped: u32,
    ghost part: { AreSomeSpans (arc_value cut).spans.items start end skipped },
}
