//! One line by itself.
ghost use Rattle.std.specs.Prelude.{◌≡◌, ◌≤◌, MatchResult, None, Some, length};
ghost use Rattle.knit_base.specs.Lines.{HasNoLineEnd, IsLine};
ghost use Rattle.knit_ports.specs.declared.limit.TheConstants.{HEARD_LIMIT};
ghost use Rattle.opening_reader.specs.Fronts.{limit_for};
ghost use Rattle.opening_reader.specs.Openings.{fault_within, wanted_in};

use crate::opening::{OpeningKind, Wanted};
use knit_ports::HEARD_LIMIT;
use line_cutter::LINE_LIMIT;
use script_reader::{Cause, TalkOpening, talk_opening};

/// The line as a text, or why it can't be read, where it may have so many bytes.
pub(crate) fn readable(line: &[u8], limit: usize) -> Result<&str, Cause>
    requires line { HasNoLineEnd line.now }
    requires limit { limit ≤ HEARD_LIMIT }
    ensures { MatchResult result (λ read. (fault_within limit line.now ≡ None) × (read.now ≡ line.now) × IsLine read.now × (length read.now ≤ HEARD_LIMIT)) (λ cause. fault_within limit line.now ≡ Some cause) }
{
    if limit < line.len() {
        return Err(Cause::LineLong);
    }
    match str::from_utf8(line) {
        Ok(read) => Ok(read),
        Err(_) => Err(Cause::NotUtf8),
    }
}

/// So many bytes the next line may have, where this is wanted.
pub(crate) fn limit_for(wanted: Option<Wanted>) -> usize
    ensures { result ≡ limit_for wanted }
{
    match wanted {
        None => LINE_LIMIT,
        Some(wanted) => match wanted.kind {
            OpeningKind::Text => LINE_LIMIT,
            OpeningKind::Saved => HEARD_LIMIT,
        },
    }
}

/// What a first line asks for.
pub(crate) fn wanted_in(line: &[u8]) -> Option<Wanted>
    ensures { result ≡ wanted_in line.now }
{
    match talk_opening(line)? {
        TalkOpening::Lines(missing) => Some(Wanted {
            kind: OpeningKind::Text,
            missing,
        }),
        TalkOpening::Journal(missing) => Some(Wanted {
            kind: OpeningKind::Saved,
            missing,
        }),
    }
}
