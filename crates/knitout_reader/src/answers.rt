//! Readings of lines that break a rule.
ghost use Rattle.std.specs.Prelude.{◌≡◌};
ghost use Rattle.knitout_reader.specs.Reading.{broken_at, unreadable};

use knit_base::{Read, Reason, Rule};

/// The line breaks this rule at this token.
pub(crate) fn broken(rule: Rule, at: u16) -> Read
    ensures { result ≡ broken_at rule at }
{
    Read::Broken(Reason { rule, at })
}

/// The line has none of the shapes.
pub(crate) fn no_shape() -> Read
    ensures { result ≡ unreadable }
{
    broken(Rule::Unreadable, 0)
}
