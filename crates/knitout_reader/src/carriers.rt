//! The carriers that the tokens of a line name.
ghost use Rattle.std.specs.Prelude.{◌≡◌, ◌+◌, ◌<◌, ◌≤◌, ◌^◌, length, Some, None, IfOk, IsOk, MatchResult};
ghost use Rattle.knit_base.specs.Lawful.{AreDeclared};
ghost use Rattle.knitout_reader.specs.Carriers.{no_carrier, carriers_of, carrier_rule};
ghost use Rattle.knitout_reader.specs.Tokens.{tokens_of};

use crate::tokens::next_token;
use knit_base::{Declared, NoMemory, Reason, Rule, Yarns, is_in_set};
use std::alloc::Global;

/// The carriers that all the tokens of the code name, or the first rule that the list breaks: the first token that names
/// no carrier, or else the first carrier that stands earlier in the list.
///
/// `at` is the place of the first of these tokens in its line. Memory is taken, and can run out, from the fifth carrier on.
pub(crate) fn read_carriers(
    alloc: Global,
    declared: &Declared,
    code: &[u8],
    at: u16,
) -> Result<Result<Yarns, Reason>, NoMemory>
    requires { at + length (tokens_of code.now) < 2 ^ 16 }
    ensures carriers { IfOk result (λ found. MatchResult found
        (λ yarns. (carrier_rule declared.now at (tokens_of code.now) ≡ None) × (yarns ≡ carriers_of declared.now (tokens_of code.now)))
        (λ reason. carrier_rule declared.now at (tokens_of code.now) ≡ Some reason)) }
    ensures in_place { length (tokens_of code.now) ≤ 4 → IsOk result }
    ensures declared { IfOk result (λ found. IfOk found (λ yarns. AreDeclared (length declared.now) at yarns)) }
{
    let mut yarns = Yarns::new(alloc);
    let mut seen = 0u64;
    let mut place = at;
    let mut start = 0;
    while let Some((name, behind)) = next_token(&code[start..]) {
        let Some(c) = declared.find_bytes(name) else {
            return Ok(Err(reason(Rule::NoCarrier, place)));
        };
        if is_in_set(seen, c) {
            // Every name is tried before any carrier is one too many.
            let later = first_undeclared(declared, behind, place + 1);
            return Ok(Err(later.unwrap_or(reason(Rule::CarrierTwice, place))));
        }
        yarns.push(c)?;
        seen |= 1 << c.0;
        place += 1;
        start = code.len() - behind.len();
    }
    Ok(Ok(yarns))
}

// The first token of the code that names no carrier.
fn first_undeclared(declared: &Declared, code: &[u8], at: u16) -> Option<Reason>
    requires { at + length (tokens_of code.now) < 2 ^ 16 }
    ensures { result ≡ no_carrier declared.now at (tokens_of code.now) }
{
    let mut place = at;
    let mut start = 0;
    while let Some((name, behind)) = next_token(&code[start..]) {
        if declared.find_bytes(name).is_none() {
            return Some(reason(Rule::NoCarrier, place));
        }
        place += 1;
        start = code.len() - behind.len();
    }
    None
}

fn reason(rule: Rule, at: u16) -> Reason
    ensures rule { result.rule ≡ rule }
    ensures at { result.at ≡ at }
{
    Reason { rule, at }
}
