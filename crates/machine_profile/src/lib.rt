//! The limits of a machine, chosen by options.
//!
//! Promises that the options of a command line are refused exactly where one of them lies outside its bounds, the first in
//! the order of `Which`, and otherwise give the limits that they say, which are lawful. Definitions: `specs/Bounds`.
//! Below it stands `knit_base`. It takes no memory.
#![tactic(auto)]

ghost use Rattle.std.specs.Prelude.{◌≡◌, ◌≤◌, ◌≤ℤ◌, negsuc, pos, IfOk, IfSome, MatchResult, None, Some, option_map};
ghost use Rattle.knit_base.specs.Limits.{IsFloatLimit, IsLawfulProfile};
ghost use Rattle.machine_profile.specs.declared.Which.TheVariants.{Float};
ghost use Rattle.machine_profile.specs.Bounds.{HasValues, IsBlockSize, IsChosen, option_outside, outside_if_any, refused_option};

use knit_base::Profile;

// Needles, by their numbers on a bed.
const MIN_NEEDLE: i64 = -4096;

const MAX_NEEDLE: i64 = 4096;

const DEFAULT_LOW: i64 = -1024;

const DEFAULT_HIGH: i64 = 1023;

// How far the beds rack, in needles.
const MIN_RACK: i64 = 0;

const MAX_RACK: i64 = 64;

const DEFAULT_RACK: i64 = 8;

// Loops on one needle.
const MIN_HOLD: i64 = 1;

const MAX_HOLD: i64 = 64;

const DEFAULT_HOLD: i64 = 16;

// Body lines of an opening block.
const MIN_BLOCK: i64 = 1;

const MAX_BLOCK: i64 = 4096;

const DEFAULT_BLOCK: i64 = 64;

// How far apart the needles of two loops may lie that a carrier forms one after the other.
const MIN_FLOAT: i64 = 1;

const MAX_FLOAT: i64 = 8192;

/// The values that the options of a command line give; one that isn't given has its default value.
#[derive(Clone, Copy, Debug, PartialEq, Eq)]
pub struct Options {
    /// The lowest needle of a bed.
    pub low: Option<i64>,
    /// The highest needle of a bed.
    pub high: Option<i64>,
    /// How far the beds rack to either side, in needles.
    pub rack: Option<i64>,
    /// How many loops a needle may hold.
    pub hold: Option<i64>,
    /// How many body lines an opening block has.
    pub block: Option<i64>,
    /// How many needle numbers a float may span. Where none is given there is no limit.
    pub float: Option<i64>,
}

/// The limits of the machine, and how many body lines an opening block has.
#[derive(Clone, Copy, Debug, PartialEq, Eq)]
pub struct Chosen {
    pub profile: Profile,
    pub block: u32,
}

/// One of the options.
#[derive(Clone, Copy, Debug, PartialEq, Eq)]
pub enum Which {
    Low,
    High,
    Rack,
    Hold,
    Block,
    Float,
}

/// An option that is refused.
#[derive(Clone, Copy, Debug, PartialEq, Eq)]
pub struct BadOption {
    pub which: Which,
}

/// The value of an option, unless it lies outside its bounds.
fn within(which: Which, least: i64, greatest: i64, value: i64) -> Result<i64, BadOption>
    ensures exact { MatchResult result (λ v. (option_outside which least greatest value ≡ None) × (v ≡ value))
        (λ bad. option_outside which least greatest value ≡ Some bad.which) }
    ensures bounds { IfOk result (λ v. (least ≤ℤ v) × (v ≤ℤ greatest)) }
{
    if value < least || value > greatest {
        return Err(BadOption { which });
    }
    Ok(value)
}

/// The limits with these values, which lie within their bounds.
fn chosen_with(low: i64, high: i64, rack: i64, hold: i64, block: i64, float: Option<i64>) -> Chosen
    requires low { negsuc 4095 ≤ℤ low }
    requires ordered { low ≤ℤ high }
    requires high { high ≤ℤ pos 4096 }
    requires rack { (pos 0 ≤ℤ rack) × (rack ≤ℤ pos 64) }
    requires hold { (pos 1 ≤ℤ hold) × (hold ≤ℤ pos 64) }
    requires block { (pos 1 ≤ℤ block) × (block ≤ℤ pos 4096) }
    requires float { IfSome float (λ f. (pos 1 ≤ℤ f) × (f ≤ℤ pos 8192)) }
    ensures values { HasValues low high rack hold block float result }
    ensures lawful { IsLawfulProfile result.profile }
    ensures block { IsBlockSize result.block }
{
    let profile = Profile {
        low: low as i16,
        high: high as i16,
        rack: rack as u8,
        hold: hold as u8,
        float: limit_of(float),
    };
    Chosen {
        profile,
        block: block as u32,
    }
}

/// The limit on floats with this value, if there is one.
fn limit_of(float: Option<i64>) -> Option<u16>
    requires { IfSome float (λ f. (pos 1 ≤ℤ f) × (f ≤ℤ pos 8192)) }
    ensures value { float ≡ option_map (λ f. pos f) result }
    ensures lawful { IfSome result IsFloatLimit }
{
    match float {
        Some(f) => Some(f as u16),
        None => None,
    }
}

/// The value of the limit on floats, unless it lies outside its bounds.
fn float_within(float: Option<i64>) -> Result<Option<i64>, BadOption>
    ensures exact { MatchResult result (λ v. (outside_if_any Float (pos 1) (pos 8192) float ≡ None) × (v ≡ float))
        (λ bad. outside_if_any Float (pos 1) (pos 8192) float ≡ Some bad.which) }
    ensures bounds { IfOk result (λ v. IfSome v (λ f. (pos 1 ≤ℤ f) × (f ≤ℤ pos 8192))) }
{
    match float {
        Some(f) => Ok(Some(within(Which::Float, MIN_FLOAT, MAX_FLOAT, f)?)),
        None => Ok(None),
    }
}

/// The limits that the options choose, or the first option that is refused, in the order of `Which`. A highest needle below
/// the lowest is refused as `High`.
pub fn profile_of(options: &Options) -> Result<Chosen, BadOption>
    ensures refuses { MatchResult result (λ _. refused_option options.now ≡ None)
        (λ bad. refused_option options.now ≡ Some bad.which) }
    ensures values { IfOk result (IsChosen options.now) }
    ensures lawful { IfOk result (λ chosen. IsLawfulProfile chosen.profile) }
    ensures block { IfOk result (λ chosen. IsBlockSize chosen.block) }
{
    let low = options.low.unwrap_or(DEFAULT_LOW);
    let low = within(Which::Low, MIN_NEEDLE, MAX_NEEDLE, low)?;
    let high = options.high.unwrap_or(DEFAULT_HIGH);
    let high = within(Which::High, low, MAX_NEEDLE, high)?;
    let rack = options.rack.unwrap_or(DEFAULT_RACK);
    let rack = within(Which::Rack, MIN_RACK, MAX_RACK, rack)?;
    let hold = options.hold.unwrap_or(DEFAULT_HOLD);
    let hold = within(Which::Hold, MIN_HOLD, MAX_HOLD, hold)?;
    let block = options.block.unwrap_or(DEFAULT_BLOCK);
    let block = within(Which::Block, MIN_BLOCK, MAX_BLOCK, block)?;
    let float = float_within(options.float)?;
    Ok(chosen_with(low, high, rack, hold, block, float))
}
