//! The rules, and what is said where one is broken.
ghost use Rattle.std.specs.Prelude.{◌≡◌};
ghost use Rattle.knit_base.specs.Spelling.{rule_name};

/// The rules, in the order in which they are tried on a line. `docs/MODEL.md` states each.
///
/// The first nine need the line alone, with the profile and the declared carriers; the others need the machine's state.
#[derive(Clone, Copy, Debug, PartialEq, Eq)]
pub enum Rule {
    Unreadable,
    OffBed,
    SliderForm,
    SameBed,
    TwoSliders,
    NoCarrier,
    CarrierTwice,
    RackStep,
    RackLimit,
    CarrierIsOut,
    CarrierIsIn,
    HookBusy,
    HookOther,
    CarrierHooked,
    NotAligned,
    SliderHolds,
    TooManyLoops,
    FloatTooLong,
}

impl Rule {
    /// The name by which a report calls the rule.
    pub fn name(self) -> &'static str
        ensures { result.now ≡ rule_name self }
    {
        match self {
            Rule::Unreadable => "Unreadable",
            Rule::OffBed => "OffBed",
            Rule::SliderForm => "SliderForm",
            Rule::SameBed => "SameBed",
            Rule::TwoSliders => "TwoSliders",
            Rule::NoCarrier => "NoCarrier",
            Rule::CarrierTwice => "CarrierTwice",
            Rule::RackStep => "RackStep",
            Rule::RackLimit => "RackLimit",
            Rule::CarrierIsOut => "CarrierIsOut",
            Rule::CarrierIsIn => "CarrierIsIn",
            Rule::HookBusy => "HookBusy",
            Rule::HookOther => "HookOther",
            Rule::CarrierHooked => "CarrierHooked",
            Rule::NotAligned => "NotAligned",
            Rule::SliderHolds => "SliderHolds",
            Rule::TooManyLoops => "TooManyLoops",
            Rule::FloatTooLong => "FloatTooLong",
        }
    }
}

/// A broken rule, and the place of the token that breaks it: the operation word is at 0.
#[derive(Clone, Copy, Debug, PartialEq, Eq)]
pub struct Reason {
    pub rule: Rule,
    pub at: u16,
}

/// A broken rule, and the number of its line in the file.
#[derive(Clone, Copy, Debug, PartialEq, Eq)]
pub struct Fault {
    pub line: u32,
    pub reason: Reason,
}
