//! The rules that need the machine's state.
ghost use Rattle.std.specs.Prelude.{◌≡◌, ◌+◌, ◌<◌, ◌^◌, [], ◌∷◌, true, not, None, is_some, length, position};
ghost use Rattle.knit_base.specs.Reasons.{broken_if, first_broken, or_else};
ghost use Rattle.knit_base.specs.Usual.{usual_read};
ghost use Rattle.knit_base.specs.Yarns.{contains_carrier, lacks_carrier, AreCarriers, IsCarrier};
ghost use Rattle.carriage_model.specs.State.{State, is_near};
ghost use Rattle.carriage_model.specs.Rules.{broken, broken_instr, carrier_broken, rack_broken, slider_broken, size_broken, tuck_too_many, carriers_out, carriers_already_in, carriers_hooked, hook_busy, hook_other, not_aligned, slider_holds, too_many, float_broken, floats_asked, floats_far};

use crate::machine::Machine;
use knit_base::{CarrierNo, Instr, Needle, Profile, Read, Reason, Rule, Usual, Yarns, is_in_set};

impl Machine {
    ghost use Rattle.carriage_model.specs.Machine.{Represents, HasCarrierPlaces, HasPlacesInLine, FitsPlaces, HasNeedles, HasNeedlesInLine, HasCarrierInSet, last_in, stack_of};
    ghost use Rattle.carriage_model.specs.Beds.{IsOn};

    /// The first rule that the line breaks.
    pub fn broken(&self, profile: &Profile, read: &Read) -> Option<Reason>
        requires floats { self.now.keeps_lasts ≡ is_some profile.now.float }
        requires needles { HasNeedlesInLine self.now read.now }
        requires places { HasPlacesInLine read.now }
        ensures { (s : State) → Represents self.now s → result ≡ broken profile.now read.now s }
    {
        match read {
            Read::Instr(instr) => self.broken_instr(profile, instr),
            Read::Broken(reason) => Some(*reason),
            Read::Blank | Read::Comment => None,
        }
    }

    /// Whether the line breaks no rule but that on floats, which isn't looked at.
    #[inline(always)]
    pub fn allows(&self, profile: &Profile, usual: Usual) -> bool
        requires needles { HasNeedlesInLine self.now (usual_read usual) }
        requires carrier { HasCarrierInSet usual }
        ensures { result ≡ true → (s : State) → Represents self.now s → floats_asked profile.now usual s ≡ None → broken profile.now (usual_read usual) s ≡ None }
    {
        match usual {
            Usual::Knit(_, n, c) => self.allows_loop(n, c),
            Usual::Tuck(_, n, c) => self.allows_loop(n, c) && self.has_room_on(profile, n),
            Usual::Xfer(n, n2) => self.is_aligned(n, n2) && self.has_room_together(profile, n, n2),
        }
    }

    /// Whether the float to the loop that the line forms, if it forms one, isn't too long.
    #[inline(always)]
    pub fn allows_float(&self, profile: &Profile, usual: Usual) -> bool
        requires floats { self.now.keeps_lasts ≡ is_some profile.now.float }
        requires carrier { HasCarrierInSet usual }
        ensures { result ≡ true → (s : State) → Represents self.now s → floats_asked profile.now usual s ≡ None }
    {
        match usual {
            Usual::Knit(_, n, c) => self.is_within_float(profile, n.at, c),
            Usual::Tuck(_, n, c) => self.is_within_float(profile, n.at, c),
            Usual::Xfer(_, _) => true,
        }
    }

    // Whether the carrier's float to a loop on this number isn't too long.
    #[inline(always)]
    fn is_within_float(&self, profile: &Profile, at: i16, c: CarrierNo) -> bool
        requires floats { self.now.keeps_lasts ≡ is_some profile.now.float }
        requires carrier { IsCarrier c }
        ensures { result ≡ true → (s : State) → Represents self.now s → floats_far profile.now.float s at 3 (c ∷ []) ≡ None }
    {
        match profile.float {
            None => true,
            Some(float) => is_near(float, self.lasts[c.0 as usize], at),
        }
    }

    // Whether the carrier is in action and the needle's own slider holds no loop.
    #[inline(always)]
    fn allows_loop(&self, n: Needle, c: CarrierNo) -> bool
        requires on { IsOn self.now.beds n.at }
        requires carrier { IsCarrier c }
        ensures carrier { result ≡ true → (s : State) → Represents self.now s → carriers_out s 3 (c ∷ []) ≡ None }
        ensures slider { result ≡ true → (s : State) → Represents self.now s → slider_holds s n ≡ None }
    {
        is_in_set(self.ins, c) && self.beds.loops_on(n.own_slider()) == 0
    }

    // Whether the needle can hold one loop more.
    #[inline(always)]
    fn has_room_on(&self, profile: &Profile, n: Needle) -> bool
        requires { IsOn self.now.beds n.at }
        ensures { result ≡ true → (s : State) → Represents self.now s → too_many profile.now (length (s.stacks n) + 1) 2 ≡ None }
    {
        self.beds.loops_on(n) < u32::from(profile.hold)
    }

    // Whether the two needles face each other.
    #[inline(always)]
    fn is_aligned(&self, n: Needle, n2: Needle) -> bool
        ensures { result ≡ true → (s : State) → Represents self.now s → not_aligned s n n2 2 ≡ None }
    {
        self.rack.0 == n.rack_facing(n2)
    }

    // Whether the second needle can hold the loops of both.
    #[inline(always)]
    fn has_room_together(&self, profile: &Profile, n: Needle, n2: Needle) -> bool
        requires from { IsOn self.now.beds n.at }
        requires to { IsOn self.now.beds n2.at }
        ensures { result ≡ true → (s : State) → Represents self.now s → too_many profile.now (length (s.stacks n2) + length (s.stacks n)) 2 ≡ None }
    {
        let loops = u64::from(self.beds.loops_on(n2)) + u64::from(self.beds.loops_on(n));
        loops <= u64::from(profile.hold)
    }

    // The groups of rules one after the other; where one is broken, the later ones aren't looked at.
    fn broken_instr(&self, profile: &Profile, instr: &Instr) -> Option<Reason>
        requires floats { self.now.keeps_lasts ≡ is_some profile.now.float }
        requires needles { HasNeedles self.now instr.now }
        requires places { HasCarrierPlaces instr.now }
        ensures { (s : State) → Represents self.now s → result ≡ broken_instr profile.now instr.now s }
    {
        self.carrier_broken(instr)
            .or_else(|| self.rack_broken(instr))
            .or_else(|| self.slider_broken(instr))
            .or_else(|| self.size_broken(profile, instr))
            .or_else(|| self.float_broken(profile, instr))
    }

    // The first rule on carriers and the hook that the instruction breaks.
    fn carrier_broken(&self, instr: &Instr) -> Option<Reason>
        requires { HasCarrierPlaces instr.now }
        ensures { (s : State) → Represents self.now s → result ≡ carrier_broken instr.now s }
    {
        match instr {
            Instr::CarryIn(yarns) => self.carriers_in(1, yarns),
            Instr::CarryOut(yarns) => self
                .carriers_out(1, yarns)
                .or_else(|| self.carriers_hooked(1, yarns)),
            Instr::HookIn(yarns) => self.carriers_in(1, yarns).or_else(|| self.hook_busy()),
            Instr::HookOut(yarns) => self.carriers_out(1, yarns).or_else(|| self.hook_busy()),
            Instr::ReleaseHook(yarns) => self.hook_other(yarns),
            Instr::Knit(_, _, yarns) | Instr::Tuck(_, _, yarns) => self.carriers_out(3, yarns),
            Instr::Miss(_, _, yarns) => self.carriers_out(3, yarns),
            Instr::Split(_, _, _, yarns) => self.carriers_out(4, yarns),
            Instr::Stitch | Instr::Pause | Instr::Extension => None,
            Instr::Rack(_) | Instr::Xfer(_, _) | Instr::Drop(_) | Instr::Amiss(_) => None,
        }
    }

    // The instruction moves loops to a needle that doesn't face theirs.
    fn rack_broken(&self, instr: &Instr) -> Option<Reason>
        ensures { (s : State) → Represents self.now s → result ≡ rack_broken instr.now s }
    {
        match instr {
            Instr::Split(_, n, n2, _) => self.not_aligned(*n, *n2, 3),
            Instr::Xfer(n, n2) => self.not_aligned(*n, *n2, 2),
            _ => None,
        }
    }

    // The instruction forms a loop on a hook whose own slider holds one.
    fn slider_broken(&self, instr: &Instr) -> Option<Reason>
        requires { HasNeedles self.now instr.now }
        ensures { (s : State) → Represents self.now s → result ≡ slider_broken instr.now s }
    {
        match instr.forming_needle() {
            Some(n) => self.slider_holds(n),
            None => None,
        }
    }

    // The instruction puts too many loops on a needle.
    fn size_broken(&self, profile: &Profile, instr: &Instr) -> Option<Reason>
        requires { HasNeedles self.now instr.now }
        ensures { (s : State) → Represents self.now s → result ≡ size_broken profile.now instr.now s }
    {
        match instr {
            Instr::Tuck(_, n, yarns) => self.tuck_too_many(profile, *n, yarns),
            Instr::Split(_, n, n2, _) => self.too_many_together(profile, *n, *n2, 3),
            Instr::Xfer(n, n2) => self.too_many_together(profile, *n, *n2, 2),
            _ => None,
        }
    }

    // A carrier's float to the loop that the instruction forms is too long.
    fn float_broken(&self, profile: &Profile, instr: &Instr) -> Option<Reason>
        requires floats { self.now.keeps_lasts ≡ is_some profile.now.float }
        requires places { HasCarrierPlaces instr.now }
        ensures { (s : State) → Represents self.now s → result ≡ float_broken profile.now instr.now s }
    {
        match instr {
            Instr::Knit(_, n, yarns) => self.floats_far(profile, n.at, 3, yarns),
            Instr::Tuck(_, n, yarns) => self.floats_far(profile, n.at, 3, yarns),
            Instr::Split(_, n, _, yarns) => self.floats_far(profile, n.at, 4, yarns),
            _ => None,
        }
    }

    // A carrier's float to a loop on this number is too long. The list of carriers begins at this token.
    fn floats_far(&self, profile: &Profile, number: i16, at: u16, yarns: &Yarns) -> Option<Reason>
        requires floats { self.now.keeps_lasts ≡ is_some profile.now.float }
        requires places { FitsPlaces at yarns.now }
        ensures { (s : State) → Represents self.now s → result ≡ floats_far profile.now.float s number at yarns.now }
    {
        let float = profile.float?;
        let i = self.first_far(float, number, yarns.as_slice())?;
        Some(Reason {
            rule: Rule::FloatTooLong,
            at: at + i as u16,
        })
    }

    // The place of the first carrier whose last needle is too far from this number.
    fn first_far(&self, float: u16, number: i16, carriers: &[CarrierNo]) -> Option<usize>
        requires { AreCarriers carriers.now }
        ensures { result ≡ position (λ c. not (is_near float (last_in self.now c) number)) carriers.now }
    {
        carriers
            .iter()
            .position(|c| !is_near(float, self.lasts[c.0 as usize], number))
    }

    fn tuck_too_many(&self, profile: &Profile, n: Needle, yarns: &Yarns) -> Option<Reason>
        requires { IsOn self.now.beds n.at }
        ensures { (s : State) → Represents self.now s → result ≡ tuck_too_many profile.now n yarns.now s }
    {
        if yarns.len() == 0 {
            return None;
        }
        too_many(profile, u64::from(self.beds.loops_on(n)) + 1, 2)
    }

    // A carrier of the list isn't in action. The list begins at this token.
    fn carriers_out(&self, at: u16, yarns: &Yarns) -> Option<Reason>
        requires { FitsPlaces at yarns.now }
        ensures { (s : State) → Represents self.now s → result ≡ carriers_out s at yarns.now }
    {
        let i = first_not_in_set(self.ins, yarns.as_slice())?;
        Some(Reason {
            rule: Rule::CarrierIsOut,
            at: at + i as u16,
        })
    }

    // A carrier of the list is in action.
    fn carriers_in(&self, at: u16, yarns: &Yarns) -> Option<Reason>
        requires { FitsPlaces at yarns.now }
        ensures { (s : State) → Represents self.now s → result ≡ carriers_already_in s at yarns.now }
    {
        let i = first_in_set(self.ins, yarns.as_slice())?;
        Some(Reason {
            rule: Rule::CarrierIsIn,
            at: at + i as u16,
        })
    }

    // The hook holds a carrier of the list.
    fn carriers_hooked(&self, at: u16, yarns: &Yarns) -> Option<Reason>
        requires { FitsPlaces at yarns.now }
        ensures { (s : State) → Represents self.now s → result ≡ carriers_hooked s at yarns.now }
    {
        let i = first_in_set(self.hook, yarns.as_slice())?;
        Some(Reason {
            rule: Rule::CarrierHooked,
            at: at + i as u16,
        })
    }

    fn hook_busy(&self) -> Option<Reason>
        ensures { (s : State) → Represents self.now s → result ≡ hook_busy s }
    {
        rule_if(self.hook > 0, Rule::HookBusy, 0)
    }

    fn hook_other(&self, yarns: &Yarns) -> Option<Reason>
        ensures { (s : State) → Represents self.now s → result ≡ hook_other s yarns.now }
    {
        rule_if(self.hook != yarns.mask(), Rule::HookOther, 0)
    }

    fn not_aligned(&self, n: Needle, n2: Needle, at: u16) -> Option<Reason>
        ensures { (s : State) → Represents self.now s → result ≡ not_aligned s n n2 at }
    {
        rule_if(self.rack.0 != n.rack_facing(n2), Rule::NotAligned, at)
    }

    fn slider_holds(&self, n: Needle) -> Option<Reason>
        requires { IsOn self.now.beds n.at }
        ensures { (s : State) → Represents self.now s → result ≡ slider_holds s n }
    {
        rule_if(self.beds.loops_on(n.own_slider()) > 0, Rule::SliderHolds, 2)
    }

    // The loops of both needles are too many for one.
    fn too_many_together(&self, profile: &Profile, n: Needle, n2: Needle, at: u16) -> Option<Reason>
        requires from { IsOn self.now.beds n.at }
        requires to { IsOn self.now.beds n2.at }
        ensures { (s : State) → Represents self.now s → result ≡ too_many profile.now (length (s.stacks n2) + length (s.stacks n)) at }
    {
        let loops = u64::from(self.beds.loops_on(n2)) + u64::from(self.beds.loops_on(n));
        too_many(profile, loops, at)
    }
}

/// Whether a carrier's last needle, if there is one, is at most so many numbers away from this number.
#[inline(always)]
pub fn is_near(float: u16, last: Option<i16>, at: i16) -> bool
    ensures { result ≡ is_near float last at }
{
    match last {
        None => true,
        Some(last) => (i32::from(last) - i32::from(at)).unsigned_abs() <= u32::from(float),
    }
}

fn too_many(profile: &Profile, loops: u64, at: u16) -> Option<Reason>
    ensures { result ≡ too_many profile.now loops at }
{
    rule_if(loops > u64::from(profile.hold), Rule::TooManyLoops, at)
}

fn rule_if(broken: bool, rule: Rule, at: u16) -> Option<Reason>
    ensures { result ≡ broken_if broken rule at }
{
    if broken {
        Some(Reason { rule, at })
    } else {
        None
    }
}

fn first_in_set(set: u64, carriers: &[CarrierNo]) -> Option<usize>
    requires { AreCarriers carriers.now }
    ensures { result ≡ position (contains_carrier set) carriers.now }
{
    carriers.iter().position(|c| is_in_set(set, *c))
}

fn first_not_in_set(set: u64, carriers: &[CarrierNo]) -> Option<usize>
    requires { AreCarriers carriers.now }
    ensures { result ≡ position (lacks_carrier set) carriers.now }
{
    carriers.iter().position(|c| !is_in_set(set, *c))
}
