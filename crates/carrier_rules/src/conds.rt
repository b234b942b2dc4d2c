//! The conditions on carriers, on the hook and on floats.
ghost use Rattle.std.specs.Prelude.{◌≡◌, ◌<◌, ◌^◌, ◌+◌, [], ◌∷◌, ◌++◌, length, IfOk, OnOk};
ghost use Rattle.knit_base.specs.declared.rule.Rule.TheVariants.{HookBusy, HookOther};
ghost use Rattle.knit_base.specs.Yarns.{mask_of};
ghost use Rattle.carriage_model.specs.Machine.{HasCarrierPlaces, FitsPlaces};
ghost use Rattle.face_data.specs.declared.face.Cond.TheVariants.{HookFree, HookIs};
ghost use Rattle.carrier_rules.specs.declared.conds.OfEach.TheVariants.{InAction, NotInHook};
ghost use Rattle.carrier_rules.specs.Carriers.{cond_of, rule_of, conds_of_each, conds_of, early_of, floats_of, floats_of_each, hook_reason};

use face_data::{Cond, CondList};
use knit_base::{CarrierNo, Instr, NoMemory, Profile, Reason, Rule, Yarns};
use std::alloc::Global;

/// What is asked of each carrier of a list.
#[derive(Clone, Copy)]
pub enum OfEach {
    InAction,
    NotInAction,
    NotInHook,
}

impl OfEach {
    fn cond(self, c: CarrierNo) -> Cond
        ensures { result ≡ cond_of self c }
    {
        match self {
            OfEach::InAction => Cond::CarrierIn(c),
            OfEach::NotInAction => Cond::CarrierOut(c),
            OfEach::NotInHook => Cond::HookLacks(c),
        }
    }

    fn rule(self) -> Rule
        ensures { result ≡ rule_of self }
    {
        match self {
            OfEach::InAction => Rule::CarrierIsOut,
            OfEach::NotInAction => Rule::CarrierIsIn,
            OfEach::NotInHook => Rule::CarrierHooked,
        }
    }
}

/// The conditions of the instruction, in the order of the rules.
pub fn conds_of(alloc: Global, instr: &Instr, profile: &Profile) -> Result<CondList, NoMemory>
    requires { HasCarrierPlaces instr.now }
    ensures { IfOk result (λ conds. conds ≡ conds_of profile.now.float instr.now) }
{
    let mut conds = early_of(alloc, instr)?;
    if let Some(float) = profile.float {
        add_floats(&mut conds, float, instr)?;
    }
    Ok(conds)
}

// Adds those on floats.
fn add_floats(conds: &mut CondList, float: u16, instr: &Instr) -> Result<(), NoMemory>
    requires room { length conds.old < 2 ^ 17 }
    requires places { HasCarrierPlaces instr.now }
    ensures { OnOk result (conds.new ≡ conds.old ++ floats_of float instr.now) }
{
    match instr {
        Instr::Knit(_, n, yarns) | Instr::Tuck(_, n, yarns) => {
            ask_near(conds, float, n.at, 3, yarns)
        }
        Instr::Split(_, n, _, yarns) => ask_near(conds, float, n.at, 4, yarns),
        _ => Ok(()),
    }
}

// The last needle of each carrier, the first of which stands at this token, is near.
fn ask_near(
    conds: &mut CondList,
    float: u16,
    number: i16,
    at: u16,
    yarns: &Yarns,
) -> Result<(), NoMemory>
    requires room { length conds.old < 2 ^ 17 }
    requires places { FitsPlaces at yarns.now }
    ensures { OnOk result (conds.new ≡ conds.old ++ floats_of_each float number at yarns.now) }
{
    for (i, c) in yarns.as_slice().iter().enumerate() {
        let reason = Reason {
            rule: Rule::FloatTooLong,
            at: at + i as u16,
        };
        conds.push((reason, Cond::LastNear(*c, number, float)))?;
    }
    Ok(())
}

// Those that are asked before the rack, in the order of the rules.
fn early_of(alloc: Global, instr: &Instr) -> Result<CondList, NoMemory>
    requires { HasCarrierPlaces instr.now }
    ensures conds { IfOk result (λ conds. conds ≡ early_of instr.now) }
    ensures few { IfOk result (λ conds. length conds < 2 ^ 17) }
{
    match instr {
        Instr::CarryIn(yarns) => of_each(alloc, OfEach::NotInAction, 1, yarns),
        Instr::CarryOut(yarns) => out(alloc, yarns),
        Instr::HookIn(yarns) => with_free_hook(of_each(alloc, OfEach::NotInAction, 1, yarns)?),
        Instr::HookOut(yarns) => with_free_hook(of_each(alloc, OfEach::InAction, 1, yarns)?),
        Instr::ReleaseHook(yarns) => release(alloc, yarns),
        Instr::Knit(_, _, yarns) | Instr::Tuck(_, _, yarns) | Instr::Miss(_, _, yarns) => {
            of_each(alloc, OfEach::InAction, 3, yarns)
        }
        Instr::Split(_, _, _, yarns) => of_each(alloc, OfEach::InAction, 4, yarns),
        _ => Ok(CondList::new(alloc)),
    }
}

// The carriers are in action, and the hook holds none of them.
fn out(alloc: Global, yarns: &Yarns) -> Result<CondList, NoMemory>
    requires { FitsPlaces 1 yarns.now }
    ensures conds { IfOk result (λ conds. conds ≡ conds_of_each InAction 1 yarns.now ++ conds_of_each NotInHook 1 yarns.now) }
    ensures few { IfOk result (λ conds. length conds < 2 ^ 17) }
{
    let mut conds = of_each(alloc, OfEach::InAction, 1, yarns)?;
    ask_each(&mut conds, OfEach::NotInHook, 1, yarns)?;
    Ok(conds)
}

// The hook holds exactly these yarns.
fn release(alloc: Global, yarns: &Yarns) -> Result<CondList, NoMemory>
    ensures { IfOk result (λ conds. conds ≡ (hook_reason HookOther, HookIs (mask_of yarns.now)) ∷ []) }
{
    let reason = Reason {
        rule: Rule::HookOther,
        at: 0,
    };
    let mut conds = CondList::new(alloc);
    conds.push((reason, Cond::HookIs(yarns.mask())))?;
    Ok(conds)
}

// The hook holds nothing, which is asked after all else.
fn with_free_hook(conds: CondList) -> Result<CondList, NoMemory>
    requires { length conds < 2 ^ 16 }
    ensures { IfOk result (λ all. all ≡ conds ++ (hook_reason HookBusy, HookFree) ∷ []) }
{
    let reason = Reason {
        rule: Rule::HookBusy,
        at: 0,
    };
    let mut all = conds;
    all.push((reason, Cond::HookFree))?;
    Ok(all)
}

// The same is asked of each carrier, the first of them at this token.
fn of_each(alloc: Global, asked: OfEach, at: u16, yarns: &Yarns) -> Result<CondList, NoMemory>
    requires { FitsPlaces at yarns.now }
    ensures asked { IfOk result (λ conds. conds ≡ conds_of_each asked at yarns.now) }
    ensures few { IfOk result (λ conds. length conds < 2 ^ 16) }
{
    let mut conds = CondList::new(alloc);
    ask_each(&mut conds, asked, at, yarns)?;
    Ok(conds)
}

fn ask_each(conds: &mut CondList, asked: OfEach, at: u16, yarns: &Yarns) -> Result<(), NoMemory>
    requires room { length conds.old < 2 ^ 16 }
    requires places { FitsPlaces at yarns.now }
    ensures asked { OnOk result (conds.new ≡ conds.old ++ conds_of_each asked at yarns.now) }
    ensures more { OnOk result (length conds.new ≡ length conds.old + length yarns.now) }
{
    for (i, c) in yarns.as_slice().iter().enumerate() {
        let reason = Reason {
            rule: asked.rule(),
            at: at + i as u16,
        };
        conds.push((reason, asked.cond(*c)))?;
    }
    Ok(())
}
