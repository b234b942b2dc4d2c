//! The carriage operations of a text.
ghost use Rattle.std.specs.Prelude.{◌≡◌, ◌+◌, ◌<◌, ◌≤◌, ◌^◌, ◌-◌, ◌++◌, ℕ, Some, [], pos, negsuc, ◌+ℤ◌, ◌*ℤ◌, ◌≤ℤ◌, length, All, IfOk, OnErr, OnOk, if◌then◌else◌};
ghost use Rattle.std.specs.Option.{option_to_list};
ghost use Rattle.knit_base.specs.declared.profile.Profile.{Profile};
ghost use Rattle.knit_base.specs.Lawful.{IsLawfulRead};
ghost use Rattle.knit_base.specs.Usual.{usual_read};
ghost use Rattle.pass_grouping.specs.Operations.{operation_of_instr, operation_of, ends_stretch, rack_behind, operation_place, IsWithinGreatestRack, operation_with_carriers, plain_operation};

use knit_base::{Bed, CarrierNo, Dir, Instr, ListOf, Needle, NoMemory, Read, Usual, Yarns};
use std::alloc::Global;

/// What a carriage operation does. Operations of different classes are never in one pass.
#[derive(Clone, Copy, Debug, PartialEq, Eq)]
pub enum Class {
    Form,
    Split,
    Move,
    Drop,
}

/// A carriage operation: the line that it stands in, the stretch of lines without a pause, and what two operations of one
/// pass share or differ in. `place` is in quarters of a needle, seen from the front bed. `yarns` are the carriers in written
/// order; two operations have the same ones where their lists are equal in that order, too. `dir` is `None` and `yarns` empty
/// for `Move` and `Drop`.
#[derive(Drop)]
pub struct PassOp {
    pub line: u32,
    pub stretch: u32,
    pub class: Class,
    pub dir: Option<Dir>,
    pub yarns: Yarns,
    pub place: i32,
}

/// The carriage operations of a text, in the order of their lines.
pub type PassOps = ListOf<PassOp>;

// Appends the operation of a line, if it is one.
pub(crate) fn append(ops: &mut PassOps, op: Option<PassOp>) -> Result<(), NoMemory>
    requires { length ops.old < 2 ^ 32 - 1 }
    ensures ok { OnOk result (ops.new ≡ ops.old ++ option_to_list op) }
    ensures err { OnErr result (ops.new ≡ ops.old) }
{
    match op {
        Some(op) => ops.push(op),
        None => Ok(()),
    }
}

// How many stretches end at this line.
pub(crate) fn stretches_ended(read: &Read) -> u32
    ensures { result ≡ (if ends_stretch read.now then 1 else 0) }
{
    match read {
        Read::Blank | Read::Comment => 0,
        Read::Broken(_) => 1,
        Read::Instr(instr) => match instr {
            Instr::CarryIn(_) | Instr::CarryOut(_) | Instr::HookIn(_) | Instr::HookOut(_) => 1,
            Instr::ReleaseHook(_) | Instr::Rack(_) => 1,
            Instr::Stitch | Instr::Pause | Instr::Extension => 1,
            Instr::Miss(_, _, yarns) => { if yarns.len() == 0 { 1 } else { 0 } }
            Instr::Knit(_, _, _) | Instr::Tuck(_, _, _) | Instr::Split(_, _, _, _) => 0,
            Instr::Xfer(_, _) | Instr::Drop(_) | Instr::Amiss(_) => 0,
        },
    }
}

// The rack behind this line, in quarters.
pub(crate) fn rack_behind(rack: i32, read: &Read) -> i32
    ensures { result ≡ rack_behind rack read.now }
{
    match read {
        Read::Instr(Instr::Rack(quarters)) => quarters.0,
        _ => rack,
    }
}

// The operation of a line, if it is one.
pub(crate) fn operation_of(
    alloc: Global,
    line: u32,
    stretch: u32,
    rack: i32,
    read: &Read,
) -> Result<Option<PassOp>, NoMemory>
    requires { IsWithinGreatestRack rack }
    ensures { IfOk result (λ op. op ≡ operation_of line stretch rack read.now) }
{
    match read {
        Read::Instr(instr) => {
            let spot = Spot {
                line,
                stretch,
                rack,
            };
            operation_of_instr(alloc, spot, instr)
        }
        Read::Blank | Read::Comment | Read::Broken(_) => Ok(None),
    }
}

fn operation_of_instr(alloc: Global, spot: Spot, instr: &Instr) -> Result<Option<PassOp>, NoMemory>
    requires { IsWithinGreatestRack spot.rack }
    ensures { IfOk result (λ op. op ≡ operation_of_instr spot.line spot.stretch spot.rack instr.now) }
{
    match instr {
        Instr::Knit(dir, n, yarns) | Instr::Tuck(dir, n, yarns) => {
            if yarns.len() == 0 {
                return Ok(Some(spot.uncarried(alloc, Class::Drop, *n)));
            }
            spot.carried(Class::Form, *dir, *n, yarns)
        }
        Instr::Miss(dir, n, yarns) => {
            if yarns.len() == 0 {
                return Ok(None);
            }
            spot.carried(Class::Form, *dir, *n, yarns)
        }
        Instr::Split(dir, n, _, yarns) => {
            if yarns.len() == 0 {
                return Ok(Some(spot.uncarried(alloc, Class::Move, *n)));
            }
            spot.carried(Class::Split, *dir, *n, yarns)
        }
        Instr::Xfer(n, _) => Ok(Some(spot.uncarried(alloc, Class::Move, *n))),
        Instr::Drop(n) | Instr::Amiss(n) => Ok(Some(spot.uncarried(alloc, Class::Drop, *n))),
        Instr::CarryIn(_) | Instr::CarryOut(_) | Instr::HookIn(_) | Instr::HookOut(_) => Ok(None),
        Instr::ReleaseHook(_) | Instr::Rack(_) => Ok(None),
        Instr::Stitch | Instr::Pause | Instr::Extension => Ok(None),
    }
}

// The operation of a usual line.
#[inline(always)]
pub(crate) fn usual_operation(
    alloc: Global,
    line: u32,
    stretch: u32,
    rack: i32,
    usual: Usual,
) -> PassOp
    requires rack { IsWithinGreatestRack rack }
    requires lawful { (profile : Profile) × (carriers : ℕ) × (carriers ≤ 64) × IsLawfulRead profile carriers (usual_read usual) }
    ensures { Some result ≡ operation_of line stretch rack (usual_read usual) }
{
    let spot = Spot {
        line,
        stretch,
        rack,
    };
    match usual {
        Usual::Knit(dir, n, c) => spot.formed(alloc, dir, n, c),
        Usual::Tuck(dir, n, c) => spot.formed(alloc, dir, n, c),
        Usual::Xfer(n, _) => spot.uncarried(alloc, Class::Move, n),
    }
}

// Where a line stands: its number, its stretch, and the rack there.
#[derive(Clone, Copy)]
struct Spot {
    line: u32,
    stretch: u32,
    rack: i32,
}

impl Spot {
    ghost use Rattle.std.specs.Prelude.{◌≡◌, ◌<◌, ◌∷◌, [], IfOk, Some};
    ghost use Rattle.pass_grouping.specs.declared.operation.Class.TheVariants as class;

    // An operation that goes in a direction and uses carriers.
    fn carried(
        self,
        class: Class,
        dir: Dir,
        n: Needle,
        yarns: &Yarns,
    ) -> Result<Option<PassOp>, NoMemory>
        requires { IsWithinGreatestRack self.rack }
        ensures { IfOk result (λ op. op ≡ Some (operation_with_carriers class self.line self.stretch self.rack dir n yarns.now)) }
    {
        Ok(Some(PassOp {
            line: self.line,
            stretch: self.stretch,
            class,
            dir: Some(dir),
            yarns: yarns.try_clone()?,
            place: self.place_of(n),
        }))
    }

    // An operation that forms a loop of this carrier alone.
    #[inline(always)]
    fn formed(self, alloc: Global, dir: Dir, n: Needle, c: CarrierNo) -> PassOp
        requires rack { IsWithinGreatestRack self.rack }
        requires carrier { c.0 < 64 }
        ensures { result ≡ operation_with_carriers class.Form self.line self.stretch self.rack dir n (c ∷ []) }
    {
        PassOp {
            line: self.line,
            stretch: self.stretch,
            class: Class::Form,
            dir: Some(dir),
            yarns: Yarns::one(alloc, c),
            place: self.place_of(n),
        }
    }

    // An operation without direction and carriers.
    #[inline(always)]
    fn uncarried(self, alloc: Global, class: Class, n: Needle) -> PassOp
        requires { IsWithinGreatestRack self.rack }
        ensures { result ≡ plain_operation class self.line self.stretch self.rack n }
    {
        PassOp {
            line: self.line,
            stretch: self.stretch,
            class,
            dir: None,
            yarns: Yarns::new(alloc),
            place: self.place_of(n),
        }
    }

    // The needle's place in quarters: the back bed stands off by the rack.
    #[inline(always)]
    fn place_of(self, n: Needle) -> i32
        requires { IsWithinGreatestRack self.rack }
        ensures { result ≡ operation_place self.rack n }
    {
        let place = quarters(n.at);
        match n.bed {
            Bed::Front | Bed::FrontSlider => place,
            Bed::Back | Bed::BackSlider => place + self.rack,
        }
    }
}

// A number on a bed in quarters of a needle.
#[inline(always)]
fn quarters(at: i16) -> i32
    ensures value { result ≡ pos 4 *ℤ at }
    ensures low { negsuc 131071 ≤ℤ result }
    ensures high { result ≤ℤ pos 131068 }
{
    4 * at as i32
}
