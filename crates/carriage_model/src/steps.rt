//! What a line that breaks no rule does to the machine.
ghost use Rattle.std.specs.Prelude.{◌≡◌, true, false, [], ◌∷◌, None, is_some, slice_index_or, OnOk, OnErr};
ghost use Rattle.knit_base.specs.declared.instr.Instr.TheVariants.{Knit, Tuck};
ghost use Rattle.knit_base.specs.declared.profile.Profile.{Profile};
ghost use Rattle.knit_base.specs.Instr.{formed_on};
ghost use Rattle.knit_base.specs.Usual.{usual_read};
ghost use Rattle.knit_base.specs.Yarns.{AreCarriers, IsCarrier};
ghost use Rattle.carriage_model.specs.State.{State, with_lasts};
ghost use Rattle.carriage_model.specs.Steps.{step, step_instr, step_knit, step_tuck, step_split};

use crate::machine::Machine;
use knit_base::{CarrierNo, Dir, Instr, Needle, NoMemory, Read, Usual, Yarns};

impl Machine {
    ghost use Rattle.carriage_model.specs.Beds.{IsOn};
    ghost use Rattle.carriage_model.specs.Machine.{Represents, StandsAsBefore, IsSameKind, HasNoted, HasLoopRoom, HasRoomInLine, HasRoomForLoop, HasNeedles, HasNeedlesInLine, HasCarrierInSet, CanGoOver, last_in};

    /// Carries out this line, which breaks no rule. After `NoMemory` the machine stands as before, here and below.
    pub fn step(&mut self, line: u32, read: &Read) -> Result<(), NoMemory>
        requires needles { HasNeedlesInLine self.old read.now }
        requires room { HasRoomInLine self.old read.now }
        ensures ok { OnOk result ((profile : Profile) (s : State) → self.old.keeps_lasts ≡ is_some profile.float → Represents self.old s → Represents self.new (step profile line read.now s)) }
        ensures kept { OnOk result (IsSameKind self.old self.new) }
        ensures err { OnErr result (StandsAsBefore self.old self.new) }
    {
        match read {
            Read::Instr(instr) => {
                self.step_instr(line, instr)?;
                self.note_lasts(instr);
                Ok(())
            }
            Read::Broken(_) | Read::Blank | Read::Comment => Ok(()),
        }
    }

    /// Carries out this line, which breaks no rule, if most lines say the like and no last needles are kept.
    #[inline(always)]
    pub fn step_usual(&mut self, line: u32, usual: Usual) -> Result<(), NoMemory>
        requires floats { self.old.keeps_lasts ≡ false }
        requires needles { HasNeedlesInLine self.old (usual_read usual) }
        requires room { HasRoomInLine self.old (usual_read usual) }
        ensures ok { OnOk result ((profile : Profile) (s : State) → self.old.keeps_lasts ≡ is_some profile.float → Represents self.old s → Represents self.new (step profile line (usual_read usual) s)) }
        ensures kept { OnOk result (IsSameKind self.old self.new) }
        ensures err { OnErr result (StandsAsBefore self.old self.new) }
    {
        match usual {
            Usual::Knit(_, n, _) => self.beds.knit_off(line, n),
            Usual::Tuck(_, n, _) => self.beds.join(line, n),
            Usual::Xfer(n, n2) => self.beds.transfer(n, n2),
        }
    }

    /// The same, whether last needles are kept or not.
    #[inline(always)]
    pub fn step_noting(&mut self, line: u32, usual: Usual) -> Result<(), NoMemory>
        requires needles { HasNeedlesInLine self.old (usual_read usual) }
        requires carrier { HasCarrierInSet usual }
        requires room { HasRoomInLine self.old (usual_read usual) }
        ensures ok { OnOk result ((profile : Profile) (s : State) → self.old.keeps_lasts ≡ is_some profile.float → Represents self.old s → Represents self.new (step profile line (usual_read usual) s)) }
        ensures kept { OnOk result (IsSameKind self.old self.new) }
        ensures err { OnErr result (StandsAsBefore self.old self.new) }
    {
        match usual {
            Usual::Knit(dir, n, c) => {
                self.beds.knit_off(line, n)?;
                self.note_loop(dir, n, c);
                Ok(())
            }
            Usual::Tuck(dir, n, c) => {
                self.beds.join(line, n)?;
                self.note_loop(dir, n, c);
                Ok(())
            }
            Usual::Xfer(n, n2) => self.beds.transfer(n, n2),
        }
    }

    // The needle of a new loop is the carrier's last.
    #[inline(always)]
    fn note_loop(&mut self, dir: Dir, n: Needle, c: CarrierNo)
        requires { IsCarrier c }
        ensures knit { HasNoted (Knit dir n (c ∷ [])) self.old self.new }
        ensures tuck { HasNoted (Tuck dir n (c ∷ [])) self.old self.new }
    {
        if self.keeps_lasts {
            self.lasts[c.0 as usize] = Some(n.at);
        }
    }

    // Keeps the last needles that the instruction gives carriers, where the machine keeps them.
    fn note_lasts(&mut self, instr: &Instr)
        ensures { HasNoted instr.now self.old self.new }
    {
        match instr {
            Instr::CarryIn(yarns) => self.put_lasts(yarns.as_slice(), None),
            Instr::CarryOut(yarns) => self.put_lasts(yarns.as_slice(), None),
            Instr::HookIn(yarns) => self.put_lasts(yarns.as_slice(), None),
            Instr::HookOut(yarns) => self.put_lasts(yarns.as_slice(), None),
            Instr::Knit(_, n, yarns) => self.put_lasts(yarns.as_slice(), Some(n.at)),
            Instr::Tuck(_, n, yarns) => self.put_lasts(yarns.as_slice(), Some(n.at)),
            Instr::Split(_, n, _, yarns) => self.put_lasts(yarns.as_slice(), Some(n.at)),
            _ => {}
        }
    }

    // The last needle of each of the carriers has this number, or none, where the machine keeps them.
    fn put_lasts(&mut self, carriers: &[CarrierNo], at: Option<i16>)
        requires { AreCarriers carriers.now }
        ensures lasts { self.old.keeps_lasts ≡ true → (c : CarrierNo) → IsCarrier c → last_in self.new c ≡ with_lasts (last_in self.old) carriers.now at c }
        ensures rest { self.new ≡ record self.old { lasts = self.new.lasts } }
    {
        if !self.keeps_lasts {
            return;
        }
        put_each(&mut self.lasts, carriers, at);
    }

    fn step_instr(&mut self, line: u32, instr: &Instr) -> Result<(), NoMemory>
        requires needles { HasNeedles self.old instr.now }
        requires room { HasLoopRoom self.old instr.now }
        ensures ok { OnOk result ((s : State) → Represents self.old s → Represents self.new (step_instr line instr.now s)) }
        ensures kept { OnOk result (IsSameKind self.old self.new) }
        ensures err { OnErr result (StandsAsBefore self.old self.new) }
    {
        match instr {
            Instr::CarryIn(yarns) => {
                self.ins |= yarns.mask();
                Ok(())
            }
            Instr::HookIn(yarns) => {
                self.hook = yarns.mask();
                self.ins |= self.hook;
                Ok(())
            }
            Instr::CarryOut(yarns) | Instr::HookOut(yarns) => {
                self.ins ^= self.ins & yarns.mask();
                Ok(())
            }
            Instr::ReleaseHook(_) => {
                self.hook = 0;
                Ok(())
            }
            Instr::Rack(rack) => {
                self.rack = *rack;
                Ok(())
            }
            Instr::Knit(_, n, yarns) => self.step_knit(line, *n, yarns),
            Instr::Tuck(_, n, yarns) => self.step_tuck(line, *n, yarns),
            Instr::Split(_, n, n2, yarns) => self.step_split(line, *n, *n2, yarns),
            Instr::Xfer(n, n2) => self.beds.transfer(*n, *n2),
            Instr::Drop(n) => {
                self.beds.empty(*n);
                Ok(())
            }
            Instr::Stitch | Instr::Pause | Instr::Extension => Ok(()),
            Instr::Miss(_, _, _) | Instr::Amiss(_) => Ok(()),
        }
    }

    fn step_knit(&mut self, line: u32, n: Needle, yarns: &Yarns) -> Result<(), NoMemory>
        requires { IsOn self.old.beds n.at }
        ensures ok { OnOk result ((s : State) → Represents self.old s → Represents self.new (step_knit line n yarns.now s)) }
        ensures kept { OnOk result (IsSameKind self.old self.new) }
        ensures err { OnErr result (StandsAsBefore self.old self.new) }
    {
        if yarns.len() == 0 {
            self.beds.empty(n);
            return Ok(());
        }
        self.beds.knit_off(line, n)
    }

    fn step_tuck(&mut self, line: u32, n: Needle, yarns: &Yarns) -> Result<(), NoMemory>
        requires on { IsOn self.old.beds n.at }
        requires room { HasRoomForLoop self.old (formed_on n yarns.now) }
        ensures ok { OnOk result ((s : State) → Represents self.old s → Represents self.new (step_tuck line n yarns.now s)) }
        ensures kept { OnOk result (IsSameKind self.old self.new) }
        ensures err { OnErr result (StandsAsBefore self.old self.new) }
    {
        if yarns.len() == 0 {
            return Ok(());
        }
        self.beds.join(line, n)
    }

    fn step_split(
        &mut self,
        line: u32,
        n: Needle,
        n2: Needle,
        yarns: &Yarns,
    ) -> Result<(), NoMemory>
        requires from { IsOn self.old.beds n.at }
        requires to { IsOn self.old.beds n2.at }
        requires over { CanGoOver self.old n n2 }
        ensures ok { OnOk result ((s : State) → Represents self.old s → Represents self.new (step_split line n n2 yarns.now s)) }
        ensures kept { OnOk result (IsSameKind self.old self.new) }
        ensures err { OnErr result (StandsAsBefore self.old self.new) }
    {
        if yarns.len() == 0 {
            return self.beds.transfer(n, n2);
        }
        self.beds.split(line, n, n2)
    }
}

// The last needle of each of the carriers has this number, or none.
fn put_each(lasts: &mut [Option<i16>; 64], carriers: &[CarrierNo], at: Option<i16>)
    requires { AreCarriers carriers.now }
    ensures { (c : CarrierNo) → IsCarrier c → slice_index_or lasts.new c.0 None ≡ with_lasts (λ d. slice_index_or lasts.old d.0 None) carriers.now at c }
{
    for c in carriers {
        lasts[c.0 as usize] = at;
    }
}
