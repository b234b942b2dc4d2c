//! One line more of a block that is prepared: in the draft of its lines, and in the table of its loops.
ghost use Rattle.std.specs.Prelude.{◌≡◌, ℕ, ◌+◌, ◌<◌, ◌^◌, ◌++◌, [], ◌∷◌, false, List, Option, IfOk, OnOk, None, length};
ghost use Rattle.std.specs.Option.{option_map, option_to_list};
ghost use Rattle.knit_base.specs.declared.instr.Instr.TheVariants.{Knit, Xfer};
ghost use Rattle.knit_base.specs.declared.instr.Read.{Read};
ghost use Rattle.knit_base.specs.declared.instr.Read.TheVariants as read;
ghost use Rattle.knit_base.specs.Lawful.{IsLawfulRead};
ghost use Rattle.knit_base.specs.Limits.{IsLawfulProfile};
ghost use Rattle.knit_base.specs.Needle.{is_slider, own_slider};
ghost use Rattle.knit_base.specs.Usual.{usual_read};
ghost use Rattle.knitout_reader.specs.Reading.{ReadsAs};
ghost use Rattle.knitout_reader.specs.Usual.{KnowsLastCarrier};
ghost use Rattle.face_data.specs.Segments.{change_at};
ghost use Rattle.block_summary.specs.Prepared.{AddsLine, AreRowsOf, IsKnitIfKnown, loop_row_of};

use crate::{Draft, DraftedLineEnd, FormedLoop};
use knit_base::{CarrierNo, Dir, Fault, Instr, Needle, NoMemory, Read, Setting, Usual, Yarns};
use knitout_reader::{LastNamed, read_line, usual_reading, usual_whole_line};
use loop_history::{LoopRow, LoopTable};

/// One line more. Answers with its fault where the lines are known to stop at it. `last` is what the lines before named.
pub fn add_line(
    line: &str,
    setting: &Setting,
    last: &mut LastNamed,
    draft: &mut Draft,
    loops: &mut LoopTable,
) -> Result<Option<Fault>, NoMemory>
    requires profile { IsLawfulProfile setting.now.profile }
    requires short { length line.now < 2 ^ 16 }
    requires last { KnowsLastCarrier setting.now.declared last.old }
    requires few { draft.old.lines < 4096 }
    requires rows { AreRowsOf draft.old.lines loops.old }
    ensures last { KnowsLastCarrier setting.now.declared last.new }
    ensures added { IfOk result (λ stop. (r : Read) → ReadsAs setting.now.profile setting.now.declared line.now r → AddsLine setting.now.profile (length setting.now.declared) r draft.old draft.new loops.old loops.new stop) }
    ensures lines { OnOk result (draft.new.lines ≡ draft.old.lines + 1) }
    ensures rows { OnOk result (AreRowsOf draft.new.lines loops.new) }
{
    let usual = usual_whole_line(line.as_bytes(), &setting.profile, &setting.declared, last);
    if let Some(usual) = usual {
        return add_usual(usual, setting, draft, loops);
    }
    add_other(line, setting, draft, loops)
}

// A line more that isn't usual. It stays out of the loop that most lines take, and so do the ways of other usual lines below.
#[inline(never)]
fn add_other(
    line: &str,
    setting: &Setting,
    draft: &mut Draft,
    loops: &mut LoopTable,
) -> Result<Option<Fault>, NoMemory>
    requires profile { IsLawfulProfile setting.now.profile }
    requires short { length line.now < 2 ^ 16 }
    requires few { draft.old.lines < 4096 }
    requires rows { AreRowsOf draft.old.lines loops.old }
    ensures added { IfOk result (λ stop. (r : Read) → ReadsAs setting.now.profile setting.now.declared line.now r → AddsLine setting.now.profile (length setting.now.declared) r draft.old draft.new loops.old loops.new stop) }
    ensures lines { OnOk result (draft.new.lines ≡ draft.old.lines + 1) }
    ensures rows { OnOk result (AreRowsOf draft.new.lines loops.new) }
{
    let read = read_line(draft.allocator(), line, &setting.profile, &setting.declared)?;
    add_read(&read, setting, draft, loops)
}

// One line more that reads so.
fn add_read(
    read: &Read,
    setting: &Setting,
    draft: &mut Draft,
    loops: &mut LoopTable,
) -> Result<Option<Fault>, NoMemory>
    requires profile { IsLawfulProfile setting.now.profile }
    requires lawful { IsLawfulRead setting.now.profile (length setting.now.declared) read.now }
    requires few { draft.old.lines < 4096 }
    requires rows { AreRowsOf draft.old.lines loops.old }
    ensures added { IfOk result (AddsLine setting.now.profile (length setting.now.declared) read.now draft.old draft.new loops.old loops.new) }
    ensures lines { OnOk result (draft.new.lines ≡ draft.old.lines + 1) }
    ensures rows { OnOk result (AreRowsOf draft.new.lines loops.new) }
{
    let _carriers = setting.declared.len();
    let offset = draft.lines();
    match draft.line(read, &setting.profile)? {
        DraftedLineEnd::Stops(fault) => Ok(Some(fault)),
        DraftedLineEnd::GoesOn(formed) => {
            add_row(offset, formed, loops)?;
            Ok(None)
        }
    }
}

// One usual line more.
fn add_usual(
    usual: Usual,
    setting: &Setting,
    draft: &mut Draft,
    loops: &mut LoopTable,
) -> Result<Option<Fault>, NoMemory>
    requires profile { IsLawfulProfile setting.now.profile }
    requires lawful { IsLawfulRead setting.now.profile (length setting.now.declared) (usual_read usual) }
    requires few { draft.old.lines < 4096 }
    requires rows { AreRowsOf draft.old.lines loops.old }
    ensures added { IfOk result (AddsLine setting.now.profile (length setting.now.declared) (usual_read usual) draft.old draft.new loops.old loops.new) }
    ensures lines { OnOk result (draft.new.lines ≡ draft.old.lines + 1) }
    ensures rows { OnOk result (AreRowsOf draft.new.lines loops.new) }
{
    let _carriers = setting.declared.len();
    match usual {
        Usual::Knit(dir, n, c) => {
            if setting.profile.float.is_some() {
                return add_reading(usual, setting, draft, loops);
            }
            if add_knit(dir, n, c, draft, loops)? {
                return Ok(None);
            }
            if draft.is_untouched(n.own_slider()) {
                return add_first_knit(dir, n, c, setting, draft, loops);
            }
            add_reading(usual, setting, draft, loops)
        }
        Usual::Tuck(..) => add_reading(usual, setting, draft, loops),
        Usual::Xfer(n, n2) => add_transfer(n, n2, setting, draft, loops),
    }
}

// The same by its reading.
#[inline(never)]
fn add_reading(
    usual: Usual,
    setting: &Setting,
    draft: &mut Draft,
    loops: &mut LoopTable,
) -> Result<Option<Fault>, NoMemory>
    requires profile { IsLawfulProfile setting.now.profile }
    requires lawful { IsLawfulRead setting.now.profile (length setting.now.declared) (usual_read usual) }
    requires few { draft.old.lines < 4096 }
    requires rows { AreRowsOf draft.old.lines loops.old }
    ensures added { IfOk result (AddsLine setting.now.profile (length setting.now.declared) (usual_read usual) draft.old draft.new loops.old loops.new) }
    ensures lines { OnOk result (draft.new.lines ≡ draft.old.lines + 1) }
    ensures rows { OnOk result (AreRowsOf draft.new.lines loops.new) }
{
    let _carriers = setting.declared.len();
    let read = usual_reading(draft.allocator(), usual);
    add_read(&read, setting, draft, loops)
}

// A transfer more, which forms no loop.
#[inline(never)]
fn add_transfer(
    n: Needle,
    n2: Needle,
    setting: &Setting,
    draft: &mut Draft,
    loops: &mut LoopTable,
) -> Result<Option<Fault>, NoMemory>
    requires profile { IsLawfulProfile setting.now.profile }
    requires lawful { IsLawfulRead setting.now.profile (length setting.now.declared) (read.Instr (Xfer n n2)) }
    requires few { draft.old.lines < 4096 }
    requires rows { AreRowsOf draft.old.lines loops.old }
    ensures added { IfOk result (AddsLine setting.now.profile (length setting.now.declared) (read.Instr (Xfer n n2)) draft.old draft.new loops.old loops.new) }
    ensures lines { OnOk result (draft.new.lines ≡ draft.old.lines + 1) }
    ensures rows { OnOk result (AreRowsOf draft.new.lines loops.new) }
{
    let _carriers = setting.declared.len();
    let instr = Instr::Xfer(n, n2);
    match draft.transfer(&instr, n, n2, &setting.profile)? {
        DraftedLineEnd::Stops(fault) => Ok(Some(fault)),
        DraftedLineEnd::GoesOn(_) => Ok(None),
    }
}

// A knit more of which all is known, with its row, where floats have no limit. Answers whether it is one; where it isn't, nothing was done.
#[inline(always)]
fn add_knit(
    dir: Dir,
    n: Needle,
    c: CarrierNo,
    draft: &mut Draft,
    loops: &mut LoopTable,
) -> Result<bool, NoMemory>
    requires hook { is_slider n.bed ≡ false }
    requires carrier { c.0 < 64 }
    requires few { draft.old.lines < 4096 }
    requires rows { AreRowsOf draft.old.lines loops.old }
    ensures { IfOk result (λ known. IsKnitIfKnown known dir n c draft.old draft.new loops.old loops.new) }
{
    if !draft.is_bare(n) {
        return Ok(false);
    }
    if !draft.knows_carrier(c) {
        return Ok(false);
    }
    let yarns = Yarns::one(draft.allocator(), c);
    let offset = draft.lines();
    let through = draft.knit(n)?;
    loops.push(LoopRow {
        offset,
        needle: n,
        dir,
        yarns,
        through,
    })?;
    Ok(true)
}

// A knit more of which not all is known, beside a slider that no line has changed: the rest is asked, and then all is known.
#[inline(never)]
fn add_first_knit(
    dir: Dir,
    n: Needle,
    c: CarrierNo,
    setting: &Setting,
    draft: &mut Draft,
    loops: &mut LoopTable,
) -> Result<Option<Fault>, NoMemory>
    requires profile { IsLawfulProfile setting.now.profile }
    requires lawful { IsLawfulRead setting.now.profile (length setting.now.declared) (read.Instr (Knit dir n (c ∷ []))) }
    requires untouched { change_at draft.old.changes (own_slider n) ≡ None }
    requires floats { setting.now.profile.float ≡ None }
    requires few { draft.old.lines < 4096 }
    requires rows { AreRowsOf draft.old.lines loops.old }
    ensures added { IfOk result (AddsLine setting.now.profile (length setting.now.declared) (read.Instr (Knit dir n (c ∷ []))) draft.old draft.new loops.old loops.new) }
    ensures lines { OnOk result (draft.new.lines ≡ draft.old.lines + 1) }
    ensures rows { OnOk result (AreRowsOf draft.new.lines loops.new) }
{
    let _carriers = setting.declared.len();
    if let Some(reason) = draft.ask_usual_knit(n, c)? {
        return Ok(Some(draft.stop(reason)));
    }
    draft.note_bare(n);
    if add_knit(dir, n, c, draft, loops)? {
        return Ok(None);
    }
    add_reading(Usual::Knit(dir, n, c), setting, draft, loops)
}

// The row of the loop that the line with this offset forms, if it forms one.
fn add_row(offset: u32, formed: Option<FormedLoop>, loops: &mut LoopTable) -> Result<(), NoMemory>
    requires few { offset < 4096 }
    requires rows { AreRowsOf offset loops.old }
    ensures { OnOk result (loops.new ≡ loops.old ++ option_to_list (option_map (loop_row_of offset) formed)) }
{
    match formed {
        None => Ok(()),
        Some(formed) => loops.push(LoopRow {
            offset,
            needle: formed.needle,
            dir: formed.dir,
            yarns: formed.yarns,
            through: formed.through,
        }),
    }
}
