//! Lines in their canonical spelling.
ghost use Rattle.std.specs.Prelude.{◌≡◌, ◌∷◌, ◌++◌, [], OnOk, OnErr, codes};
ghost use Rattle.knit_base.specs.declared.profile.Profile.{Profile};
ghost use Rattle.knit_base.specs.Limits.{IsLawfulProfile};
ghost use Rattle.knit_base.specs.Spelling.{dir_word, needle_text, rack_text};
ghost use Rattle.knitout_reader.specs.Tokens.{before_comment, tokens_of};
ghost use Rattle.knitout_writer.specs.Canonical.{IsStableSpelling, canonical, canonical_tokens, carrier_names, comment_of, comment_behind, tokens_spaced, each_spaced};

use knit_base::{
    Declared, Dir, Instr, Needle, NoMemory, Quarter, Read, Yarns, append_needle, append_rack,
};
use knitout_reader::{code_of, comment_at, next_token};
use std::alloc::Global;

/// Appends the canonical spelling of a line, without an end of line. `read` is what the line `raw` reads as with these
/// carriers declared.
pub fn write_line(
    alloc: Global,
    read: &Read,
    raw: &str,
    declared: &Declared,
    out: &mut Vec<u8>,
) -> Result<(), NoMemory>
    ensures ok { OnOk result (out.new.items ≡ out.old.items ++ canonical declared.now read.now raw.now) }
    ensures err { OnErr result (out.new.items ≡ out.old.items) }

    // Whatever the line is, its canonical spelling reads as the same instruction and is its own.
    ensures settled { (profile : Profile) → IsLawfulProfile profile → IsStableSpelling profile declared.now raw.now }
{
    let mut line = Vec::new(alloc);
    append_line(read, raw.as_bytes(), declared, &mut line)?;
    out.extend_from_slice(&line)?;
    Ok(())
}

/// Appends the canonical spelling of a line. After want of memory a part of it may stand in `out`.
pub(crate) fn append_line(
    read: &Read,
    raw: &[u8],
    declared: &Declared,
    out: &mut Vec<u8>,
) -> Result<(), NoMemory>
    ensures { OnOk result (out.new.items ≡ out.old.items ++ canonical declared.now read.now raw.now) }
{
    match read {
        Read::Blank => Ok(()),
        Read::Comment => append(comment_of(raw), out),
        Read::Instr(instr) => {
            append_instr(instr, raw, declared, out)?;
            append_comment(comment_of(raw), out)
        }
        Read::Broken(_) => append(raw, out),
    }
}

fn append(bytes: &[u8], out: &mut Vec<u8>) -> Result<(), NoMemory>
    ensures { OnOk result (out.new.items ≡ out.old.items ++ bytes.now) }
{
    out.extend_from_slice(bytes)?;
    Ok(())
}

// The comment of a line, from its `;` on.
fn comment_of(line: &[u8]) -> &[u8]
    ensures { result.now ≡ comment_of line.now }
{
    match comment_at(line) {
        Some(at) => &line[at..],
        None => &[],
    }
}

// Appends the comment behind an instruction.
fn append_comment(comment: &[u8], out: &mut Vec<u8>) -> Result<(), NoMemory>
    ensures { OnOk result (out.new.items ≡ out.old.items ++ comment_behind comment.now) }
{
    match comment {
        [] => Ok(()),
        [_, ..] => append_token(comment, out),
    }
}

// Appends a space and the token.
fn append_token(token: &[u8], out: &mut Vec<u8>) -> Result<(), NoMemory>
    ensures { OnOk result (out.new.items ≡ out.old.items ++ 32 ∷ token.now) }
{
    out.push(b' ')?;
    append(token, out)
}

// Appends the tokens of an instruction, without the comment of its line.
fn append_instr(
    instr: &Instr,
    raw: &[u8],
    declared: &Declared,
    out: &mut Vec<u8>,
) -> Result<(), NoMemory>
    ensures { OnOk result (out.new.items ≡ out.old.items ++ tokens_spaced (canonical_tokens declared.now instr.now (tokens_of (before_comment raw.now)))) }
{
    match instr {
        Instr::CarryIn(carriers) => append_carriers(b"in", carriers, declared, out),
        Instr::CarryOut(carriers) => append_carriers(b"out", carriers, declared, out),
        Instr::HookIn(carriers) => append_carriers(b"inhook", carriers, declared, out),
        Instr::HookOut(carriers) => append_carriers(b"outhook", carriers, declared, out),
        Instr::ReleaseHook(carriers) => append_carriers(b"releasehook", carriers, declared, out),
        Instr::Stitch => append_tokens(code_of(raw), out),
        Instr::Pause => append_tokens(code_of(raw), out),
        Instr::Extension => append_tokens(code_of(raw), out),
        Instr::Rack(rack) => append_rack_line(*rack, out),
        Instr::Knit(dir, n, carriers) => append_loop(b"knit", *dir, *n, carriers, declared, out),
        Instr::Tuck(dir, n, carriers) => append_loop(b"tuck", *dir, *n, carriers, declared, out),
        Instr::Miss(dir, n, carriers) => append_loop(b"miss", *dir, *n, carriers, declared, out),
        Instr::Split(dir, n, n2, carriers) => append_split(*dir, *n, *n2, carriers, declared, out),
        Instr::Xfer(n, n2) => append_xfer(*n, *n2, out),
        Instr::Drop(n) => append_one_needle(b"drop", *n, out),
        Instr::Amiss(n) => append_one_needle(b"amiss", *n, out),
    }
}

// Appends the tokens as they are.
fn append_tokens(code: &[u8], out: &mut Vec<u8>) -> Result<(), NoMemory>
    ensures { OnOk result (out.new.items ≡ out.old.items ++ tokens_spaced (tokens_of code.now)) }
{
    let Some((first, mut rest)) = next_token(code) else {
        return Ok(());
    };
    append(first, out)?;
    while let Some((token, after)) = next_token(rest) {
        append_token(token, out)?;
        rest = after;
    }
    Ok(())
}

// Appends an operation on carriers alone.
fn append_carriers(
    word: &[u8],
    carriers: &Yarns,
    declared: &Declared,
    out: &mut Vec<u8>,
) -> Result<(), NoMemory>
    ensures { OnOk result (out.new.items ≡ out.old.items ++ tokens_spaced (word.now ∷ carrier_names declared.now carriers.now)) }
{
    append(word, out)?;
    append_names(carriers, declared, out)
}

// Appends a space and the name of each carrier.
fn append_names(carriers: &Yarns, declared: &Declared, out: &mut Vec<u8>) -> Result<(), NoMemory>
    ensures { OnOk result (out.new.items ≡ out.old.items ++ each_spaced (carrier_names declared.now carriers.now)) }
{
    for carrier in carriers.as_slice() {
        if let Some(name) = declared.name(*carrier) {
            append_token(name.as_bytes(), out)?;
        }
    }
    Ok(())
}

fn append_rack_line(rack: Quarter, out: &mut Vec<u8>) -> Result<(), NoMemory>
    ensures { OnOk result (out.new.items ≡ out.old.items ++ tokens_spaced (codes "rack" ∷ rack_text rack.0 ∷ [])) }
{
    append(b"rack ", out)?;
    append_rack(rack, out)
}

// Appends an operation with a direction, a needle and carriers.
fn append_loop(
    word: &[u8; 4],
    dir: Dir,
    n: Needle,
    carriers: &Yarns,
    declared: &Declared,
    out: &mut Vec<u8>,
) -> Result<(), NoMemory>
    ensures { OnOk result (out.new.items ≡ out.old.items ++ tokens_spaced (word.now ∷ dir_word dir ∷ needle_text n ∷ carrier_names declared.now carriers.now)) }
{
    append(word, out)?;
    append(dir_word(dir), out)?;
    append_needle_token(n, out)?;
    append_names(carriers, declared, out)
}

fn append_split(
    dir: Dir,
    n: Needle,
    n2: Needle,
    carriers: &Yarns,
    declared: &Declared,
    out: &mut Vec<u8>,
) -> Result<(), NoMemory>
    ensures { OnOk result (out.new.items ≡ out.old.items ++ tokens_spaced (codes "split" ∷ dir_word dir ∷ needle_text n ∷ needle_text n2 ∷ carrier_names declared.now carriers.now)) }
{
    append(b"split", out)?;
    append(dir_word(dir), out)?;
    append_needle_token(n, out)?;
    append_needle_token(n2, out)?;
    append_names(carriers, declared, out)
}

fn append_xfer(n: Needle, n2: Needle, out: &mut Vec<u8>) -> Result<(), NoMemory>
    ensures { OnOk result (out.new.items ≡ out.old.items ++ tokens_spaced (codes "xfer" ∷ needle_text n ∷ needle_text n2 ∷ [])) }
{
    append(b"xfer", out)?;
    append_needle_token(n, out)?;
    append_needle_token(n2, out)
}

// Appends an operation on one needle.
fn append_one_needle(word: &[u8], n: Needle, out: &mut Vec<u8>) -> Result<(), NoMemory>
    ensures { OnOk result (out.new.items ≡ out.old.items ++ tokens_spaced (word.now ∷ needle_text n ∷ [])) }
{
    append(word, out)?;
    append_needle_token(n, out)
}

// Appends a space and the needle.
fn append_needle_token(n: Needle, out: &mut Vec<u8>) -> Result<(), NoMemory>
    ensures { OnOk result (out.new.items ≡ out.old.items ++ 32 ∷ needle_text n) }
{
    out.push(b' ')?;
    append_needle(n, out)
}

// The word of a direction, with a space before it.
fn dir_word(dir: Dir) -> &'static [u8; 2]
    ensures { result.now ≡ 32 ∷ dir_word dir }
{
    match dir {
        Dir::Right => b" +",
        Dir::Left => b" -",
    }
}
