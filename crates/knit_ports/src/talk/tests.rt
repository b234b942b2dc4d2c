//! Texts that are said, in memory and over a source and a sink.
use super::{Talk, say_whole};
use crate::{Ends, Failed, KeptPiece, MemorySink, MemorySource, MemoryTalk};
use knit_base::NoMemory;
use std::alloc::Global;

// A conversation that hears `ab` at once, and takes two bytes at once of what is said, where the call with this number fails.
fn talk_that_fails(alloc: Global, fails: u32) -> Result<MemoryTalk, NoMemory> {
    let input = Vec::from_slice(alloc, b"ab")?;
    let failing = vec![in alloc; fails]?;
    Ok(MemoryTalk::of(alloc, input, 8, 2, failing))
}

// What was heard and said, in order: `<` before what was heard, and `>` before what was said.
fn add_pieces(pieces: &[KeptPiece], text: &mut Vec<u8>) -> Result<(), NoMemory> {
    for piece in pieces {
        add_piece(piece, text)?;
    }
    Ok(())
}

fn add_piece(piece: &KeptPiece, text: &mut Vec<u8>) -> Result<(), NoMemory> {
    match piece {
        KeptPiece::Heard(bytes) => {
            text.push(b'<')?;
            text.extend_from_slice(bytes)?;
        }
        KeptPiece::Said(bytes) => {
            text.push(b'>')?;
            text.extend_from_slice(bytes)?;
        }
    }
    Ok(())
}

fn has_pieces(alloc: Global, talk: &MemoryTalk, pieces: &str) -> Result<bool, NoMemory> {
    let mut text = Vec::new(alloc);
    add_pieces(talk.pieces(), &mut text)?;
    Ok(is(&text, pieces))
}

fn is(bytes: &[u8], text: &str) -> bool {
    bytes == text.as_bytes()
}

#[test]
fn a_text_is_said_in_short_pieces(rt: HostRuntime) -> Result<(), NoMemory> {
    let mut talk = talk_that_fails(rt.alloc(), 0)?;
    let mut piece = [0; 4];
    assert!(rt; talk.hear(&mut piece) == Ok(2) && piece == [b'a', b'b', 0, 0]);
    assert!(rt; say_whole(&mut talk, b"reply") == Ok(()));
    assert!(rt; talk.hear(&mut piece) == Ok(0));
    assert!(rt; has_pieces(rt.alloc(), &talk, "<ab>re>pl>y<")?);
    Ok(())
}

#[test]
fn a_front_is_said_where_a_call_fails(rt: HostRuntime) -> Result<(), NoMemory> {
    let mut talk = talk_that_fails(rt.alloc(), 3)?;
    assert!(rt; say_whole(&mut talk, b"reply") == Err(Failed));
    assert!(rt; say_whole(&mut talk, b"ok") == Ok(()));
    assert!(rt; has_pieces(rt.alloc(), &talk, ">re>pl>ok")?);
    Ok(())
}

// Whether two bytes are heard at the source, a text is said to the sink, and the source then fails.
fn is_passed_on(source: &mut MemorySource, sink: &mut MemorySink) -> bool {
    let mut ends = Ends { source, sink };
    let mut piece = [0; 4];
    let is_heard = ends.hear(&mut piece) == Ok(2) && piece == [b'a', b'b', 0, 0];
    let is_said = say_whole(&mut ends, b"reply") == Ok(());
    is_heard && is_said && ends.hear(&mut piece) == Err(Failed)
}

#[test]
fn ends_hear_the_source_and_say_to_the_sink(rt: HostRuntime) -> Result<(), NoMemory> {
    let alloc = rt.alloc();
    let failing = vec![in alloc; 2]?;
    let mut source = MemorySource::of(Vec::from_slice(alloc, b"abc")?, 2, failing);
    let mut sink = MemorySink::of(alloc, 2, 8, Vec::new(alloc))?;
    assert!(rt; is_passed_on(&mut source, &mut sink));
    assert!(rt; is(sink.as_slice(), "reply"));
    Ok(())
}
