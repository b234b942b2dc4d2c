//! A copy of a book, by a worked example.
ghost use Rattle.std.specs.Prelude.{◌≡◌, ◌<◌};
ghost use Rattle.knit_base.specs.Limits.{IsLawfulProfile};

use super::book::{adds, is_accepted, opened, puts, sound, tells_loop};
use carriage_model::Verdict;
use edit_book::{AgainList, Book, HEAD, Reply};
use edit_journal::{Anchor, TextList};
use knit_base::{Declared, NoMemory, Steps};
use std::alloc::Global;
use std::marker::Brand;
use std::sync::ledger::{Blank, Ledger};
use std::test::Fail;
use std::thread::Threads;

// Whether block 0 gets another text, and two blocks behind it are added.
fn grows<L: Ledger>(alloc: Global, book: &mut Book, steps: &mut Steps<L>) -> bool
    requires { IsLawfulProfile book.old.opening.setting.profile }
    ensures { book.new.opening ≡ book.old.opening }
{
    let put = puts(alloc, book, 0, 3, 1, sound(3, 2, 2), steps);
    let verdict = sound(4, 3, 3);
    let tuck = adds(alloc, book, Anchor::After(0), 5, (2, 1), verdict, steps);
    let verdict = sound(5, 4, 2);
    let knit = adds(alloc, book, Anchor::After(1), 1, (3, 2), verdict, steps);
    put && tuck && knit
}

// Two carriers.
fn names(alloc: Global) -> Declared {
    let mut declared = Declared::new(alloc);
    let _ = declared.add("1");
    let _ = declared.add("2");
    declared
}

// Whether block 1 is cut, and the header gets other names.
fn changes<L: Ledger>(alloc: Global, book: &mut Book, steps: &mut Steps<L>) -> bool
    ensures { book.new.opening ≡ book.old.opening }
{
    let verdict = sound(4, 3, 2);
    let cut = is_accepted(book.cut(0, 1, 2, steps), 4, 1, verdict);
    let reply = book.put_head(0, 0, names(alloc), AgainList::new(alloc), steps);
    cut && is_accepted(reply, 5, HEAD, verdict)
}

// A book with a put, two adds, a cut and other names of the header.
fn edited<L: Ledger>(alloc: Global, steps: &mut Steps<L>) -> Option<Book> {
    match opened(alloc, 2, steps) {
        Ok(mut book) => {
            let done = grows(alloc, &mut book, steps) && changes(alloc, &mut book, steps);
            done.then_some(book)
        }
        Err(NoMemory) => None,
    }
}

fn is_last_block(reply: Reply) -> bool {
    match reply {
        Reply::Shown {
            version: 5,
            block: 2,
            stamp: 3,
            first: 6,
            text,
        } => text.len() == 1 && text.get(0) == Some("knit + f1 1"),
        _ => false,
    }
}

fn is_gone(reply: Reply) -> bool {
    matches!(
        reply,
        Reply::Gone {
            version: 5,
            block: 1,
            at: 4
        }
    )
}

fn is_header(reply: Reply) -> bool {
    match reply {
        Reply::Shown {
            version: 5,
            block: HEAD,
            stamp: 5,
            first: 1,
            text,
        } => text.len() == 1 && text.get(0) == Some(";;Carriers: 1 2"),
        _ => false,
    }
}

fn has_four_lines(verdict: &Verdict) -> bool {
    match verdict {
        Verdict::Sound(last) => last.lines == 4 && last.made == 3,
        Verdict::Broken(_) => false,
    }
}

fn is_sound(reply: Reply) -> bool {
    match reply {
        Reply::Now {
            version: 5,
            verdict,
            text,
        } => has_four_lines(&verdict) && text.as_str() == "",
        _ => false,
    }
}

fn are_two(blocks: &TextList) -> bool {
    match blocks.as_slice() {
        [first, last] => {
            let at_first = first.block == 0 && first.stamp == 1 && first.text.len() == 3;
            at_first && last.block == 2 && last.stamp == 3 && last.text.len() == 1
        }
        _ => false,
    }
}

fn is_both_texts(reply: Reply) -> bool {
    match reply {
        Reply::Texts { version: 5, blocks } => are_two(&blocks),
        _ => false,
    }
}

// Whether the book answers as the edited one does: a look at a block, at one that was cut and at the header, the verdict, the
// texts, and the loop of the last line, which is drawn through that of the second.
fn answers<L: Ledger>(book: &Book, steps: &mut Steps<L>) -> [bool; 6] {
    [
        is_last_block(book.look(2, steps)),
        is_gone(book.look(1, steps)),
        is_header(book.look_head()),
        is_sound(book.now(steps)),
        is_both_texts(book.texts()),
        tells_loop(book, 5, 6, &[4], steps),
    ]
}

// What the copy answers; what the book does after an edit of the copy, which is accepted; and how many entries both then have.
type Told = ([bool; 6], [bool; 6], bool, [u32; 2]);

fn told_of<L: Ledger>(book: &Book, mut copy: Book, steps: &mut Steps<L>) -> Told {
    let same = answers(&copy, steps);
    let cut = is_accepted(copy.cut(0, 2, 3, steps), 6, 2, sound(3, 2, 2));
    let before = answers(book, steps);
    (same, before, cut, [book.version(), copy.version()])
}

fn copied<L: Ledger, R: Threads>(rt: &R, blank: Blank, alloc: Global) -> Option<Told>
    requires name { (blank.name ≡ L.name) × (blank.parts ≡ L.parts) × (0 < L.parts) }
{
    let mut steps = Steps::<L>::start(rt, blank);
    let book = edited(alloc, &mut steps)?;
    match book.try_clone(&mut steps) {
        Ok(copy) => Some(told_of(&book, copy, &mut steps)),
        Err(NoMemory) => None,
    }
}

#[test]
fn a_copy_answers_as_the_book_and_is_edited_alone(rt: HostRuntime) -> Result<(), Fail> {
    let told = copied::<Brand, _>(&rt, Blank::new(1), rt.alloc());
    assert_eq!(rt; told, Some(([true; 6], [true; 6], true, [5, 6])));
    Ok(())
}
