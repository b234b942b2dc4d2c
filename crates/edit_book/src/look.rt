//! A block as it stands.
ghost use Rattle.std.specs.Prelude.{◌≡◌, ◌+◌, ◌≤◌, IfOk, None, length};
ghost use Rattle.edit_book.specs.Books.{document};
ghost use Rattle.edit_book.specs.Replies as request;
ghost use Rattle.edit_book.specs.Replies.{IsAnswer, IsGranted, lines_before, refused_name};
ghost use Rattle.edit_book.specs.Work.{work_limit};

use crate::{Book, Reply};
use knit_base::{BlockText, Lines, NoMemory, Steps};
use std::alloc::Global;
use std::sync::ledger::Ledger;

impl Book {
    /// A block as it stands, which costs a step for each line that is shown.
    pub fn look<L: Ledger>(&self, block: u32, steps: &mut Steps<L>) -> Reply
        ensures reply { IsAnswer self.now.opening self.now.entries (request.Look block) result }
        ensures steps { steps.new ≤ steps.old + work_limit self.now.opening self.now.entries (request.Look block) }
    {
        if let Some(refusal) = self.outline.refused_name(block) {
            return refusal;
        }
        match self.shown(block, steps) {
            Ok(reply) => reply,
            Err(NoMemory) => Reply::NoMemory,
        }
    }

    // A block that is there.
    fn shown<L: Ledger>(&self, block: u32, steps: &mut Steps<L>) -> Result<Reply, NoMemory>
        requires { refused_name (document self.now) self.now.entries block ≡ None }
        ensures reply { IfOk result (IsGranted self.now.opening (document self.now) (length self.now.entries) (request.Look block)) }
        ensures steps { steps.new ≤ steps.old + work_limit self.now.opening self.now.entries (request.Look block) }
    {
        let Some(stamp) = self.stamp(block) else {
            unreachable!();
        };
        let Some(text) = self.text_of(block) else {
            unreachable!();
        };
        let first = self.first_line(block);
        Ok(Reply::Shown {
            version: self.version(),
            block,
            stamp,
            first,
            text: copied(self.outline.alloc(), text, steps)?,
        })
    }

    // The number of a block's first line in the file, or the one that it would have.
    fn first_line(&self, block: u32) -> u32
        requires { refused_name (document self.now) self.now.entries block ≡ None }
        ensures { result ≡ self.now.opening.setting.first + lines_before block (document self.now).blocks }
    {
        let Some(at) = self.outline.place(block) else {
            unreachable!();
        };
        self.outline.first() + self.tree.lines_before(at as u32)
    }
}

// A copy of a text, which costs a step for each line.
#[tactic(auto, using(crate::proofs::Looks::take_next))]
fn copied<L: Ledger>(
    alloc: Global,
    text: &BlockText,
    steps: &mut Steps<L>,
) -> Result<Lines, NoMemory>
    requires { length text.now ≤ 4096 }
    ensures lines { IfOk result (λ lines. lines ≡ text.now) }
    ensures steps { steps.new ≤ steps.old + length text.now }
{
    let mut lines = Lines::new(alloc);
    for i in 0..text.len() {
        lines.push(text.line(i, steps))?;
    }
    Ok(lines)
}
