//! The verdict on the document, whole.
ghost use Rattle.std.specs.Prelude.{◌≡◌, ◌+◌, ◌-◌, ◌≤◌, [], IfOk, length, slice_get, unwrap_or};
ghost use Rattle.edit_journal.specs.Documents.{body};
ghost use Rattle.edit_book.specs.Books.{document};
ghost use Rattle.edit_book.specs.Replies as request;
ghost use Rattle.edit_book.specs.Replies.{IsAnswer, IsGranted};
ghost use Rattle.block_summary.specs.Verdicts.{broken_line};
ghost use Rattle.edit_book.specs.Verdicts.{HasVerdict, setting_of};

use crate::{Book, Reply};
use carriage_model::Verdict;
use face_data::verdict_of;
use knit_base::{NoMemory, Steps, Text};
use std::sync::ledger::Ledger;

impl Book {
    /// The verdict, and the text of the line at which it is broken, which costs a step.
    pub fn now<L: Ledger>(&self, steps: &mut Steps<L>) -> Reply
        ensures reply { IsAnswer self.now.opening self.now.entries request.VerdictNow result }
        ensures steps { steps.new ≤ steps.old + 1 }
    {
        match self.verdict_now(steps) {
            Ok(reply) => reply,
            Err(NoMemory) => Reply::NoMemory,
        }
    }

    fn verdict_now<L: Ledger>(&self, steps: &mut Steps<L>) -> Result<Reply, NoMemory>
        ensures reply { IfOk result (IsGranted self.now.opening (document self.now) (length self.now.entries) request.VerdictNow) }
        ensures steps { steps.new ≤ steps.old + 1 }
    {
        let verdict = self.whole_verdict()?;
        let text = self.broken_text(&verdict, steps)?;
        Ok(Reply::Now {
            version: self.version(),
            verdict,
            text,
        })
    }

    /// The verdict on the document, whole. The only error is want of memory.
    pub fn whole_verdict(&self) -> Result<Verdict, NoMemory>
        ensures { IfOk result (HasVerdict (setting_of self.now.opening (document self.now)) (body (document self.now))) }
    {
        verdict_of(
            self.outline.alloc(),
            &self.tree.root(),
            self.outline.first(),
        )
    }

    // The text of the line at which the verdict is broken, or no text.
    fn broken_text<L: Ledger>(
        &self,
        verdict: &Verdict,
        steps: &mut Steps<L>,
    ) -> Result<Text, NoMemory>
        ensures text { IfOk result (λ text. text ≡ broken_line self.now.opening.setting.first (body (document self.now)) verdict.now) }
        ensures steps { steps.new ≤ steps.old + 1 }
    {
        match verdict {
            Verdict::Sound(_) => Text::of(self.outline.alloc(), ""),
            Verdict::Broken(fault) => {
                self.line_text(fault.line.saturating_sub(self.outline.first()), steps)
            }
        }
    }

    // The text of a line, counted from 0, the first of the body. No text where there is no such line.
    fn line_text<L: Ledger>(&self, offset: u32, steps: &mut Steps<L>) -> Result<Text, NoMemory>
        ensures text { IfOk result (λ text. text ≡ unwrap_or (slice_get (body (document self.now)) offset) []) }
        ensures steps { steps.new ≤ steps.old + 1 }
    {
        let Some((at, within)) = self.tree.leaf_of_line(offset) else {
            return Text::of(self.outline.alloc(), "");
        };
        let Some(id) = self.outline.id_at(at) else {
            unreachable!();
        };
        let Some(text) = self.text_of(id) else {
            unreachable!();
        };
        Text::of(self.outline.alloc(), text.line(within, steps))
    }
}
