//! The refusal of a command, before anything is done.
ghost use Rattle.std.specs.Prelude.{◌≡◌, length};
ghost use Rattle.edit_book.specs.Books.{document};
ghost use Rattle.edit_book.specs.Outlines.{outline_document};
ghost use Rattle.edit_book.specs.Replies.{refusal_of, refused_name as name_refusal, refused_anchor as anchor_refusal, refused_stamp as stamp_refusal, refused_head as head_refusal, refused_entries as entries_refusal, refused_blocks as blocks_refusal, refused_over as over, request_of_command, line_limit};
ghost use Rattle.edit_book.specs.Turns.{IsFitBookCommand};
ghost use Rattle.edit_book.specs.declared.reply.Which.TheVariants as which;

use crate::block_state::BlockState;
use crate::{Book, BookCommand, Outline, Reply, Which};
use edit_journal::{Anchor, HEAD};

impl Book {
    /// The refusal that a command is answered with at this version, if it is refused. Takes no memory.
    pub fn refusal(&self, command: &BookCommand) -> Option<Reply>
        requires { IsFitBookCommand self.now.opening self.now.entries command.now }
        ensures { result ≡ refusal_of (document self.now) self.now.entries (request_of_command command.now) }
    {
        match command {
            BookCommand::Look(block) => self.outline.refused_name(*block),
            BookCommand::Put {
                block,
                seen,
                head,
                prepared,
            } => self.outline.refused_put(*block, *seen, *head, prepared),
            BookCommand::Add {
                anchor,
                head,
                prepared,
            } => self.outline.refused_add(*anchor, *head, prepared),
            BookCommand::Cut { block, seen } => self.outline.refused_cut(*block, *seen),
            BookCommand::PutHead { seen, .. } => {
                if let Some(refusal) = self.outline.refused_head(*seen) {
                    return Some(refusal);
                }
                self.outline.refused_entries()
            }
            BookCommand::LoopAt(_)
            | BookCommand::Verdict
            | BookCommand::LookHead
            | BookCommand::Texts => None,
        }
    }
}

impl Outline {
    pub(crate) fn refused_name(&self, block: u32) -> Option<Reply>
        ensures { result ≡ name_refusal (outline_document self.now) self.now.entries block }
    {
        let version = self.version();
        let ids = self.ids();
        match self.state(block) {
            None => Some(Reply::NoBlock {
                version,
                block,
                ids,
            }),
            Some(BlockState::CutBy(at)) => Some(Reply::Gone { version, block, at }),
            Some(BlockState::There(_)) => None,
        }
    }

    pub(crate) fn refused_anchor(&self, anchor: Anchor) -> Option<Reply>
        ensures { result ≡ anchor_refusal (outline_document self.now) self.now.entries anchor }
    {
        match anchor {
            Anchor::Start => None,
            Anchor::After(block) => self.refused_name(block),
        }
    }

    #[tactic(auto, using(crate::proofs::Blocks::stamps))]
    pub(crate) fn refused_stamp(&self, block: u32, seen: u32) -> Option<Reply>
        ensures { result ≡ stamp_refusal (outline_document self.now) self.now.entries block seen }
    {
        let version = self.version();
        match self.stamp(block) {
            Some(now) => {
                if now == seen {
                    None
                } else {
                    Some(Reply::Stale {
                        version,
                        block,
                        seen,
                        now,
                    })
                }
            }
            None => None,
        }
    }

    /// Whether the header has another stamp than this.
    pub(crate) fn refused_head(&self, seen: u32) -> Option<Reply>
        ensures { result ≡ head_refusal (outline_document self.now) self.now.entries seen }
    {
        if self.head == seen {
            return None;
        }
        Some(Reply::Stale {
            version: self.version(),
            block: HEAD,
            seen,
            now: self.head,
        })
    }

    pub(crate) fn refused_entries(&self) -> Option<Reply>
        ensures { result ≡ entries_refusal self.now.entries }
    {
        let version = self.version();
        if version < 1048576 {
            return None;
        }
        Some(Reply::Full {
            version,
            which: Which::Entries,
            limit: 1048576,
        })
    }

    pub(crate) fn refused_blocks(&self) -> Option<Reply>
        ensures { result ≡ blocks_refusal (outline_document self.now) self.now.entries }
    {
        let version = self.version();
        if self.order.len() < 65536 {
            return None;
        }
        Some(Reply::Full {
            version,
            which: Which::Blocks,
            limit: 65536,
        })
    }

    // Whether so many lines are too many.
    pub(crate) fn refused_count(&self, lines: u32) -> Option<Reply>
        ensures { result ≡ over (length self.now.entries) which.Lines line_limit lines }
    {
        if lines <= 1048576 {
            return None;
        }
        Some(Reply::Full {
            version: self.version(),
            which: Which::Lines,
            limit: 1048576,
        })
    }
}
