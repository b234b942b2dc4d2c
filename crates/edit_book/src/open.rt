//! The outline of an opening.
ghost use Rattle.std.specs.Prelude.{◌≡◌, ℕ, ◌+◌, ◌<◌, ◌≤◌, ◌^◌, [], List, All, IfOk, flat_map, length, replicate};
ghost use Rattle.knit_base.specs.Limits.{IsLawfulProfile};
ghost use Rattle.edit_book.specs.Outlines.{block_texts_of};
ghost use Rattle.edit_book.specs.Replies.{block_limit, line_limit};
ghost use Rattle.edit_book.specs.declared.block_state.BlockState.TheVariants as state;

use crate::Outline;
use crate::block_state::BlockState;
use crate::header::Header;
use crate::order::Order;
use edit_journal::{Journal, Opening, TextList};
use knit_base::{BlockText, ListOf, NoMemory, Setting};
use std::alloc::Global;

impl Outline {
    /// The outline at version 0: what it is read by, and the texts of its first blocks. The only error is want of memory.
    pub fn start(
        alloc: Global,
        setting: Setting,
        texts: ListOf<BlockText>,
    ) -> Result<Outline, NoMemory>
        requires profile { IsLawfulProfile setting.profile }
        requires first { setting.first + line_limit < 2 ^ 32 }
        requires few { length texts ≤ block_limit }
        requires lines { length (flat_map (λ (text : List (List ℕ)). text) texts) ≤ line_limit }
        requires short { All (λ (text : List (List ℕ)). length text ≤ 4096) texts }
        ensures setting { IfOk result (λ outline. outline.opening.setting ≡ setting) }
        ensures texts { IfOk result (λ outline. outline.opening.texts ≡ texts) }
        ensures entries { IfOk result (λ outline. outline.entries ≡ []) }
    {
        let _carriers = setting.declared.len();
        let count = texts.len();
        let lines = lines_of(texts.as_slice());
        let header = Header {
            setting: setting.try_clone()?,
            entries: Vec::new(alloc),
        };
        let header = Box::new(alloc, header)?;
        let states = all_there(alloc, count)?;
        let order = Order::start(alloc, count)?;
        Ok(Outline {
            opening: Opening { setting, texts },
            journal: Journal::new(alloc),
            head: 0,
            header,
            states,
            order,
            lines,
            alloc,
        })
    }
}

/// The texts of these blocks, which share their lines where they are shared. The only error is want of memory.
pub fn block_texts(alloc: Global, blocks: &TextList) -> Result<ListOf<BlockText>, NoMemory>
    ensures { IfOk result (λ texts. texts ≡ block_texts_of blocks.now) }
{
    let mut texts = ListOf::with_capacity(alloc, blocks.len())?;
    for block in blocks.as_slice() {
        texts.push(block.text.try_clone()?)?;
    }
    Ok(texts)
}

// How many lines these texts have.
fn lines_of(texts: &[BlockText]) -> u32
    requires { length (flat_map (λ (text : List (List ℕ)). text) texts.now) ≤ line_limit }
    ensures { result ≡ length (flat_map (λ (text : List (List ℕ)). text) texts.now) }
{
    let mut lines = 0;
    for text in texts {
        lines += text.len();
    }
    lines
}

// So many blocks that are there from the start.
fn all_there(alloc: Global, count: u32) -> Result<Vec<BlockState>, NoMemory>
    ensures { IfOk result (λ states. states.items ≡ replicate count (state.There 0)) }
{
    let mut states = Vec::with_capacity(alloc, count as usize)?;
    for _ in 0..count {
        states.push(BlockState::There(0))?;
    }
    Ok(states)
}
