//! Blocks whose texts are summarised under other names of the header.
ghost use Rattle.std.specs.Prelude.{◌≡◌, ℕ, List, IfOk, All, map};
ghost use Rattle.block_summary.specs.Prepared.{IsPreparedFor};
ghost use Rattle.block_summary.specs.declared.prepared.Prepared.{Prepared};
ghost use Rattle.knit_base.specs.Limits.{IsLawfulProfile};
ghost use Rattle.edit_journal.specs.declared.edit.Entry.{Entry};
ghost use Rattle.edit_journal.specs.declared.opening.Opening.{Opening};
ghost use Rattle.edit_book.specs.Turns.{AreFitAgain, AreTextsGiven};
ghost use Rattle.edit_book.specs.declared.reply.Again.{Again};

use crate::{Again, AgainList, block_texts};
use block_summary::Prepared;
use check_workers::prepare_all;
use edit_journal::TextList;
use knit_base::{ListOf, NoMemory, Setting};
use std::alloc::Global;
use std::thread::Threads;

/// Each of these blocks with the summary of its text for this setting.
pub fn summarised<R: Threads + Sync>(
    rt: &R,
    alloc: Global,
    blocks: &TextList,
    setting: &Setting,
) -> Result<AgainList, NoMemory>
    requires { IsLawfulProfile setting.now.profile }
    ensures texts { IfOk result (λ again. map (λ (one : Again). one.prepared.text) again ≡ map (λ block. block.text) blocks.now) }
    ensures fits { IfOk result (λ again. (opening : Opening) (journal : List Entry) → opening.setting.profile ≡ setting.now.profile → AreTextsGiven opening journal blocks.now → AreFitAgain opening journal setting.now.declared again) }
{
    let texts = block_texts(alloc, blocks)?.into_vec();
    match prepare_all(rt, alloc, texts, setting) {
        Ok(summaries) => blocks_again(alloc, blocks, summaries),
        Err(_) => Err(NoMemory),
    }
}

// Each block with the summary of its text, where these are the summaries of the blocks' texts in their order.
fn blocks_again(
    alloc: Global,
    blocks: &TextList,
    summaries: Vec<Prepared>,
) -> Result<AgainList, NoMemory>
    requires { map (λ (prepared : Prepared). prepared.text) summaries.items ≡ map (λ block. block.text) blocks.now }
    ensures summaries { IfOk result (λ again. map (λ (one : Again). one.prepared) again ≡ summaries.items) }
    ensures fits { IfOk result (λ again. (opening : Opening) (journal : List Entry) (names : List (List ℕ)) → All (IsPreparedFor opening.setting.profile names) summaries.items → AreTextsGiven opening journal blocks.now → AreFitAgain opening journal names again) }
{
    let mut again = ListOf::with_capacity(alloc, blocks.len())?;
    let mut at = 0;
    for prepared in summaries {
        let Some(block) = blocks.get(at) else {
            unreachable!();
        };
        again.push(Again {
            block: block.block,
            stamp: block.stamp,
            prepared,
        })?;
        at += 1;
    }
    Ok(again)
}
