//! The tree of the tallies of an outline's blocks.
ghost use Rattle.std.specs.Prelude.{◌≡◌, ◌≤◌, ℕ, List, All, IfOk, length};
ghost use Rattle.std.specs.List.{AllZip};
ghost use Rattle.edit_journal.specs.Documents.{Block};
ghost use Rattle.edit_book.specs.Outlines.{outline_document};
ghost use Rattle.knit_base.specs.Limits.{IsLawfulProfile};
ghost use Rattle.tally_tree.specs.Tallies.{TallyCounts};
ghost use Rattle.tally_tree.specs.Trees.{HasLeaf, IsTallyIn, IsTallyTree, leaf_tallies};

use crate::lines::tally_of;
use crate::store::TallyStore;
use edit_book::Outline;
use knit_base::{BlockText, NoMemory, Setting, Steps};
use std::alloc::Global;
use std::sync::ledger::Ledger;
use value_tree::ValueTree;

/// The tree of the blocks that are there, whose lines are read by a setting. It costs a step for each line, and joins the tally of each
/// inner node once.
pub(crate) fn tree_of<L: Ledger>(
    outline: &Outline,
    setting: &Setting,
    steps: &mut Steps<L>,
) -> Result<ValueTree<TallyStore>, NoMemory>
    requires { IsLawfulProfile setting.now.profile }
    ensures kept { IfOk result (λ tree. IsTallyTree tree.shape tree.store.leaves.items tree.store.nodes.items) }
    ensures tallies { IfOk result (λ tree. AllZip (λ (v : TallyCounts) (b : Block). IsTallyIn setting.now v b.lines) (leaf_tallies tree.shape tree.store.leaves.items) (outline_document outline.now).blocks) }
{
    let _carriers = setting.declared.len();
    let texts = outline.texts()?;
    let store = store_of(outline.alloc(), &texts, setting, steps)?;
    ValueTree::build(outline.alloc(), store, outline.len(), steps)
}

// A store with the tallies of these texts at its first leaves.
fn store_of<L: Ledger>(
    alloc: Global,
    texts: &[BlockText],
    setting: &Setting,
    steps: &mut Steps<L>,
) -> Result<TallyStore, NoMemory>
    requires profile { IsLawfulProfile setting.now.profile }
    requires short { All (λ (text : List (List ℕ)). length text ≤ 4096) texts.now }
    ensures leaves { IfOk result (λ store. AllZip (HasLeaf setting.now) store.leaves.items texts.now) }
    ensures nodes { IfOk result (λ store. length store.nodes.items ≡ length store.leaves.items) }
{
    let mut store = TallyStore::new(alloc);
    for text in texts {
        store.push_leaf(tally_of(alloc, text, setting, steps)?)?;
    }
    Ok(store)
}
