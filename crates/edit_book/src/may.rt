//! Which edit may come next, and the texts that are there.
ghost use Rattle.std.specs.Prelude.{◌≡◌, ℕ, ◌≤◌, ◌<◌, All, List, Some, true, false, IfOk, flat_map, length, map, slice_get};
ghost use Rattle.edit_journal.specs.Documents.{HasAnchor};
ghost use Rattle.edit_journal.specs.declared.edit.Edit.TheVariants as edit;
ghost use Rattle.edit_book.specs.Outlines.{MayCome, outline_document};
ghost use Rattle.edit_book.specs.Replies.{block_limit, line_limit};

use crate::Outline;
use edit_journal::Anchor;
use knit_base::{BlockText, NoMemory};

impl Outline {
    /// Whether a put of a text with so many lines may come next.
    pub fn may_put(&self, block: u32, seen: u32, lines: u32) -> bool
        requires { lines ≤ 4096 }
        ensures yes { (text : List (List ℕ)) → length text ≡ lines → result ≡ true → MayCome self.now.opening self.now.entries (edit.Put block seen text) }
        ensures not { (text : List (List ℕ)) → length text ≡ lines → result ≡ false → MayCome self.now.opening self.now.entries (edit.Put block seen text) → ⊥ }
    {
        let _ids = self.ids();
        if self.stamp(block) != Some(seen) {
            return false;
        }
        if self.version() >= 1048576 {
            return false;
        }
        self.lines_with(block, lines) <= 1048576
    }

    /// Whether an add of a text with so many lines may come next.
    pub fn may_add(&self, anchor: Anchor, block: u32, lines: u32) -> bool
        requires { lines ≤ 4096 }
        ensures yes { (text : List (List ℕ)) → length text ≡ lines → result ≡ true → MayCome self.now.opening self.now.entries (edit.Add anchor block text) }
        ensures not { (text : List (List ℕ)) → length text ≡ lines → result ≡ false → MayCome self.now.opening self.now.entries (edit.Add anchor block text) → ⊥ }
    {
        if block != self.ids() {
            return false;
        }
        if !self.has_anchor(anchor) {
            return false;
        }
        if self.version() >= 1048576 {
            return false;
        }
        if self.len() >= 65536 {
            return false;
        }
        self.lines + lines <= 1048576
    }

    /// Whether a cut may come next.
    pub fn may_cut(&self, block: u32, seen: u32) -> bool
        ensures yes { result ≡ true → MayCome self.now.opening self.now.entries (edit.Cut block seen) }
        ensures not { result ≡ false → MayCome self.now.opening self.now.entries (edit.Cut block seen) → ⊥ }
    {
        let _ids = self.ids();
        if self.stamp(block) != Some(seen) {
            return false;
        }
        self.version() < 1048576
    }

    /// Whether other names of the header may come next, whatever they are.
    pub fn may_change_head(&self, seen: u32) -> bool
        ensures yes { (names : List (List ℕ)) → result ≡ true → MayCome self.now.opening self.now.entries (edit.Head seen names) }
        ensures not { (names : List (List ℕ)) → result ≡ false → MayCome self.now.opening self.now.entries (edit.Head seen names) → ⊥ }
    {
        let _ids = self.ids();
        if self.head != seen {
            return false;
        }
        self.version() < 1048576
    }

    // Whether a new block's anchor is there.
    fn has_anchor(&self, anchor: Anchor) -> bool
        ensures yes { result ≡ true → HasAnchor (outline_document self.now) anchor }
        ensures not { result ≡ false → HasAnchor (outline_document self.now) anchor → ⊥ }
    {
        match anchor {
            Anchor::Start => true,
            Anchor::After(id) => self.stamp(id).is_some(),
        }
    }

    /// The texts of the blocks that are there, in their order. They keep the limits of a document.
    #[tactic(auto, using(crate::proofs::Looks::take_next))]
    pub fn texts(&self) -> Result<Vec<BlockText>, NoMemory>
        ensures texts { IfOk result (λ texts. texts.items ≡ map (λ b. b.lines) (outline_document self.now).blocks) }
        ensures few { IfOk result (λ texts. length texts.items ≤ block_limit) }
        ensures short { IfOk result (λ texts. All (λ (text : List (List ℕ)). length text ≤ 4096) texts.items) }
        ensures lines { IfOk result (λ texts. length (flat_map (λ (text : List (List ℕ)). text) texts.items) ≤ line_limit) }
    {
        let _ids = self.ids();
        let mut texts = Vec::with_capacity(self.alloc, self.len() as usize)?;
        for at in 0..self.len() {
            texts.push(self.copied_text(at)?)?;
        }
        Ok(texts)
    }

    // A copy of the text of the block at a place.
    fn copied_text(&self, at: u32) -> Result<BlockText, NoMemory>
        requires { at < length (outline_document self.now).blocks }
        ensures { IfOk result (λ text. slice_get (map (λ b. b.lines) (outline_document self.now).blocks) at ≡ Some text) }
    {
        let _ids = self.ids();
        let Some(block) = self.id_at(at) else {
            unreachable!();
        };
        let Some(text) = self.text_of(block) else {
            unreachable!();
        };
        text.try_clone()
    }
}
