//! A text of one line.
ghost use Rattle.std.specs.Prelude.{◌≡◌, IfOk};
ghost use Rattle.knit_base.specs.Lines.{HasNoLineEnd};

use crate::NoMemory;
use std::alloc::Global;
use std::marker::Model;

/// A text without a line feed.
#[derive(Drop)]
pub struct Text {
    text: String,
}

impl Model for Text {
    ghost use Rattle.std.specs.Prelude.{List, ℕ, string_bytes};
    ghost use Rattle.knit_base.specs.Lines.{HasNoLineEnd};

    ghost Value = { List ℕ };

    ghost view = { λ t. string_bytes t.text };

    ghost invariant = { λ t. HasNoLineEnd (string_bytes t.text) };
}

impl Text {
    /// A copy of the text.
    pub fn of(alloc: Global, s: &str) -> Result<Self, NoMemory>
        requires { HasNoLineEnd s.now }
        ensures { IfOk result (λ text. text ≡ s.now) }
    {
        let text = String::from_str(alloc, s)?;
        Ok(Text { text })
    }

    pub fn as_str(&self) -> &str
        ensures text { result.now ≡ self.now }
        ensures no_line_end { HasNoLineEnd self.now }
    {
        self.text.as_str()
    }
}
