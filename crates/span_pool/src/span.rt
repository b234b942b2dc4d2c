//! A span, with what it holds.
ghost use Rattle.std.specs.Prelude.{◌≡◌, ◌≤◌, ◌^◌, length};

use std::marker::Model;

/// A span that a pool has handed out: memory of its own, with room for 2 to the power of its class items, and the items in it.
#[derive(Drop)]
pub struct Span<T> {
    pub(crate) list: Vec<T>,
    pub(crate) class: u8,
}

impl<T> Model for Span<T> {
    ghost use Rattle.span_pool.specs.Pool.{SpanView, IsSpan, span_code};

    ghost Value = { SpanView T };

    ghost coded = { span_code T.code };

    ghost view = { λ s. record { class = s.class; items = s.list.items } };

    ghost invariant = { λ s. IsSpan s.list s.class };
}

impl<T: Copy> Span<T> {
    /// The class of the span.
    pub fn class(&self) -> u8
        ensures { result ≡ self.now.class }
    {
        self.class
    }

    /// What the span holds. It takes constant time.
    pub fn get(&self) -> &[T]
        ensures holds { result.now ≡ self.now.items }
        ensures fits { length result.now ≤ 2 ^ self.now.class }
    {
        self.list.as_slice()
    }

    /// Puts the items into the span, in place of what it held. It takes no memory.
    pub fn fill(&mut self, items: &[T])
        requires fits { length items.now ≤ 2 ^ self.old.class }
        ensures holds { self.new.items ≡ items.now }
        ensures class { self.new.class ≡ self.old.class }
    {
        self.list.clear();
        match self.list.extend_from_slice(items) {
            Ok(()) => {}
            Err(_) => unreachable!(),
        }
    }
}
