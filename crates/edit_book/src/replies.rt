//! The replies to several sessions.
ghost use Rattle.std.specs.Prelude.{◌≡◌, map, length};
ghost use Rattle.std.specs.Option.{option_map};
ghost use Rattle.std.specs.List.{slice_get};

use crate::Reply;
use std::marker::Model;

/// The replies to each session, in the order of the sessions' numbers.
#[derive(Drop)]
pub struct Replies {
    lists: Vec<Vec<Reply>>,
}

impl Model for Replies {
    ghost use Rattle.std.specs.Prelude.{List, map};
    ghost use Rattle.edit_book.specs.declared.reply.Reply.{Reply};

    ghost Value = { List (List Reply) };

    ghost view = { λ r. map (λ list. list.items) r.lists.items };
}

impl Replies {
    /// The replies of these lists.
    pub fn of(lists: Vec<Vec<Reply>>) -> Self
        ensures { result ≡ map (λ list. list.items) lists.items }
    {
        Replies { lists }
    }

    pub fn as_slice(&self) -> &[Vec<Reply>]
        ensures { map (λ list. list.items) result.now ≡ self.now }
    {
        &self.lists
    }
}
