//! The replies to several sessions.
ghost use Rattle.std.specs.Prelude.{◌≡◌, map};

use crate::reply::GroupReply;
use std::marker::Model;

/// The replies to each session, in the order of the sessions' numbers.
#[derive(Drop)]
pub struct GroupReplies {
    lists: Vec<Vec<GroupReply>>,
}

impl Model for GroupReplies {
    ghost use Rattle.std.specs.Prelude.{List, map};
    ghost use Rattle.edit_groups.specs.declared.reply.GroupReply.{GroupReply};

    ghost Value = { List (List GroupReply) };

    ghost view = { λ r. map (λ list. list.items) r.lists.items };
}

impl GroupReplies {
    /// The replies of these lists.
    pub fn of(lists: Vec<Vec<GroupReply>>) -> Self
        ensures { result ≡ map (λ list. list.items) lists.items }
    {
        GroupReplies { lists }
    }

    pub fn as_slice(&self) -> &[Vec<GroupReply>]
        ensures { map (λ list. list.items) result.now ≡ self.now }
    {
        &self.lists
    }
}
