//! A session of steps and its replies.
use crate::reply::GroupReply;
use crate::session::GroupSession;

/// A session with the replies that it has had.
#[derive(Drop)]
pub(crate) struct Talk {
    pub session: GroupSession,
    pub replies: Vec<GroupReply>,
}
