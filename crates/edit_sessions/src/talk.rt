//! A session and its replies.
use edit_book::Reply;
use edit_book::sessions::Session;

/// A session with the replies that it has had.
#[derive(Drop)]
pub(crate) struct Talk {
    pub session: Session,
    pub replies: Vec<Reply>,
}
