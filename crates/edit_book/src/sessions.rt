//! What a session remembers of its replies, and what its command asks of the book. The crates above that run sessions stand on it.
mod again;
mod asking;
mod learned;
mod session;
mod shown;

pub use again::summarised;
pub use asking::{add_too_long, ask, put_too_long};
pub use learned::Learned;
pub use session::Session;
pub use shown::names_shown;
