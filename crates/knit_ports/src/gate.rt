//! Where a session may be held between its commands.
use std::sync::Wait;

/// Stands before and behind each command of a session. A gate promises nothing. It may wait, and it changes no state that
/// others see but its own. Threads share it.
pub trait Gate {
    /// Is called before the session's command.
    fn before<R: Wait>(&self, rt: &R, session: u32, command: u32);

    /// Is called when the command's reply is in.
    fn after<R: Wait>(&self, rt: &R, session: u32, command: u32);
}

/// A gate that holds nobody.
#[derive(Clone, Copy, Debug, PartialEq, Eq)]
pub struct IdleGate;

impl Gate for IdleGate {
    fn before<R: Wait>(&self, _rt: &R, _session: u32, _command: u32) {}

    fn after<R: Wait>(&self, _rt: &R, _session: u32, _command: u32) {}
}
