//! What happens to a session, and what follows.

use gx_access_gate::{LoginAnswer, StepFault};
use gx_history::record::Request;
use gx_soup::ClientPacket;

/// What happens to a session.
#[derive(Clone, Copy)]
pub enum Event<'a> {
    /// A packet came.
    Packet(&'a ClientPacket),
    /// The login was answered.
    Answered(LoginAnswer),
    /// A step was refused.
    Refused(StepFault),
    /// Reports were pulled and sent, this many; ended: there will be no more.
    Pulled { count: u64, ended: bool },
    /// Time has passed.
    Tick,
    /// The input has a fault.
    Fault,
    /// The input is at its end.
    End,
}

/// What a session sends besides the answer to its login and reports.
#[derive(Clone, Copy, PartialEq, Eq)]
pub enum Sign {
    /// Server Heartbeat.
    Heartbeat,
    /// End of Session.
    EndOfSession,
}

/// A packet of the session's own.
#[derive(Clone, Copy, PartialEq, Eq)]
pub enum Control {
    /// Login Accepted or Login Rejected.
    Answer(LoginAnswer),
    /// Any other.
    Sign(Sign),
}

/// What the caller does next, once the packet is sent.
#[derive(Clone, Copy, PartialEq, Eq)]
pub enum Next {
    /// Nothing.
    Idle,
    /// Make the packet's login step, and tell the session its answer.
    Login,
    /// Make a step of this request.
    Act(Request),
    /// Make the logout step, then close.
    Logout,
    /// Close.
    Close,
}

/// What follows an event.
#[derive(Clone, Copy, PartialEq, Eq)]
pub struct Reply {
    /// The packet that the session sends of its own, if there is one.
    pub send: Option<Control>,
    /// What the caller does behind it.
    pub next: Next,
}
