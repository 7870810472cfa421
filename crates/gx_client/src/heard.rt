//! Where a client's session stands, and what its packets are to it.

use gx_units::{LoginRejection, SessionName};

/// Where a client's session stands.
#[derive(Clone, Copy, PartialEq, Eq)]
pub enum Stage {
    /// The login is not answered yet.
    LoggingIn,
    /// The login was accepted.
    On,
    /// The login was rejected, or the server has ended the session.
    Over,
}

/// What a packet is to the session that hears it.
#[derive(Clone, Copy, PartialEq, Eq)]
pub enum Heard {
    /// The login is accepted: the session's name, and the number of the next report.
    LoggedIn(SessionName, u64),
    /// The login is rejected, and the session is over.
    Refused(LoginRejection),
    /// A report, and its number.
    Report(u64),
    /// The server is there.
    Heartbeat,
    /// The server has ended the session: it is over.
    Ended,
    /// It has no place here, and changes nothing: a report before the login's answer, a second answer, anything once
    /// the session is over, and a report for which no number of 64 bits is left.
    Unexpected,
}
