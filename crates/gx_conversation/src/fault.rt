//! Why a run ends early.

ghost use Rattle.std.specs.Prelude.{◌≡◌};
ghost use Rattle.gx_conversation.specs.Faults.{status_of_fault};
ghost use Rattle.gx_conversation.specs.declared.fault.Fault.TheVariants as faults;

use gx_units::{LoginRejection, OutOfMemory};
use std::fmt;

/// Why a run ends early.
#[derive(Clone, Copy, PartialEq, Eq)]
pub enum Fault {
    /// Memory was refused.
    OutOfMemory,
    /// The peer has closed the line, is silent, or can't be reached any more.
    LineBroke,
    /// What the peer sends is no text of a gate.
    NoGate,
    /// The gate has ended the session, as it does once the day is closed.
    SessionEnded,
    /// What was asked, or the login, was not answered in time.
    NoAnswer,
    /// What is to be shown can't be written.
    OutputFailed,
    /// The login was rejected.
    Rejected(LoginRejection),
}

impl From<OutOfMemory> for Fault {
    ghost from_gives = { λ _ fault. fault ≡ faults.OutOfMemory };

    fn from(_refused: OutOfMemory) -> Fault {
        Fault::OutOfMemory
    }
}

impl Fault {
    /// The status that says so.
    pub fn status(self) -> u8
        ensures { result ≡ status_of_fault self }
    {
        match self {
            Fault::OutOfMemory
            | Fault::LineBroke
            | Fault::NoGate
            | Fault::SessionEnded
            | Fault::NoAnswer
            | Fault::OutputFailed => 1,
            Fault::Rejected(_) => 6,
        }
    }

    fn text(self) -> &'static str {
        match self {
            Fault::OutOfMemory => "out of memory",
            Fault::LineBroke => "the line broke",
            Fault::NoGate => "the line broke: what comes is no text of a gate",
            Fault::SessionEnded => "the gate has ended the session: the day is closed",
            Fault::NoAnswer => "no answer within 5 seconds",
            Fault::OutputFailed => "standard output can't be written",
            Fault::Rejected(LoginRejection::NotAuthorized) => {
                "login rejected: A: the user or the password is wrong; or the user is logged in already elsewhere: \
                 log out there, or wait 15 seconds"
            }
            Fault::Rejected(LoginRejection::SessionNotAvailable) => {
                "login rejected: S: the session is not available"
            }
        }
    }
}

impl fmt::Display for Fault {
    fn fmt<W: fmt::Write>(&self, f: &mut fmt::Formatter<W>) -> fmt::Result {
        f.write_str(self.text())
    }
}
