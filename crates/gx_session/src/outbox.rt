//! What is left to be sent.

ghost use Rattle.std.specs.Prelude.{◌≡◌};
ghost use Rattle.gx_session.specs.Outboxes.{empty, left_after};

use crate::event::{Control, Sign};
use gx_access_gate::LoginAnswer;

/// What a session asked to send and the writer has not taken.
#[derive(Clone, Copy)]
pub struct Outbox {
    /// The answer to its login.
    pub answer: Option<LoginAnswer>,
    /// A Server Heartbeat or an End of Session.
    pub sign: Option<Sign>,
}

impl Outbox {
    /// Nothing.
    pub fn new() -> Outbox
        ensures { result ≡ empty }
    {
        Outbox {
            answer: None,
            sign: None,
        }
    }

    /// Leaves a packet to be sent, if there is one.
    pub fn leave(&mut self, send: Option<Control>)
        ensures { self.new ≡ left_after self.old send }
    {
        match send {
            Some(Control::Answer(answer)) => self.answer = Some(answer),
            Some(Control::Sign(sign)) => self.sign = Some(sign),
            None => {}
        }
    }
}
