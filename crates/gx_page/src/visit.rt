//! What comes on a connection, and what goes out on it.

ghost use Rattle.std.specs.Prelude.{◌≡◌, ◌≤◌, length};
ghost use Rattle.gx_http.specs.Requests.{IsReadAs};
ghost use Rattle.gx_page.specs.Visits.{IsHeard, IsSentOn};
ghost use Rattle.gx_page.specs.declared.visit.Sent.TheVariants as outcomes;

use gx_http::{Request, RequestFault, read_request};
use std::alloc::Global;
use std::io::{ErrorKind, Read, Write};

/// What has come on a connection so far.
#[derive(Drop)]
pub(crate) struct Incoming {
    bytes: Vec<u8>,
}

/// What a look for more bytes has brought.
#[derive(Clone, Copy, PartialEq, Eq)]
pub(crate) enum Gulp {
    /// None are there yet.
    Waits,
    /// Some came.
    Came,
    /// No more come, or there is no memory for them.
    Ended,
}

impl Incoming {
    /// Nothing yet.
    pub(crate) fn new(alloc: Global) -> Incoming {
        Incoming {
            bytes: Vec::new(alloc),
        }
    }

    /// Takes what is there.
    pub(crate) fn take<S: Read>(&mut self, stream: &mut S) -> Gulp
        ensures { IsHeard (S.remaining stream.old) (S.remaining stream.new)
            self.old.bytes.items self.new.bytes.items result }
    {
        let mut piece = [0u8; 4096];
        match stream.read(&mut piece) {
            Ok(0) => Gulp::Ended,
            Ok(count) => match self.bytes.extend_from_slice(&piece[..count]) {
                Ok(()) => Gulp::Came,
                Err(_) => Gulp::Ended,
            },
            Err(error) if error.kind() == ErrorKind::WouldBlock => Gulp::Waits,
            Err(error) if error.kind() == ErrorKind::Interrupted => Gulp::Waits,
            Err(_) => Gulp::Ended,
        }
    }

    /// The request that it is, or why it is none.
    pub(crate) fn request(&self) -> Result<Request, RequestFault>
        ensures { IsReadAs self.now.bytes.items result }
    {
        read_request(self.bytes.as_slice())
    }
}

/// What goes out on a connection, and how much of it has.
#[derive(Drop)]
pub(crate) struct Outgoing {
    text: Vec<u8>,
    sent: usize,
    ghost within: { sent ≤ length text.items },
}

/// How far a text is sent.
#[derive(Clone, Copy, PartialEq, Eq)]
pub(crate) enum Sent {
    /// All of it is.
    All,
    /// Some is left, of which the stream takes none yet.
    Waits,
    /// Some is left.
    More,
    /// No more can be sent.
    Failed,
}

impl Outgoing {
    /// This text, of which nothing is sent.
    pub(crate) fn new(text: Vec<u8>) -> Outgoing
        ensures text { result.text ≡ text }
        ensures none { result.sent ≡ 0 }
    {
        Outgoing { text, sent: 0 }
    }

    /// Sends on behind what is sent, as much as the stream takes.
    pub(crate) fn send<S: Write>(&mut self, stream: &mut S) -> Sent
        ensures text { self.new.text.items ≡ self.old.text.items }
        ensures sent { IsSentOn (S.contents stream.old) (S.contents stream.new)
            self.old.text.items self.old.sent self.new.sent }
        ensures all { result ≡ outcomes.All → self.new.sent ≡ length self.new.text.items }
    {
        if self.sent == self.text.len() {
            return Sent::All;
        }
        match stream.write(&self.text[self.sent..]) {
            Ok(0) => Sent::Failed,
            Ok(count) => {
                self.sent += count;
                if self.sent == self.text.len() {
                    Sent::All
                } else {
                    Sent::More
                }
            }
            Err(error) if error.kind() == ErrorKind::WouldBlock => Sent::Waits,
            Err(error) if error.kind() == ErrorKind::Interrupted => Sent::Waits,
            Err(_) => Sent::Failed,
        }
    }
}
