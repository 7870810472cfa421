//! One connection of the page's server, from its first byte to its last.

use crate::notice::Notice;
use crate::response::notice_response;
use crate::visit::{Gulp, Incoming, Outgoing, Sent};
use gx_http::{Request, RequestFault, RequestTarget};
use gx_units::{OutOfMemory, UserName};
use std::alloc::Global;
use std::io::Read;
use std::net::{IpAddr, Shutdown, TcpStream};
use std::time::Duration;

/// So many seconds a connection has for its request, and as many for its answer.
const REQUEST_TIMEOUT_SECONDS: u64 = 5;

/// So many milliseconds what still comes is let go behind an answer, so that the peer reads it before the connection is closed.
const CLOSE_LINGER_MILLIS: u64 = 1_000;

/// Who has just come is not hung up on for another for so many milliseconds, while his request may be under way.
const GRACE_MILLIS: u64 = 50;

/// A wrong password that is one too many is answered so many milliseconds later.
const WRONG_PASSWORD_DELAY_MILLIS: u64 = 1_000;

/// How far a connection is.
#[derive(Clone, Copy, PartialEq, Eq)]
enum GuestStage {
    /// Its request is not there yet.
    Reading,
    /// Its request is to be answered.
    Asking,
    /// Its answer goes out.
    Writing,
    /// Its answer is out; what still comes is let go.
    Parting,
    /// It is over.
    Over,
}

/// A connection of the page's server.
#[derive(Drop)]
pub(crate) struct Guest {
    stream: TcpStream,
    /// The address that it came from.
    pub(crate) address: IpAddr,
    stage: GuestStage,
    incoming: Incoming,
    request: Option<Request>,
    outgoing: Option<Outgoing>,
    /// The answer goes out no earlier.
    from: Duration,
    /// The stage ends by then.
    until: Duration,
}

impl Guest {
    /// A connection that has come now.
    pub(crate) fn new(alloc: Global, stream: TcpStream, address: IpAddr, now: Duration) -> Guest {
        Guest {
            stream,
            address,
            stage: GuestStage::Reading,
            incoming: Incoming::new(alloc),
            request: None,
            outgoing: None,
            from: now,
            until: now.saturating_add(Duration::from_secs(REQUEST_TIMEOUT_SECONDS)),
        }
    }

    /// Whether it is over.
    pub(crate) fn is_over(&self) -> bool {
        self.stage == GuestStage::Over
    }

    /// Whether nothing is owed to it: it has not asked for anything yet, though it has had a moment for that, or its answer is
    /// out.
    pub(crate) fn is_owed_nothing(&self, now: Duration) -> bool {
        let asks_by = self
            .from
            .saturating_add(Duration::from_millis(GRACE_MILLIS));
        match self.stage {
            GuestStage::Reading => now >= asks_by,
            GuestStage::Parting => true,
            GuestStage::Asking | GuestStage::Writing | GuestStage::Over => false,
        }
    }

    /// The user in whose name it asks, if it waits for an answer and names one.
    pub(crate) fn claims(&self) -> Option<UserName> {
        let who = self.asks()?.caller?;
        Some(who.user.folded())
    }

    /// Whether its answer is held back for a while.
    pub(crate) fn is_late(&self, now: Duration) -> bool {
        self.stage == GuestStage::Writing && now < self.from
    }

    /// Hangs up on it.
    pub(crate) fn hang_up(&mut self) {
        self.stage = GuestStage::Over;
    }

    /// The request that is to be answered, if there is one.
    pub(crate) fn asks(&self) -> Option<Request> {
        if self.stage == GuestStage::Asking {
            self.request
        } else {
            None
        }
    }

    /// Whether it is to be told whether the gate takes orders.
    pub(crate) fn asks_for_health(&self) -> bool {
        match self.asks() {
            Some(request) => matches!(request.asked, RequestTarget::Health),
            None => false,
        }
    }

    /// This is its answer, and where it is late, a second later. Where there was no memory for it, it is hung up on.
    pub(crate) fn answer(
        &mut self,
        text: Result<Vec<u8>, OutOfMemory>,
        is_late: bool,
        now: Duration,
    ) {
        match text {
            Ok(text) => {
                self.outgoing = Some(Outgoing::new(text));
                self.stage = GuestStage::Writing;
                let delay = Duration::from_millis(if is_late {
                    WRONG_PASSWORD_DELAY_MILLIS
                } else {
                    0
                });
                self.from = now.saturating_add(delay);
                self.until = self
                    .from
                    .saturating_add(Duration::from_secs(REQUEST_TIMEOUT_SECONDS));
            }
            Err(_) => self.stage = GuestStage::Over,
        }
    }

    /// Answers what is no request.
    fn refuse(&mut self, alloc: Global, fault: RequestFault, now: Duration) {
        self.answer(notice_response(alloc, Notice::Fault(fault)), false, now);
    }

    /// What has come by now is a request, none, or may become one.
    fn read(&mut self, alloc: Global, now: Duration) {
        match self.incoming.request() {
            Ok(request) => {
                self.request = Some(request);
                self.stage = GuestStage::Asking;
            }
            Err(RequestFault::Unfinished) => {}
            Err(fault) => self.refuse(alloc, fault, now),
        }
    }

    /// Takes what is there of its request. Answers whether something was.
    fn receive(&mut self, alloc: Global, now: Duration) -> bool {
        match self.incoming.take(&mut self.stream) {
            Gulp::Came => {
                self.read(alloc, now);
                true
            }
            Gulp::Waits if now < self.until => false,
            Gulp::Waits | Gulp::Ended => {
                self.refuse(alloc, RequestFault::Unfinished, now);
                true
            }
        }
    }

    /// Its answer is out.
    fn finish(&mut self, now: Duration) {
        let _ = self.stream.shutdown(Shutdown::Write);
        self.stage = GuestStage::Parting;
        self.until = now.saturating_add(Duration::from_millis(CLOSE_LINGER_MILLIS));
    }

    /// Sends on. Answers whether something was sent.
    fn send_on(&mut self, now: Duration) -> bool {
        if now < self.from {
            return false;
        }
        let Some(outgoing) = &mut self.outgoing else {
            self.stage = GuestStage::Over;
            return true;
        };
        match outgoing.send(&mut self.stream) {
            Sent::All => self.finish(now),
            Sent::More => {}
            Sent::Waits if now < self.until => return false,
            Sent::Waits | Sent::Failed => self.stage = GuestStage::Over,
        }
        true
    }

    /// Lets go of what still comes. Answers whether something did.
    fn part(&mut self, now: Duration) -> bool {
        let mut buffer = [0u8; 4096];
        match self.stream.read(&mut buffer) {
            Ok(count) if count > 0 && now < self.until => true,
            Err(_) if now < self.until => false,
            _ => {
                self.stage = GuestStage::Over;
                true
            }
        }
    }

    /// Goes on as far as it can without waiting. Answers whether it did.
    pub(crate) fn go_on(&mut self, alloc: Global, now: Duration) -> bool {
        match self.stage {
            GuestStage::Reading => self.receive(alloc, now),
            GuestStage::Writing => self.send_on(now),
            GuestStage::Parting => self.part(now),
            GuestStage::Asking | GuestStage::Over => false,
        }
    }
}
