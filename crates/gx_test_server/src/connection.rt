//! A connection in memory between a peer and the server.

use crate::clock::ClockReads;
use crate::switches::{OnceFlag, PauseSwitch};
use gx_serve::{Cut, HangUp};
use gx_units::OutOfMemory;
use std::alloc::Global;
use std::sync::atomic::{AtomicU64, Ordering};
use std::sync::{Mutex, Wait};

/// What a peer has sent, and how far the server has read it.
#[derive(Drop)]
struct Inbox {
    sent: Vec<u8>,
    read: usize,
    /// Whether the peer sends no more.
    ended: bool,
    /// Whether a read waits for more.
    awaited: bool,
}

/// What a read of a connection finds.
#[derive(Clone, Copy)]
pub(crate) enum ReadAttempt {
    /// So many bytes; 0 where the input has ended.
    Bytes(usize),
    /// Nothing yet.
    Nothing,
}

impl Inbox {
    /// Moves what is there into the buffer of a read.
    fn take(&mut self, buf: &mut [u8]) -> ReadAttempt {
        let (_, rest) = self
            .sent
            .as_slice()
            .split_at(self.read.min(self.sent.len()));
        let count = rest.len().min(buf.len());
        buf[..count].copy_from_slice(&rest[..count]);
        if count == 0 && !self.ended && !buf.is_empty() {
            self.awaited = true;
            return ReadAttempt::Nothing;
        }
        self.read = self.read.saturating_add(count);
        ReadAttempt::Bytes(count)
    }
}

/// A connection in memory between a peer and the server.
#[derive(Drop)]
pub(crate) struct MemoryConnection {
    inbox: Mutex<Inbox>,
    written: Mutex<Vec<u8>>,
    /// How many packets were written.
    packets: AtomicU64,
    cut_reason: Mutex<Option<Cut>>,
    /// While it is on, writes to the peer wait.
    pub(crate) write_pause: PauseSwitch,
    /// How often the threads of the connection have read the clock. While its switch is on, the peer's requests wait at the
    /// door: each reads the moment before it is made.
    pub(crate) clock_reads: ClockReads,
    /// The connection was opened.
    pub(crate) begun: OnceFlag,
    /// Its user was admitted: from then on its threads read the clock.
    pub(crate) admitted: OnceFlag,
    /// The server writes no more.
    finished: OnceFlag,
    /// How often its threads had read the clock to measure a wait when the server wrote its last.
    wait_reads_at_finish: AtomicU64,
    /// The server has hung up.
    pub(crate) hung_up: OnceFlag,
    /// All its threads have ended.
    pub(crate) ended: OnceFlag,
}

/// The length of the first packet, if it is whole.
fn first_length(bytes: &[u8]) -> Option<usize> {
    let [high, low, behind @ ..] = bytes else {
        return None;
    };
    let count = usize::from(u16::from_be_bytes([*high, *low]));
    if behind.len() < count {
        return None;
    }
    Some(count.saturating_add(2))
}

/// The first packet, and the bytes behind it.
pub(crate) fn first_packet(bytes: &[u8]) -> Option<(&[u8], &[u8])> {
    let length = first_length(bytes)?;
    bytes.split_at_checked(length)
}

/// How many whole packets these bytes begin with.
fn packets_in(bytes: &[u8]) -> u64 {
    let mut count = 0u64;
    let mut rest = bytes;
    for _ in 0..bytes.len() {
        let Some((_, behind)) = first_packet(rest) else {
            break;
        };
        count = count.saturating_add(1);
        rest = behind;
    }
    count
}

impl MemoryConnection {
    /// A connection over which nothing was sent.
    pub(crate) fn new(alloc: Global) -> MemoryConnection {
        MemoryConnection {
            inbox: Mutex::new(Inbox {
                sent: Vec::new(alloc),
                read: 0,
                ended: false,
                awaited: false,
            }),
            written: Mutex::new(Vec::new(alloc)),
            packets: AtomicU64::new(0),
            write_pause: PauseSwitch::new(),
            cut_reason: Mutex::new(None),
            clock_reads: ClockReads::new(),
            begun: OnceFlag::new(),
            admitted: OnceFlag::new(),
            finished: OnceFlag::new(),
            wait_reads_at_finish: AtomicU64::new(0),
            hung_up: OnceFlag::new(),
            ended: OnceFlag::new(),
        }
    }

    /// The peer sends these bytes, and nothing more if they are the last.
    pub(crate) fn send<R: Wait>(
        &self,
        rt: &R,
        bytes: &[u8],
        last: bool,
    ) -> Result<(), OutOfMemory> {
        let mut inbox = self.inbox.lock(rt);
        inbox.awaited = false;
        inbox.ended = last || inbox.ended;
        inbox.sent.extend_from_slice(bytes)?;
        Ok(())
    }

    /// The peer sends no more.
    pub(crate) fn end<R: Wait>(&self, rt: &R) {
        let mut inbox = self.inbox.lock(rt);
        inbox.awaited = false;
        inbox.ended = true;
    }

    /// Whether the connection was opened and has not ended.
    pub(crate) fn is_open(&self) -> bool {
        self.begun.is_raised() && !self.hung_up.is_raised() && !self.ended.is_raised()
    }

    /// Whether the server has read everything and a read waits for more, or a request waits at the door.
    pub(crate) fn is_read<R: Wait>(&self, rt: &R) -> bool {
        let inbox = self.inbox.lock(rt);
        let is_taken = inbox.read >= inbox.sent.len();
        inbox.awaited || is_taken && self.clock_reads.pause.has_waiter()
    }

    /// The server reads what is there. Once it has hung up, the input has ended.
    pub(crate) fn take<R: Wait>(&self, rt: &R, buf: &mut [u8]) -> ReadAttempt {
        if self.hung_up.is_raised() {
            return ReadAttempt::Bytes(0);
        }
        self.inbox.lock(rt).take(buf)
    }

    /// Whether the server writes no more and waits for the peer to end by now, or has hung up.
    pub(crate) fn is_finished(&self) -> bool {
        let at_finish = self.wait_reads_at_finish.load(Ordering::SeqCst);
        let waits = !self.admitted.is_raised()
            || self.clock_reads.waits.load(Ordering::SeqCst) > at_finish;
        self.hung_up.is_raised() || self.finished.is_raised() && waits
    }

    /// Whether the server does nothing more at this connection until its peer does something.
    pub(crate) fn waits_for_peer(&self) -> bool {
        let waits = !self.admitted.is_raised() || self.write_pause.has_waiter();
        waits || self.finished.is_raised() || self.hung_up.is_raised()
    }

    /// The server writes these bytes.
    pub(crate) fn write<R: Wait>(&self, rt: &R, bytes: &[u8]) -> Result<(), OutOfMemory> {
        let mut written = self.written.lock(rt);
        written.extend_from_slice(bytes)?;
        let count = packets_in(written.as_slice());
        self.packets.store(count, Ordering::SeqCst);
        Ok(())
    }

    /// How many packets were written.
    pub(crate) fn packets(&self) -> u64 {
        self.packets.load(Ordering::SeqCst)
    }

    /// What was written.
    pub(crate) fn written<R: Wait>(&self, rt: &R, alloc: Global) -> Result<Vec<u8>, OutOfMemory> {
        let written = self.written.lock(rt);
        Ok(Vec::from_slice(alloc, written.as_slice())?)
    }

    /// Notes that the connection has ended, and why, if it was cut off.
    pub(crate) fn set_ended<R: Wait>(&self, rt: &R, reason: Option<Cut>) {
        *self.cut_reason.lock(rt) = reason;
        self.ended.raise();
    }

    /// Why the connection was cut off, if it was.
    pub(crate) fn cut_reason<R: Wait>(&self, rt: &R) -> Option<Cut> {
        *self.cut_reason.lock(rt)
    }
}

impl HangUp for MemoryConnection {
    fn finish(&self) {
        let waits = self.clock_reads.waits.load(Ordering::SeqCst);
        self.wait_reads_at_finish.store(waits, Ordering::SeqCst);
        self.finished.raise();
    }

    fn hang_up(&self) {
        self.hung_up.raise();
        self.write_pause.release();
        self.clock_reads.pause.release();
    }
}
