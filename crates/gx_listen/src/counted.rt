//! The connections that a server counts, where it ends by their count.

use gx_control::{ConnectionSlot, ConnectionSlots};
use std::net::TcpListener;
use std::sync::Wait;
use std::sync::atomic::{AtomicBool, Ordering};

/// Where a server listens, and how many connections it takes there before it takes officers alone.
#[derive(Drop)]
pub(crate) struct Port {
    pub(crate) listener: TcpListener,
    pub(crate) connections: u64,
}

/// The connections that a server counts: how many of them are served, and whether as many were taken as it was to take.
#[derive(Drop)]
pub(crate) struct CountedConnections {
    served: ConnectionSlots,
    all_taken: AtomicBool,
}

impl CountedConnections {
    /// None is served, and not all were taken.
    pub(crate) fn new() -> CountedConnections {
        CountedConnections {
            served: ConnectionSlots::new(u16::MAX),
            all_taken: AtomicBool::new(false),
        }
    }

    /// One more is served, until what this gives is let go.
    pub(crate) fn begin<'x, R: Wait>(&'x self, rt: &'x R) -> Option<ConnectionSlot<'x, R>> {
        self.served.acquire(rt)
    }

    /// All were taken.
    pub(crate) fn close(&self) {
        self.all_taken.store(true, Ordering::SeqCst);
    }

    /// Whether all were taken and have ended. It says so once alone, to whoever asks first.
    pub(crate) fn are_over<R: Wait>(&self, rt: &R) -> bool {
        self.served.count(rt) == 0 && self.all_taken.swap(false, Ordering::SeqCst)
    }
}
