//! How many connections the descriptors allow that may be open.

use gx_log::Log;
use gx_program::most_descriptors;
use std::sync::Wait;

/// So many descriptors a server wants beside those of the connections that it serves: the standard streams, the listener,
/// the journal and the audit, and the connection that waits for a place.
const OWN: u64 = 8;

/// So many the risk desk's page wants: its listener, its 64 connections, and the one that waits for a place.
const PAGE: u64 = 66;

/// What a server has descriptors for.
#[derive(Clone, Copy, PartialEq, Eq)]
pub(crate) struct ServerCapacity {
    /// How many connections it serves at once.
    pub(crate) places: u16,
    /// Whether it serves the risk desk's page, where it is asked for.
    pub(crate) has_page: bool,
}

/// What so many descriptors are enough for, of so many connections at once and the page, if it is asked for: the page gives way
/// where both can't be, and one connection is served always.
fn capacity_within(limit: u64, at_once: u16, page: bool) -> ServerCapacity {
    let has_page = page && limit > OWN + PAGE;
    let own = if has_page { OWN + PAGE } else { OWN };
    let left = limit.saturating_sub(own).max(1);
    ServerCapacity {
        places: u16::try_from(left).unwrap_or(at_once).min(at_once),
        has_page,
    }
}

/// Tells what is not served as it was asked for.
fn tell_less<R: Wait>(
    rt: &R,
    host: &HostRuntime,
    log: &Log,
    limit: u64,
    asked: ServerCapacity,
    capacity: ServerCapacity,
) {
    let (at_once, places) = (asked.places, capacity.places);
    let page = if asked.has_page && !capacity.has_page {
        ", and the page is not"
    } else {
        ""
    };
    let made = format!(in host.alloc();
        "gate: {limit} descriptors may be open (ulimit -n), too few for {at_once} connections at once: \
         {places} are served{page}\n"
    );
    match made {
        Ok(line) => log.tell(rt, line.as_bytes()),
        Err(_) => log.leave_out(rt),
    }
}

/// What a server has descriptors for, where so many connections at once are asked for, and the page or not. Where that is less, it is
/// told.
pub(crate) fn capacity_for<R: Wait>(
    rt: &R,
    host: &HostRuntime,
    log: &Log,
    at_once: u16,
    page: bool,
) -> ServerCapacity {
    let limit = most_descriptors(host).unwrap_or(u64::MAX);
    let capacity = capacity_within(limit, at_once, page);
    let asked = ServerCapacity {
        places: at_once,
        has_page: page,
    };
    if capacity != asked {
        tell_less(rt, host, log, limit, asked, capacity);
    }
    capacity
}
