//! Room that a connection keeps.

use gx_history::report::Report;
use gx_soup::ClientPacket;
use std::alloc::Global;

/// Room that is kept from pull to pull. Its allocator is that of the connection.
#[derive(Drop)]
pub(crate) struct PullRoom {
    pub(crate) alloc: Global,
    /// The reports of a pull.
    pub(crate) reports: Vec<Report>,
    /// The same reports, in their packets.
    pub(crate) text: Vec<u8>,
    /// Where the user stood among the policy's users: a pull looks for him there first.
    pub(crate) near: usize,
    /// No packet of the piece follows, so that the writer is flushed before more is read.
    pub(crate) flushes: bool,
}

/// Room that is kept from piece to piece.
#[derive(Drop)]
pub(crate) struct Room {
    /// The packets of a piece.
    pub(crate) packets: Vec<ClientPacket>,
    pub(crate) pull: PullRoom,
}

impl Room {
    /// Room for nothing yet. It takes no memory.
    pub(crate) fn new(alloc: Global) -> Room {
        Room {
            packets: Vec::new(alloc),
            pull: PullRoom {
                alloc,
                reports: Vec::new(alloc),
                text: Vec::new(alloc),
                near: 0,
                flushes: true,
            },
        }
    }
}
