//! A scenario: its steps and its peers.

use crate::connection::MemoryConnection;
use gx_units::OutOfMemory;
use std::alloc::Global;

/// A peer, by the name that the scenario gives him, and his connection.
#[derive(Drop)]
pub(crate) struct ScenarioPeer<'a> {
    pub(crate) name: &'a str,
    pub(crate) connection: MemoryConnection,
}

/// A scenario: its steps, a line each, and its peers.
#[derive(Drop)]
pub struct Scenario<'a> {
    pub(crate) lines: Vec<&'a str>,
    pub(crate) peers: Vec<ScenarioPeer<'a>>,
}

/// The peers whose connections a scenario opens, in that order.
fn peers_of(alloc: Global, text: &str) -> Result<Vec<ScenarioPeer<'_>>, OutOfMemory> {
    let mut peers = Vec::new(alloc);
    for line in text.lines() {
        if let Some(name) = line.strip_prefix("open ") {
            let connection = MemoryConnection::new(alloc);
            peers.push(ScenarioPeer { name, connection })?;
        }
    }
    Ok(peers)
}

/// The lines of a text.
fn lines_of(alloc: Global, text: &str) -> Result<Vec<&str>, OutOfMemory> {
    let mut lines = Vec::new(alloc);
    for line in text.lines() {
        lines.push(line)?;
    }
    Ok(lines)
}

impl<'a> Scenario<'a> {
    /// The scenario of a text, before it runs.
    pub fn new(alloc: Global, text: &'a str) -> Result<Scenario<'a>, OutOfMemory> {
        Ok(Scenario {
            lines: lines_of(alloc, text)?,
            peers: peers_of(alloc, text)?,
        })
    }

    /// The peer of this name.
    pub(crate) fn peer(&self, name: &str) -> Option<&ScenarioPeer<'a>> {
        let mut found = None;
        for peer in &self.peers {
            if peer.name == name {
                found = Some(peer);
            }
        }
        found
    }
}
