//! Who is connected, and what is told of him.

use gx_soup::SoupFault;
use gx_units::OutOfMemory;
use std::alloc::Global;
use std::net::{Shutdown, SocketAddr, TcpStream};

/// A connection that was taken.
#[derive(Drop)]
pub struct Peer {
    /// Which one of the run, the first being 1.
    pub number: u64,
    /// The address that it came from.
    pub address: SocketAddr,
    /// The socket, to read from and to write to.
    pub stream: TcpStream,
}

/// What is told of bytes that are no packets.
pub fn words_of(fault: SoupFault) -> &'static str {
    match fault {
        SoupFault::ZeroLength => "a packet of length 0",
        SoupFault::UnknownType => "a packet of a type that no client sends",
        SoupFault::BadLogin => "a Login Request of another length, or that asks for no number",
    }
}

impl Peer {
    /// Hangs up on him: a read that waits for him ends.
    pub fn hang_up(&self) {
        let _ = self.stream.shutdown(Shutdown::Both);
    }

    /// Words on the connection, of this kind: `connection 9 from 127.0.0.1:51514: no line: ..`.
    ///
    /// # Errors
    ///
    /// `OutOfMemory` where memory was refused.
    pub fn words(&self, alloc: Global, kind: &str, words: &str) -> Result<String, OutOfMemory> {
        let number = self.number;
        let address = self.address;
        match format!(in alloc; "connection {number} from {address}: {kind}: {words}") {
            Ok(words) => Ok(words),
            Err(_) => Err(OutOfMemory),
        }
    }
}
