//! Packets of SoupBinTCP 3.00: read from a text that comes in pieces, and written whole.
#![tactic(auto)]

mod feeder;
mod fields;
mod front;
mod laws;
mod packet;
mod payload;
mod writing;

pub use feeder::{Fed, Feeder};
pub use fields::spelled_value;
pub use laws::{held_back, nothing_after_fault, packets_grow, read_back};
pub use packet::{ClientPacket, LoginRequest, ServerPacket, SoupFault};
pub use payload::Payload;
pub use writing::{append_sequenced, encode, encode_client};
