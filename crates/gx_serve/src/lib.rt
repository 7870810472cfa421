//! Connections, each in threads of its own, over one gate that they share.
//!
//! A connection is read up to its login, and its user is given a line if he has the right password; else he is turned away.
//! Each connection has a reader, which takes packets and asks the gate, and a writer, which alone
//! writes. They share a [`SharedConnection`]: the session and the pass, under a lock that nobody holds while he
//! reads or writes. A reader makes the matching steps that its packets ask for, a few at a time, and a matcher makes what is
//! left, and wakes the writers for what others did. What an officer's Kill or Close Day has ended the reader that
//! made its step has announced ([`Announces`]). All of them are generic over the [`Door`](gx_door::Door)
//! that they ask, the reader and the writer.
#![tactic(auto)]

mod announcing;
mod conduct;
mod connection;
mod keeping;
mod matching;
mod reading;
mod receiving;
mod shared_connection;
mod state;
mod timing;
mod writing;

pub use announcing::{Announced, Announces, EndedBy, EndedOrders, announce, announced_by};
pub use conduct::Exclusion;
pub use connection::{HangUp, Listening, run_connection};
pub use keeping::keep_on;
pub use matching::match_on;
pub use reading::{Cut, read_on};
pub use receiving::{Gone, Received, read_to_end, receive, turn_away};
pub use shared_connection::{Farewell, SharedConnection};
pub use writing::write_on;
