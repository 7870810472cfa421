//! A server on a port: it takes connections, each in threads of its own, and serves them at any [`Door`](gx_door::Door).
//!
//! - `accepting`: connections are taken, and each has a place;
//! - `visiting`: a connection from its beginning to its end;
//! - `serving`: the threads of a server;
//! - `counted`: the connections that it counts;
//! - `companion`: what is served beside it;
//! - `announcing`: what commands ended, as the log tells it;
//! - `telling`: the log of the day's records, as they are made;
//! - `ending`, `fault`: how a server ended.
//!
//! Nobody keeps an officer out: whoever has not logged in is hung up on for the next who comes.
#![tactic(auto)]

mod accepting;
mod announcing;
mod companion;
mod counted;
mod dated;
mod ending;
mod fault;
mod serving;
mod telling;
mod visiting;

pub use companion::Companion;
pub use ending::{Ending, Unserved};
pub use fault::ServeFault;
pub use serving::{DayLog, serve_door};
