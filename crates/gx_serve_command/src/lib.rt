//! The command `serve`: connections are served on a port over gates of any kind `G`, and an audit is written at the end.
//!
//! - `serving`: the command, and the log beside it;
//! - `beginning`, `going_on`: a day that begins, and one that a journal holds;
//! - `entrance`: where connections come in, over `limits`, how many may be open, and `announcing`, that the server listens;
//! - `page`: the risk desk's page beside the server;
//! - `runtime`: what a server needs.
#![tactic(auto)]

mod announcing;
mod beginning;
mod entrance;
mod going_on;
mod limits;
mod page;
mod runtime;
mod serving;

pub use runtime::ServerRuntime;
pub use serving::serve_told;
