//! Who comes to a server, up to his login.
//!
//! - `opening`: what a connection's first packets come to; a login opens it;
//! - `lines`: the day's lines, of which some are kept for officers and readers;
//! - `strangers`: the line of those who have no password;
//! - `reception`: who is given a line;
//! - `officers`: a reception of officers alone;
//! - `reserve`: the lines and the records that are kept for officers and readers.
//!
//! A connection takes no line, and makes no step, before its login.
#![tactic(auto)]

mod arriving;
mod laws;
mod lines;
mod officers;
mod opening;
mod reception;
mod reserve;
mod strangers;

pub use arriving::{await_login, is_idle, read_piece};
pub use laws::idle_packets_change_nothing;
pub use lines::{LineFault, Lines, NoLine};
pub use officers::OfficersAlone;
pub use opening::{Knock, Opening};
pub use reception::{Admission, Admits, Reception};
pub use reserve::{LAST_TRADERS_LINE, LAST_TRADERS_RECORD, MOST_DENIALS};
pub use strangers::{Denial, Strangers, Undenied};
