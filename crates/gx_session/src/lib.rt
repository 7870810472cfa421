//! The session table of SoupBinTCP, which says what follows each event of a connection, and how reports and its own packets
//! are written. It asks no gate: whoever drives it does.
#![tactic(auto)]

mod event;
mod laws;
mod outbox;
mod sending;
mod session;

pub use event::{Control, Event, Next, Reply, Sign};
pub use laws::{
    ended_sessions_are_silent, no_logout_without_a_login, one_login, silent_before_an_answer,
};
pub use outbox::Outbox;
pub use sending::{send_control, send_pulled, send_reports};
pub use session::{Phase, Session};
