//! What threads ask of a gate that they share, whoever keeps it: the [`Door`], and by which clock, the [`Dial`]. Whoever asks at a door can be proved without
//! the gate behind it.
#![tactic(auto)]

mod caller;
mod dial;
mod door;
mod ended;
mod fault;
mod issuer;
mod matched;

pub use caller::{Caller, is_officer};
pub use dial::Dial;
pub use door::Door;
pub use ended::EndedTotals;
pub use fault::PullFault;
pub use issuer::Issuer;
pub use matched::{MatchEnd, Matched, Turned};
