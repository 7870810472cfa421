//! The command `gate desk`: a terminal of a gate, over a socket. It knows no gate.
#![tactic(auto)]

mod desk;
mod known;
mod page;

pub use desk::desk_told;
