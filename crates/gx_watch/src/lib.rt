//! A journal that is followed: a gate that makes each of its records again as they come, and what is told of them.
#![tactic(auto)]

mod watch;

pub use watch::Watch;
