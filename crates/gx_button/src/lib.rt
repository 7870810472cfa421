//! A kill from the risk desk's page: who may ask for it, and what is done then, the user's Login, his Kill and his Logout as
//! steps on a line of the page's own.
//!
//! - `permission`: who may kill an account;
//! - `token`: what a page is given, so that no page of another server can ask in a user's name;
//! - `steps`: the steps of a kill.
#![tactic(auto)]

mod permission;
mod steps;
mod token;

pub use permission::{has_power, may_kill};
pub use steps::{Decided, Deed, Refusal, kill};
pub use token::Secret;
