//! Laws of the definitions, each as what a function without a body ensures: what one more record does to each, and what
//! they say of every legal history. Beside them the lemmas that they and the crates above rest on.
//!
//! - `history`: a legal day's records, its orders and its tables;
//! - `effects`: what requests and matching steps change, and what matching comes to;
//! - `positions`: what one more record changes of orders, fills and grants, from which all figures are taken;
//! - `reserved`: how much is kept beforehand, so that a Kill and a Logout can always be recorded and told;
//! - `exposure`: what accounts may have open and executed in all under the rules that limit it.
#![tactic(auto)]

pub mod effects;
pub mod exposure;
pub mod history;
pub mod positions;
pub mod reserved;
