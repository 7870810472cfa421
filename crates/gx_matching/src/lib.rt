//! What waits and what rests: the book that a gate keeps, what one more record does to it, and what is matched next.
#![tactic(auto)]

pub mod laws;
pub mod meeting;
