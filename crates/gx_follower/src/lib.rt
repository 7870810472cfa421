//! The follower of an audit that grows: a gate that has the records of all that is whole among the bytes read so far.
//!
//! Bytes come in pieces of any size, as a server writes its journal. Each record's step is made once, when its last byte has
//! come, and no step reads again what was read.
#![tactic(auto)]

mod follower;
mod piece;

pub use follower::Follower;
