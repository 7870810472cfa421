//! The greatest that each account's figure came to in a day under each gross and net rule of the policy, the record behind
//! which it first stood there, and the first record behind which it was past the limit then in force. A [`Peaks`] looks on
//! while the day's records are made again, and asks the gate only where a figure can have risen.
#![tactic(auto)]

pub mod counting;
pub mod figure;
pub mod key;
pub mod laws;
mod limits;
pub mod peak;
pub mod peaks;
pub mod table;
pub mod touched;
mod watching;

pub use figure::Figure;
pub use peak::Peak;
pub use peaks::Peaks;
