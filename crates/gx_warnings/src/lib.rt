//! Which shares of the limits in force the figures of a day have passed, and behind which record each was first passed. A
//! [`Warnings`] looks on while the day's records are made again, and asks the gate only where a figure can have risen or its
//! limit was set.
#![tactic(auto)]

mod mark;
mod moved;
mod passing;
mod table;
mod warning;
mod warnings;
mod watching;

pub use warning::Warning;
pub use warnings::Warnings;
