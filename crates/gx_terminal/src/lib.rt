//! What a user asks for at a terminal, a line each, and the status of his run. Nothing here opens a connection.
#![tactic(auto)]

mod accounts;
mod help;
mod laws;
mod limits;
mod price;
mod reading;
mod status;
mod wish;
mod words;
mod wrong;

pub use accounts::accounts_named;
pub use help::HELP;
pub use laws::prices_are_read_back;
pub use limits::{KnownLimit, LimitFault, LimitUnit, TypedLimit};
pub use status::Status;
pub use wish::{Lifetime, NewOrder, NewTerms, Side, Wish};
pub use wrong::{ExpectedInput, WrongWord};
