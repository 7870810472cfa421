//! Numbers and names that every layer speaks of.
#![tactic(auto)]

mod comparing;
mod money;
mod names;
mod spelling;

pub use money::{Moment, Price, Shares, Value, value_of};
pub use names::{
    AccountName, Firm, LoginRejection, OutOfMemory, Password, RuleId, SessionName, Symbol, Token,
    UserName,
};
pub use spelling::{is_visible, padded, trimmed, unpadded};
