//! What a risk desk is shown of a gate's day, at one moment: a summary that follows the records as they come, and views of it and
//! of the gate for one viewer, whose rows name no account but his.
//!
//! All else is shown to every viewer, and is of all accounts: how many records there are and what they say in numbers, the limits
//! of all rules, how often each rule denied a request, and commands that name no account. Where a rule counts several accounts
//! together, what one of them has used of its limit is the sum of all in the rule's scope, also of those that are not his.
//!
//! - `accounts`: whether an account is killed, and how many orders it has live;
//! - `counts`, `denied`: how many records there are, and what they say;
//! - `summary`: what is kept of the records, so that no view walks the day;
//! - `sight`: which accounts are a viewer's, and what concerns them;
//! - `uses`: what is used of the limits of gross and net rules;
//! - `laws`: that no row of a view names another's account, and that no denial and no command in it concerns one;
//! - `view`: what a viewer is shown, each figure an equation with its definition.
#![tactic(auto)]

mod accounts;
mod board;
mod counts;
mod denied;
mod laws;
mod repeating;
mod replica;
mod sight;
mod summary;
mod uses;
mod view;

pub use accounts::AccountState;
pub use board::Board;
pub use counts::Counts;
pub use denied::DeniedRow;
pub use laws::views_are_his;
pub use replica::Replica;
pub use sight::is_shown;
pub use summary::Summary;
pub use uses::{GrossUse, NetUse};
pub use view::{BoardView, view_of};
