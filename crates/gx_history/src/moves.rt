//! What a record does.

use crate::live_order::LiveOrder;
use crate::record::{Asked, Fill};
use gx_desk::Command;
use gx_policy::RuleName;
use gx_units::UserName;

/// What a record does to all that a record can change. It is known once the verdict is: the orders
/// that it names are those that were live before it.
#[derive(Clone, Copy)]
pub enum Move {
    /// Nothing: no record of a legal day does so.
    Nothing,
    /// Denies the request, by this rule.
    Denies(Asked, RuleName),
    /// Puts the user on this line, or on none.
    PutsOn(UserName, Option<u16>),
    /// Adds an order, which waits to be matched.
    Adds(LiveOrder),
    /// Gives the order another size, in shares.
    Sizes(LiveOrder, u32),
    /// Puts the second order in the place of the first.
    Replaces(LiveOrder, LiveOrder),
    /// Grants the officer's command.
    Commands(UserName, Command),
    /// Fills two orders.
    Fills(Fill),
    /// Puts the order of this number to rest.
    Rests(u64),
    /// Ends the order of this number, which may not rest.
    Expires(u64),
}
