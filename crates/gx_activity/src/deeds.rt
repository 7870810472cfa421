//! What a record tells of an account.

use gx_history::record::Request;

/// What a record tells of an account.
#[derive(Clone, Copy)]
pub enum Deed {
    /// The request of one of its users was granted.
    Granted(Request),
    /// It was denied.
    Denied(Request),
    /// An order of it had a side of a fill.
    Filled,
    /// An order of it came to rest.
    Rested,
    /// An immediate-or-cancel order of it ended.
    Expired,
}
