//! Messages to a trader.

use crate::letters::{CancelReason, EventCode, Liquidity, RejectReason};
use gx_units::{Firm, Symbol, Token};

/// The room that every message to a trader, an officer or a reader fits in, in bytes.
pub const MESSAGE_ROOM: usize = 80;

/// The terms of an order as a message shows them.
#[derive(Clone, Copy, PartialEq, Eq)]
pub struct OrderTerms {
    /// Buy/Sell Indicator.
    pub side: u8,
    /// Shares.
    pub shares: u32,
    /// Stock.
    pub stock: Symbol,
    /// The price of a share, in ten-thousandths of a dollar (Price).
    pub price: u32,
    /// Time in Force.
    pub time_in_force: u32,
    /// The firm of the account (Firm).
    pub firm: Firm,
    /// Display.
    pub display: u8,
    /// Capacity.
    pub capacity: u8,
    /// Intermarket Sweep Eligibility.
    pub intermarket_sweep: u8,
    /// Minimum Quantity.
    pub minimum_quantity: u32,
    /// Cross Type.
    pub cross_type: u8,
}

/// An order is taken: Accepted, `A`.
#[derive(Clone, Copy, PartialEq, Eq)]
pub struct Accepted {
    /// Order Token.
    pub token: Token,
    /// The order's own terms.
    pub terms: OrderTerms,
    /// The number of the record that granted the order (Order Reference Number).
    pub order_reference: u64,
}

/// An order stands in place of an earlier one: Replaced, `U`.
#[derive(Clone, Copy, PartialEq, Eq)]
pub struct Replaced {
    /// The new order's token (Replacement Order Token).
    pub token: Token,
    /// The new order's terms, its Shares those that are open right after it.
    pub terms: OrderTerms,
    /// The number of the record that granted the order (Order Reference Number).
    pub order_reference: u64,
    /// The token of the order that was replaced (Previous Order Token).
    pub previous_token: Token,
}

/// An order has lost shares: Canceled, `C`.
#[derive(Clone, Copy, PartialEq, Eq)]
pub struct Canceled {
    /// Order Token.
    pub token: Token,
    /// By how many shares what is open has become less; at `I` and `S` by all that was open (Decrement Shares).
    pub decrement: u32,
    /// Reason.
    pub reason: CancelReason,
}

/// Shares of an order were executed: Executed, `E`.
#[derive(Clone, Copy, PartialEq, Eq)]
pub struct Executed {
    /// Order Token.
    pub token: Token,
    /// Executed Shares.
    pub shares: u32,
    /// The price of the order that rested, in ten-thousandths of a dollar (Execution Price).
    pub price: u32,
    /// Liquidity Flag.
    pub liquidity: Liquidity,
    /// The number of the fill's record, the same for both orders (Match Number).
    pub match_number: u64,
}

/// An order is not taken: Rejected, `J`.
#[derive(Clone, Copy, PartialEq, Eq)]
pub struct Rejected {
    /// Order Token.
    pub token: Token,
    /// The letter of the rule that denies the order (Reason).
    pub reason: RejectReason,
}

/// A message to a trader, but for its timestamp.
#[derive(Clone, Copy, PartialEq, Eq)]
pub enum Outbound {
    /// System Event, `S`, 10 bytes.
    SystemEvent(EventCode),
    /// Accepted, `A`, 66 bytes.
    Accepted(Accepted),
    /// Replaced, `U`, 80 bytes.
    Replaced(Replaced),
    /// Canceled, `C`, 28 bytes.
    Canceled(Canceled),
    /// Executed, `E`, 40 bytes.
    Executed(Executed),
    /// Rejected, `J`, 24 bytes.
    Rejected(Rejected),
}
