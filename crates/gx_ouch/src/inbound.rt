//! Messages from a trader. Fields of one byte hold any byte.

ghost use Rattle.std.specs.Prelude.{◌≡◌};
ghost use Rattle.gx_ouch.specs.Terms.{entered_terms};

use crate::outbound::OrderTerms;
use gx_units::{Firm, Symbol, Token};

/// A new order: Enter Order, `O`.
#[derive(Clone, Copy, PartialEq, Eq)]
pub struct EnterOrder {
    /// The name of the order: any bytes, compared as bytes, each user's by themselves (Order Token).
    pub token: Token,
    /// The side: `B` buys; `S`, `T` and `E` sell (Buy/Sell Indicator).
    pub side: u8,
    /// Shares.
    pub shares: u32,
    /// Stock.
    pub stock: Symbol,
    /// The price of a share, in ten-thousandths of a dollar (Price).
    pub price: u32,
    /// How long it lives: 0 is immediate-or-cancel; 99998 and 99999 rest until the day is closed (Time in Force).
    pub time_in_force: u32,
    /// The firm of the account, or blank, which stands for it (Firm).
    pub firm: Firm,
    /// How it is shown: `A` or `Y` (Display).
    pub display: u8,
    /// The capacity in which it is entered, any byte (Capacity).
    pub capacity: u8,
    /// `Y` asks for a sweep, no other byte does (Intermarket Sweep Eligibility).
    pub intermarket_sweep: u8,
    /// 0, since no minimum is taken (Minimum Quantity).
    pub minimum_quantity: u32,
    /// `N`, since no cross is taken (Cross Type).
    pub cross_type: u8,
    /// The sort of customer, any byte (Customer Type).
    pub customer_type: u8,
}

impl EnterOrder {
    /// The terms that it asks for, for an account of this firm.
    #[inline(always)]
    pub fn terms(&self, firm: Firm) -> OrderTerms
        ensures { result ≡ entered_terms self.now firm }
    {
        OrderTerms {
            side: self.side,
            shares: self.shares,
            stock: self.stock,
            price: self.price,
            time_in_force: self.time_in_force,
            firm,
            display: self.display,
            capacity: self.capacity,
            intermarket_sweep: self.intermarket_sweep,
            minimum_quantity: self.minimum_quantity,
            cross_type: self.cross_type,
        }
    }
}

/// An order in place of an earlier one: Replace Order, `U`.
#[derive(Clone, Copy, PartialEq, Eq)]
pub struct ReplaceOrder {
    /// The token of the live order (Existing Order Token).
    pub existing_token: Token,
    /// A token that the user has not used (Replacement Order Token).
    pub replacement_token: Token,
    /// The size of the whole chain of orders, what is executed of it included (Shares).
    pub shares: u32,
    /// The price of a share, in ten-thousandths of a dollar (Price).
    pub price: u32,
    /// As of an Enter Order (Time in Force).
    pub time_in_force: u32,
    /// As of an Enter Order (Display).
    pub display: u8,
    /// As of an Enter Order (Intermarket Sweep Eligibility).
    pub intermarket_sweep: u8,
    /// As of an Enter Order (Minimum Quantity).
    pub minimum_quantity: u32,
}

/// A new total size for an order: Cancel Order, `X`.
#[derive(Clone, Copy, PartialEq, Eq)]
pub struct CancelOrder {
    /// The token of the order (Order Token).
    pub token: Token,
    /// The new size of the order in all, what is executed of it included (Shares).
    pub shares: u32,
}

/// A message from a trader.
#[derive(Clone, Copy, PartialEq, Eq)]
pub enum Inbound {
    /// Enter Order, `O`, 49 bytes.
    Enter(EnterOrder),
    /// Replace Order, `U`, 47 bytes.
    Replace(ReplaceOrder),
    /// Cancel Order, `X`, 19 bytes.
    Cancel(CancelOrder),
}
