//! The one-letter codes that the gate writes.

ghost use Rattle.std.specs.Prelude.{◌≡◌};
ghost use Rattle.gx_ouch.specs.Letters.{event_letter, liquidity_letter, cancel_letter, reject_letter};

/// The event of a System Event: its Event Code.
#[derive(Clone, Copy, PartialEq, Eq)]
pub enum EventCode {
    /// `E`: the day has ended.
    EndOfDay,
}

impl EventCode {
    /// The letter of the code.
    pub fn letter(self) -> u8
        ensures { result ≡ event_letter self }
    {
        match self {
            EventCode::EndOfDay => b'E',
        }
    }
}

/// Whether an execution took liquidity from the book or added it: the Liquidity Flag of Executed.
#[derive(Clone, Copy, PartialEq, Eq)]
pub enum Liquidity {
    /// `A`: the order rested, the maker.
    Added,
    /// `R`: the order came in, the taker.
    Removed,
}

impl Liquidity {
    /// The letter of the code.
    pub fn letter(self) -> u8
        ensures { result ≡ liquidity_letter self }
    {
        match self {
            Liquidity::Added => b'A',
            Liquidity::Removed => b'R',
        }
    }
}

/// Why shares were canceled: the Reason of Canceled.
#[derive(Clone, Copy, PartialEq, Eq)]
pub enum CancelReason {
    /// `U`: the user asked for it.
    UserRequested,
    /// `I`: an immediate-or-cancel order met nothing.
    ImmediateOrCancel,
    /// `S`: by supervision, a kill or the end of the day.
    Supervisory,
}

impl CancelReason {
    /// The letter of the code.
    pub fn letter(self) -> u8
        ensures { result ≡ cancel_letter self }
    {
        match self {
            CancelReason::UserRequested => b'U',
            CancelReason::ImmediateOrCancel => b'I',
            CancelReason::Supervisory => b'S',
        }
    }
}

/// Why an order was rejected: the Reason of Rejected.
#[derive(Clone, Copy, PartialEq, Eq)]
pub enum RejectReason {
    /// `C`: the day is closed.
    Closed,
    /// `a`: all orders of the account are rejected.
    RejectAll,
    /// `L`: the firm is not the account's.
    FirmNotAuthorized,
    /// `S`: the stock is not listed.
    InvalidStock,
    /// `Z`: no shares, or more than is safe.
    SharesExceedSafety,
    /// `X`: no order may have this price, or the price is off its collar.
    InvalidPrice,
    /// `D`: the display is none.
    InvalidDisplay,
    /// `N`: a minimum quantity is not taken.
    InvalidMinimumQuantity,
    /// `R`: crosses are not taken.
    NotAllowedInCross,
    /// `O`: another reason.
    Other,
    /// `H`: the stock is halted.
    Halted,
    /// `c`: the stock is restricted.
    RestrictedStock,
    /// `i`: short sales are not taken.
    ShortSale,
    /// `d`: intermarket sweeps are not taken.
    IntermarketSweep,
    /// `e`: odd lots are not taken.
    OddLot,
    /// `m`: more shares than the limit.
    SharesLimit,
    /// `n`: more dollars than the limit.
    DollarLimit,
}

impl RejectReason {
    /// The letter of the code.
    pub fn letter(self) -> u8
        ensures { result ≡ reject_letter self }
    {
        match self {
            RejectReason::Closed => b'C',
            RejectReason::RejectAll => b'a',
            RejectReason::FirmNotAuthorized => b'L',
            RejectReason::InvalidStock => b'S',
            RejectReason::SharesExceedSafety => b'Z',
            RejectReason::InvalidPrice => b'X',
            RejectReason::InvalidDisplay => b'D',
            RejectReason::InvalidMinimumQuantity => b'N',
            RejectReason::NotAllowedInCross => b'R',
            RejectReason::Other => b'O',
            RejectReason::Halted => b'H',
            RejectReason::RestrictedStock => b'c',
            RejectReason::ShortSale => b'i',
            RejectReason::IntermarketSweep => b'd',
            RejectReason::OddLot => b'e',
            RejectReason::SharesLimit => b'm',
            RejectReason::DollarLimit => b'n',
        }
    }
}
