//! Prices, shares, values and moments.

ghost use Rattle.std.specs.Prelude.{◌≡◌, Some, None, if◌then◌else◌};
ghost use Rattle.gx_units.specs.Money.{is_bad_price, value};

use std::marker::Model;

/// A number of shares.
pub type Shares = u32;

/// A sum of money, in ten-thousandths of a dollar.
pub type Value = u128;

/// Nanoseconds past midnight.
pub type Moment = u64;

/// The greatest price that an order may have: $199,999.99.
const GREATEST_PRICE: u32 = 1_999_999_900;

/// From one dollar on, a price is a whole number of cents.
const ONE_DOLLAR: u32 = 10_000;

const ONE_CENT: u32 = 100;

/// A price that an order may have, in ten-thousandths of a dollar (an OUCH price has four implied decimals).
#[derive(Clone, Copy, PartialEq, Eq)]
pub struct Price {
    amount: u32,
}

impl Model for Price {
    ghost use Rattle.gx_units.specs.Money.{is_bad_price};
    ghost use Rattle.std.specs.Prelude.{ℕ, IsFalse};

    ghost Value = { ℕ };

    ghost view = { λ price. price.amount };

    ghost invariant = { λ price. IsFalse (is_bad_price price.amount) };

    ghost inverse = { λ amount. record { amount = amount } };
}

impl Price {
    /// The price of this amount. None where no order may have it: 0, above $199,999.99, or, from one dollar on,
    /// no whole number of cents.
    pub fn checked(amount: u32) -> Option<Price>
        ensures { result ≡ (if is_bad_price amount then None else Some amount) }
    {
        if amount == 0
            || amount > GREATEST_PRICE
            || (amount >= ONE_DOLLAR && amount % ONE_CENT != 0)
        {
            return None;
        }
        Some(Price { amount })
    }
}

/// What this many shares are worth at this price.
pub fn value_of(shares: Shares, price: u32) -> Value
    ensures { result ≡ value shares price }
{
    u128::from(shares) * u128::from(price)
}
