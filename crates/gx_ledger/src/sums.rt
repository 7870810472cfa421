//! Running sums over orders and fills.

ghost use Rattle.std.specs.Prelude.{◌≡◌};
ghost use Rattle.gx_units.specs.Money.{value};
ghost use Rattle.gx_ledger.specs.Running.{changed_sums, counted_singly, with_done, with_live, without_live};

use crate::change::{Change, ChangeKind};
use gx_units::value_of;

/// What some accounts have open and executed: in shares, or in value in ten-thousandths of a dollar.
///
/// A sum that would pass 128 bits stops there: a day's orders and fills stay far below.
#[derive(Clone, Copy)]
pub struct Sums {
    /// Of the live orders, at their own prices.
    pub live: u128,
    /// Of the executions, at the prices of the fills.
    pub done: u128,
}

/// What some accounts have on one side of a stock, in shares.
#[derive(Clone, Copy)]
pub struct NetSums {
    /// Executed on the side, less those executed on the other.
    pub done: i128,
    /// Open on the side.
    pub live: u128,
}

impl Sums {
    /// Of no order and no fill.
    pub const NONE: Sums = Sums { live: 0, done: 0 };

    /// With so much more open.
    fn with_live(self, more: u128) -> Sums
        ensures { result ≡ with_live more self }
    {
        Sums {
            live: self.live.saturating_add(more),
            done: self.done,
        }
    }

    /// With so much less open.
    fn without_live(self, less: u128) -> Sums
        ensures { result ≡ without_live less self }
    {
        Sums {
            live: self.live.saturating_sub(less),
            done: self.done,
        }
    }

    /// With so much more executed.
    fn with_done(self, more: u128) -> Sums
        ensures { result ≡ with_done more self }
    {
        Sums {
            live: self.live,
            done: self.done.saturating_add(more),
        }
    }

    /// The shares, once an order of the accounts has changed.
    #[inline(always)]
    pub fn of_shares_after(self, change: &Change<'_>) -> Sums
        ensures { result ≡ changed_sums counted_singly change.now.order change.now.kind self }
    {
        match change.kind {
            ChangeKind::Accepted { .. } => self.with_live(u128::from(change.order.open())),
            ChangeKind::Left(shares) => self.without_live(u128::from(shares)),
            ChangeKind::Filled { shares, .. } => self
                .without_live(u128::from(shares))
                .with_done(u128::from(shares)),
        }
    }

    /// Their value, once an order of the accounts has changed.
    #[inline(always)]
    pub fn of_value_after(self, change: &Change<'_>) -> Sums
        ensures { result ≡ changed_sums value change.now.order change.now.kind self }
    {
        let own = change.order.terms.price;
        match change.kind {
            ChangeKind::Accepted { .. } => self.with_live(value_of(change.order.open(), own)),
            ChangeKind::Left(shares) => self.without_live(value_of(shares, own)),
            ChangeKind::Filled { shares, price } => self
                .without_live(value_of(shares, own))
                .with_done(value_of(shares, price)),
        }
    }
}
