//! A fill, with all that its reports need.

ghost use Rattle.std.specs.Prelude.{◌≡◌, ◌≤◌, length};
ghost use Rattle.gx_history.specs.Masks.{has_account};
ghost use Rattle.gx_streams.specs.Fills.{fill_copies, copy_report, executed_of_fill, executed_report, liquidity_of, fill_side};

use gx_desk::DropCopy;
use gx_history::report::{Message, Report};
use gx_ouch::{Executed, Liquidity, Outbound};
use gx_units::{AccountName, Moment, Token, UserName};

/// One side of a fill.
#[derive(Clone, Copy)]
pub struct FillSide {
    /// Whose order it is.
    pub user: UserName,
    /// The token of his order.
    pub token: Token,
    /// The account that he trades for.
    pub account: AccountName,
    /// The account's place in the policy's file, from 0.
    pub account_place: usize,
    /// Buy/Sell Indicator.
    pub side: u8,
}

/// Two orders met.
#[derive(Clone, Copy)]
pub struct ReportedFill {
    /// The number of its record.
    pub match_number: u64,
    /// The moment of its record.
    pub moment: Moment,
    /// How many shares were executed.
    pub shares: u32,
    /// In ten-thousandths of a dollar.
    pub price: u32,
    /// The order that came in.
    pub taker: FillSide,
    /// The order that rested.
    pub maker: FillSide,
}

/// Whose side of a fill.
#[derive(Clone, Copy)]
pub enum FillRole {
    /// That of the order that came in.
    Taker,
    /// That of the order that rested.
    Maker,
}

/// Whether the mask has the account at this place of the file's order.
fn has_account(mask: u64, place: usize) -> bool
    ensures { result ≡ has_account mask place }
{
    place < 64 && (mask >> place) % 2 == 1
}

impl FillRole {
    fn liquidity(self) -> Liquidity
        ensures { result ≡ liquidity_of self }
    {
        match self {
            FillRole::Taker => Liquidity::Removed,
            FillRole::Maker => Liquidity::Added,
        }
    }
}

impl ReportedFill {
    fn side(&self, party: FillRole) -> &FillSide
        ensures { result.now ≡ fill_side self.now party }
    {
        match party {
            FillRole::Taker => &self.taker,
            FillRole::Maker => &self.maker,
        }
    }

    fn executed(&self, party: FillRole) -> Executed
        ensures { result ≡ executed_of_fill self.now party }
    {
        Executed {
            token: self.side(party).token,
            shares: self.shares,
            price: self.price,
            liquidity: party.liquidity(),
            match_number: self.match_number,
        }
    }

    /// What the user of the party's order is told.
    pub(crate) fn report(&self, party: FillRole) -> Report
        ensures { result ≡ executed_report self.now party }
    {
        Report {
            timestamp: self.moment,
            message: Message::Order(Outbound::Executed(self.executed(party))),
        }
    }

    /// What a reader of the party's account is told.
    pub(crate) fn copy(&self, party: FillRole) -> Report
        ensures { result ≡ copy_report self.now party }
    {
        let side = self.side(party);
        Report {
            timestamp: self.moment,
            message: Message::DropCopy(DropCopy {
                executed: self.executed(party),
                account: side.account,
                side: side.side,
            }),
        }
    }

    /// Whether a reader with this mask is told of the party's side.
    pub(crate) fn concerns(&self, mask: u64, party: FillRole) -> bool
        ensures { result ≡ has_account mask (fill_side self.now party).account_place }
    {
        has_account(mask, self.side(party).account_place)
    }

    /// How many drop copies a reader with this mask is sent.
    pub(crate) fn count(&self, mask: u64) -> usize
        ensures count { result ≡ length (fill_copies mask self.now) }
        ensures few { result ≤ 2 }
    {
        let taker = if self.concerns(mask, FillRole::Taker) {
            1
        } else {
            0
        };
        let maker = if self.concerns(mask, FillRole::Maker) {
            1
        } else {
            0
        };
        taker + maker
    }
}
