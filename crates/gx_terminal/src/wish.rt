//! What a line of a terminal asks for.

ghost use Rattle.std.specs.Prelude.{◌≡◌};
ghost use Rattle.gx_terminal.specs.Wishes.{command_wished, indicator_of, time_in_force_of, wished_order, wished_replace, order_of};

use crate::limits::TypedLimit;
use gx_desk::{Action, Command, Tag};
use gx_ouch::{CancelOrder, EnterOrder, Inbound, ReplaceOrder};
use gx_units::{Firm, RuleId, Symbol, Token};

/// Which way an order trades.
#[derive(Clone, Copy, PartialEq, Eq)]
pub enum Side {
    /// It buys.
    Buy,
    /// It sells.
    Sell,
}

impl Side {
    /// The Buy/Sell Indicator: `B` or `S`.
    fn indicator(self) -> u8
        ensures { result ≡ indicator_of self }
    {
        match self {
            Side::Buy => b'B',
            Side::Sell => b'S',
        }
    }
}

/// How long an order may wait for others.
#[derive(Clone, Copy, PartialEq, Eq)]
pub enum Lifetime {
    /// `day`: until the day is closed.
    Day,
    /// `ioc`: what is not executed at once is canceled.
    ImmediateOrCancel,
}

impl Lifetime {
    /// The Time in Force: 99999 or 0.
    fn time_in_force(self) -> u32
        ensures { result ≡ time_in_force_of self }
    {
        match self {
            Lifetime::Day => 99_999,
            Lifetime::ImmediateOrCancel => 0,
        }
    }
}

/// A new order, but for its token.
#[derive(Clone, Copy, PartialEq, Eq)]
pub struct NewOrder {
    /// Which way it trades.
    pub side: Side,
    /// How many shares it is for.
    pub shares: u32,
    /// The name of the stock.
    pub stock: Symbol,
    /// In ten-thousandths of a dollar.
    pub price: u32,
    /// How long it stands.
    pub lifetime: Lifetime,
}

/// New terms for an order, but for its new token.
#[derive(Clone, Copy, PartialEq, Eq)]
pub struct NewTerms {
    /// The token of the order in whose place the new one stands.
    pub token: Token,
    /// The new total of the whole chain, executed shares included.
    pub shares: u32,
    /// In ten-thousandths of a dollar.
    pub price: u32,
    /// How long the new order stands.
    pub lifetime: Lifetime,
}

/// What a line of a terminal asks for.
#[derive(Clone, Copy, PartialEq, Eq)]
pub enum Wish {
    /// A line without words, or a comment, whose first word begins with `#`.
    Nothing,
    /// A command of an officer: `kill ACCOUNT`, `lift ACCOUNT`, `restrict RULE STOCK`, `unrestrict RULE STOCK`,
    /// `grant READER ACCOUNT`, `revoke READER ACCOUNT` or `close --yes`.
    Ask(Action),
    /// `limit RULE VALUE`.
    Limit(RuleId, TypedLimit),
    /// `kill --all`: a Kill of each account.
    KillAll,
    /// `kill ACCOUNT ACCOUNT ..`: a Kill of each of these, which `accounts_named` tells.
    KillEach,
    /// `buy SHARES STOCK PRICE [day|ioc]` or `sell SHARES STOCK PRICE [day|ioc]`.
    Enter(NewOrder),
    /// `replace TOKEN SHARES PRICE [day|ioc]`.
    Replace(NewTerms),
    /// `cancel TOKEN [SHARES]`: the shares are the order's new total size, 0 where none are named.
    Cancel(CancelOrder),
    /// `watch`: what the gate sends is shown as it comes.
    Watch,
    /// `help`: the page of help is shown.
    Help,
    /// `quit`.
    Quit,
}

impl NewOrder {
    /// The order under this token, plain in all else.
    fn with_token(&self, token: Token) -> EnterOrder
        ensures { result ≡ wished_order token self.now }
    {
        EnterOrder {
            token,
            side: self.side.indicator(),
            shares: self.shares,
            stock: self.stock,
            price: self.price,
            time_in_force: self.lifetime.time_in_force(),
            firm: Firm { bytes: *b"    " },
            display: b'Y',
            capacity: b'A',
            intermarket_sweep: b'N',
            minimum_quantity: 0,
            cross_type: b'N',
            customer_type: b'N',
        }
    }
}

impl NewTerms {
    /// The order under this token, plain in all else.
    fn with_token(&self, token: Token) -> ReplaceOrder
        ensures { result ≡ wished_replace token self.now }
    {
        ReplaceOrder {
            existing_token: self.token,
            replacement_token: token,
            shares: self.shares,
            price: self.price,
            time_in_force: self.lifetime.time_in_force(),
            display: b'Y',
            intermarket_sweep: b'N',
            minimum_quantity: 0,
        }
    }
}

impl Wish {
    /// The command that is wished, under this tag; None where the wish is no single command.
    pub fn command(&self, tag: Tag) -> Option<Command>
        ensures { result ≡ command_wished tag self.now }
    {
        match self {
            Wish::Ask(action) => Some(Command {
                tag,
                action: *action,
            }),
            Wish::Limit(rule, limit) => Some(Command {
                tag,
                action: Action::SetLimit(*rule, limit.amount),
            }),
            _ => None,
        }
    }

    /// The message of a trader that is wished, a new order under this token: of a plain order, with a blank firm, displayed,
    /// by an agency. None where the wish is no such message.
    pub fn order(&self, token: Token) -> Option<Inbound>
        ensures { result ≡ order_of token self.now }
    {
        match self {
            Wish::Enter(order) => Some(Inbound::Enter(order.with_token(token))),
            Wish::Replace(terms) => Some(Inbound::Replace(terms.with_token(token))),
            Wish::Cancel(cancel) => Some(Inbound::Cancel(*cancel)),
            _ => None,
        }
    }
}
