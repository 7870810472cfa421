//! What happens to orders.

use gx_history::live_order::LiveOrder;
use gx_units::Moment;
use std::marker::Model;

/// What becomes of one order.
#[derive(Drop)]
pub struct Change<'a> {
    /// Which order it is.
    pub order: &'a LiveOrder,
    /// What becomes of it.
    pub kind: ChangeKind,
}

impl<'a> Model for Change<'a> {
    ghost use Rattle.gx_ledger.specs.Changes.{Change as OrderChange};

    ghost Value = { OrderChange };

    ghost view = { λ change. record { order = change.order.now; kind = change.kind } };
}

/// What changes the running figures.
#[derive(Clone, Copy)]
pub enum ChangeKind {
    /// The order came: it was granted at the moment, to a Replace or to an Enter.
    Accepted { moment: Moment, replacement: bool },
    /// So many of its shares are open no more.
    Left(u32),
    /// So many of its open shares were executed, at the price of the fill.
    Filled { shares: u32, price: u32 },
}
