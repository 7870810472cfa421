//! The running figures of accounts that count together.

ghost use Rattle.std.specs.{Prelude.{◌≡◌, IfOk, IsTrue}};
ghost use Rattle.gx_policy.specs.Soundness.{stocks_differ};
ghost use Rattle.gx_ledger.specs.{Running.{changed_group, entered_as, noted_enters, noted_moments}, Tallies.new_group};

use crate::change::{Change, ChangeKind};
use crate::enters::Enters;
use crate::figure_kind::FigureKind;
use crate::moments::Moments;
use crate::sides::Sides;
use crate::sums::Sums;
use gx_history::live_order::LiveOrder;
use gx_policy::Stock;
use gx_units::{OutOfMemory, Symbol};
use std::alloc::Global;

/// What like Enters have in common.
#[derive(Clone, Copy)]
pub struct RepeatKey {
    /// Buy/Sell Indicator.
    pub side: u8,
    /// How many shares it asked for.
    pub shares: u32,
    /// The name of the stock.
    pub stock: Symbol,
    /// In ten-thousandths of a dollar.
    pub price: u32,
}

/// The figures of accounts that count together for a rule: those that it asks for.
#[derive(Drop)]
pub enum Group {
    /// Open and executed shares.
    Shares(Sums),
    /// Their value.
    Value(Sums),
    /// The shares on each side of each stock.
    Sides(Sides),
    /// The recent orders of a rate.
    Recent {
        /// How far the rate looks back, in nanoseconds.
        window: u64,
        /// The moments of the last granted Enters and Replaces, as many as its limit.
        moments: Moments,
    },
    /// The last granted Enters, as many as the span of a repeat.
    Enters(Enters),
    /// None.
    Nothing,
}

fn entered_as(order: &LiveOrder) -> RepeatKey
    ensures { result ≡ entered_as order.now }
{
    RepeatKey {
        side: order.terms.side,
        shares: order.terms.shares,
        stock: order.terms.stock,
        price: order.terms.price,
    }
}

/// Takes note of the moment of an order that comes.
#[inline(always)]
fn note_moment(moments: &mut Moments, change: &Change<'_>)
    ensures { moments.new ≡ noted_moments change.now.kind moments.old }
{
    if let ChangeKind::Accepted { moment, .. } = change.kind {
        moments.push(moment);
    }
}

/// Takes note of an Enter that comes.
#[inline(always)]
fn note_enter(enters: &mut Enters, change: &Change<'_>)
    ensures { enters.new ≡ noted_enters change.now.order change.now.kind enters.old }
{
    match change.kind {
        ChangeKind::Accepted {
            replacement: false,
            ..
        } => enters.push(entered_as(change.order)),
        _ => {}
    }
}

impl Group {
    /// A group before any order, with room for what the rule asks for and with sums for these stocks.
    ///
    /// # Errors
    ///
    /// `OutOfMemory` where memory was refused.
    pub fn new(alloc: Global, asks: FigureKind, stocks: &[Stock]) -> Result<Group, OutOfMemory>
        requires { IsTrue (stocks_differ stocks.now) }
        ensures { IfOk result (λ group. group ≡ new_group asks stocks.now) }
    {
        match asks {
            FigureKind::Nothing | FigureKind::Reference => Ok(Group::Nothing),
            FigureKind::Shares => Ok(Group::Shares(Sums::NONE)),
            FigureKind::Value => Ok(Group::Value(Sums::NONE)),
            FigureKind::Sides => Ok(Group::Sides(Sides::of(alloc, stocks)?)),
            FigureKind::Recent(rate) => {
                let moments = Moments::with_room(alloc, rate.limit as usize)?;
                Ok(Group::Recent {
                    window: rate.window,
                    moments,
                })
            }
            FigureKind::Alike(repeat) => {
                let enters = Enters::with_room(alloc, repeat.span as usize)?;
                Ok(Group::Enters(enters))
            }
        }
    }

    /// Takes note of a change of an order of its accounts, whose stock is looked for at this place first.
    #[inline(always)]
    pub fn note(&mut self, change: &Change<'_>, near: usize)
        ensures { self.new ≡ changed_group change.now self.old }
    {
        match self {
            Group::Shares(sums) => *sums = sums.of_shares_after(change),
            Group::Value(sums) => *sums = sums.of_value_after(change),
            Group::Sides(sides) => sides.note(change, near),
            Group::Recent { moments, .. } => note_moment(moments, change),
            Group::Enters(enters) => note_enter(enters, change),
            Group::Nothing => {}
        }
    }
}
