//! Which orders were live when a Kill or a Close Day ended them.

ghost use Rattle.std.specs.Prelude.{◌≡◌, ◌++◌, OnOk};
ghost use Rattle.gx_endings.specs.Endings.{ends_of, order_ends_by};

use crate::endings::granted_action;
use gx_desk::Action;
use gx_history::record::RecordData;
use gx_records::{ShowsState, Watches};
use gx_slab::live::LiveOrders;
use gx_units::OutOfMemory;
use std::alloc::Global;

/// A live order that a granted Kill or Close Day ended.
#[derive(Clone, Copy, PartialEq, Eq)]
pub struct OrderEnd {
    /// The number of the order: that of the record that granted it.
    pub order: u64,
    /// The number of the Kill's or the Close Day's record.
    pub ended_by: u64,
}

/// Each order that was live when a granted Kill or Close Day ended it, in their order: whoever shows it the gate in front of
/// each record has all of them here.
#[derive(Drop)]
pub struct OrderEnds {
    /// One for each order that was ended.
    pub list: Vec<OrderEnd>,
}

/// Notes that the record of this number ends each of these orders.
fn note_each(
    list: &mut Vec<OrderEnd>,
    ended_by: u64,
    ended: LiveOrders<'_>,
) -> Result<(), OutOfMemory>
    ensures { OnOk result (list.new.items ≡ list.old.items ++ ends_of ended_by ended.entry) }
{
    for order in ended {
        list.push(OrderEnd {
            order: order.number,
            ended_by,
        })?;
    }
    Ok(())
}

/// Notes the orders that the record which comes next ends, if it is a granted Kill or Close Day.
fn note_ends<G: ShowsState>(
    list: &mut Vec<OrderEnd>,
    gate: &G,
    next: &RecordData,
) -> Result<(), OutOfMemory>
    ensures { OnOk result (list.new.items ≡ list.old.items
        ++ order_ends_by (G.state gate.now).policy (G.state gate.now).records next.now) }
{
    match granted_action(next) {
        Some(Action::Kill(account)) => note_each(list, next.number, gate.live_orders_of(account)),
        Some(Action::CloseDay) => note_each(list, next.number, gate.live_orders()),
        _ => Ok(()),
    }
}

impl OrderEnds {
    ghost use Rattle.gx_endings.specs.Endings.{order_ends};
    ghost use Rattle.gx_policy.specs.declared.policy.PolicyData.{PolicyData};
    ghost use Rattle.std.specs.Prelude.{[]};

    /// Before any record.
    pub fn new(alloc: Global) -> OrderEnds
        ensures none { (policy : PolicyData) → result.list.items ≡ order_ends policy [] }
    {
        OrderEnds {
            list: Vec::new(alloc),
        }
    }
}

impl<G: ShowsState> Watches<G> for OrderEnds {
    ghost use Rattle.gx_endings.specs.Endings.{order_ends};
    ghost use Rattle.std.specs.Prelude.{[], ◌∷◌, ◌++◌};

    ghost asked = { λ _. tt };

    ghost saw = { λ watcher policy records. watcher.list.items ≡ order_ends policy records };

    ghost expects = { λ watcher policy records next.
        watcher.list.items ≡ order_ends policy (records ++ next ∷ []) };

    #[tactic(auto, using(crate::proofs::Endings_next::more_ends))]
    fn before(&mut self, gate: &G, next: &RecordData) -> Result<(), OutOfMemory> {
        note_ends(&mut self.list, gate, next)
    }

    #[tactic(auto, using(crate::proofs::Endings_next::stands_behind))]
    fn after(&mut self, _gate: &G, _left: &RecordData) -> Result<(), OutOfMemory> {
        Ok(())
    }
}
