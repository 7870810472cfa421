//! What each granted Kill and Close Day ended.

ghost use Rattle.std.specs.Prelude.{◌≡◌, ◌<◌, ◌^◌, length};
ghost use Rattle.gx_history.specs.Requests.{action_of, granted_action};
ghost use Rattle.gx_endings.specs.Endings.{ending_by, ending_of};

use crate::lists::put_last;
use gx_desk::Action;
use gx_history::record::{RecordData, Request, Step, Verdict};
use gx_records::{ShowsState, Watches};
use gx_slab::live::LiveOrders;
use gx_units::OutOfMemory;
use std::alloc::Global;

/// What a granted Kill or Close Day ended.
#[derive(Clone, Copy, PartialEq, Eq)]
pub struct Ending {
    /// The number of its record; the first of the day is 1.
    pub number: u64,
    /// How many live orders it ended.
    pub orders: u64,
    /// The shares that these had open.
    pub shares: u128,
}

/// What each granted Kill and Close Day ended, in their order: whoever shows it the gate in front of each record has all
/// of them here.
#[derive(Drop)]
pub struct Endings {
    /// One for each granted Kill and Close Day.
    pub list: Vec<Ending>,
}

/// What the record of this number ends, if these are the live orders that it ends.
fn ending_of(number: u64, live: LiveOrders<'_>) -> Ending
    requires few { length live < 2 ^ 63 }
    ensures { result ≡ ending_of number live.entry }
{
    let mut orders = 0;
    let mut shares = 0;
    for order in live {
        orders += 1;
        shares += u128::from(order.open());
    }
    Ending {
        number,
        orders,
        shares,
    }
}

fn action_of(request: &Request) -> Option<Action>
    ensures { result ≡ action_of request.now }
{
    match request {
        Request::Command(command) => Some(command.action),
        _ => None,
    }
}

/// The action that the record grants an officer, if it grants one.
pub(crate) fn granted_action(shown: &RecordData) -> Option<Action>
    ensures { result ≡ granted_action shown.now }
{
    match (&shown.verdict, &shown.step) {
        (Verdict::Granted, Step::Asked(asked)) => action_of(&asked.request),
        _ => None,
    }
}

/// What the record that comes next ends, if it is a granted Kill or Close Day.
#[tactic(auto, using(crate::proofs::LiveOrders_bounds::live_are_few, crate::proofs::LiveOrders_bounds::those_are_few))]
fn ending_by<G: ShowsState>(gate: &G, next: &RecordData) -> Option<Ending>
    ensures { result
        ≡ ending_by (G.state gate.now).policy (G.state gate.now).records next.now }
{
    // That the records are fewer than 2^63, and so the live orders.
    gate.length();
    match granted_action(next) {
        Some(Action::Kill(account)) => {
            Some(ending_of(next.number, gate.live_orders_of(account)))
        }
        Some(Action::CloseDay) => Some(ending_of(next.number, gate.live_orders())),
        _ => None,
    }
}

impl Endings {
    ghost use Rattle.gx_endings.specs.Endings.{endings};
    ghost use Rattle.gx_policy.specs.declared.policy.PolicyData.{PolicyData};
    ghost use Rattle.std.specs.Prelude.{[]};

    /// Before any record.
    pub fn new(alloc: Global) -> Endings
        ensures none { (policy : PolicyData) → result.list.items ≡ endings policy [] }
    {
        Endings {
            list: Vec::new(alloc),
        }
    }
}

impl<G: ShowsState> Watches<G> for Endings {
    ghost use Rattle.gx_endings.specs.Endings.{endings};
    ghost use Rattle.std.specs.Prelude.{[], ◌∷◌, ◌++◌};

    ghost asked = { λ _. tt };

    ghost saw = { λ watcher policy records. watcher.list.items ≡ endings policy records };

    ghost expects = { λ watcher policy records next.
        watcher.list.items ≡ endings policy (records ++ next ∷ []) };

    #[tactic(auto, using(crate::proofs::Endings_next::one_more_ending))]
    fn before(&mut self, gate: &G, next: &RecordData) -> Result<(), OutOfMemory> {
        put_last(&mut self.list, ending_by(gate, next))
    }

    #[tactic(auto, using(crate::proofs::Endings_next::stands_behind))]
    fn after(&mut self, _gate: &G, _left: &RecordData) -> Result<(), OutOfMemory> {
        Ok(())
    }
}
