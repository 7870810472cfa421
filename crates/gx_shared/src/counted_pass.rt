//! A pass, and what was added with it.

ghost use Rattle.std.specs.Prelude.{◌≡◌, ◌≤◌, length};
ghost use Rattle.gx_pass.specs.Views.{with_told};
ghost use Rattle.gx_shared.specs.declared.priority_lock.Priority.TheVariants as priorities;

use crate::priority_lock::Priority;
use gx_pass::{GateName, Pass};
use std::marker::Model;
use std::sync::ledger::Share;

/// A pass, and one part of the ledger in which the gate's records are counted. Contracts see what the pass has met, how
/// many records were added with it, and how its holder waits for the gate.
#[derive(Drop)]
pub struct CountedPass<N: GateName> {
    pub(crate) pass: Pass<N>,
    pub(crate) rights: Rights<N>,
}

/// What the holder of a pass has beside it: a part of the ledger, and how he waits for the gate.
#[derive(Drop)]
pub(crate) struct Rights<N: GateName> {
    pub(crate) share: Share<N>,
    pub(crate) priority: Priority,
}

impl<N: GateName> Model for CountedPass<N> {
    ghost use Rattle.std.specs.Prelude.{◌≡◌};
    ghost use Rattle.gx_shared.specs.CountedPasses.{CountedPassData};

    ghost Value = { CountedPassData };

    ghost view = { λ t. record {
      held = t.pass;
      added = t.rights.share.amount;
      priority = t.rights.priority;
    } };

    ghost invariant = { λ t. t.rights.share.parts ≡ 1 };
}

impl<N: GateName> CountedPass<N> {
    /// A pass that was issued for this permit. Nothing was added with it. It is urgent until somebody logs in with it: what the
    /// server does for itself goes first.
    pub(crate) fn new(pass: Pass<N>, share: Share<N>) -> CountedPass<N>
        requires parts { share.parts ≡ 1 }
        requires amount { share.amount ≡ 0 }
        ensures held { result.held ≡ pass }
        ensures none_added { result.added ≡ 0 }
        ensures urgent { result.priority ≡ priorities.Urgent }
    {
        let priority = Priority::Urgent;
        CountedPass {
            pass,
            rights: Rights { share, priority },
        }
    }

    /// The number of the connection that holds it.
    pub fn line(&self) -> u16
        ensures { result ≡ self.now.held.line }
    {
        self.pass.line()
    }

    /// How long the history is, as [`Pass::length`] tells it.
    pub(crate) fn length(&mut self) -> u64
        ensures told { self.new.held ≡ with_told self.old.held result }
        ensures more { self.old.held.told ≤ result }
        ensures front { length self.old.held.front ≤ result }
        ensures adds_none { self.new.added ≡ self.old.added }
        ensures priority { self.new.priority ≡ self.old.priority }
    {
        self.pass.length()
    }
}
