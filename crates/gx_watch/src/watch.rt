//! A journal that is followed.

ghost use Rattle.std.specs.Prelude.{◌≡◌, ◌+◌, ◌<◌, ◌≤◌, ◌^◌, ◌++◌, ◌∷◌, [], drop, Err, flat_map, IfErr, IfOk, IfSome, IsFalse, IsTrue, length, None, OnErr, OnOk, Some};
ghost use Rattle.gx_history.specs.Verdicts.{IsLegal};
ghost use Rattle.gx_events.specs.Lines.{closing_line, log_of};
ghost use Rattle.gx_audit.specs.Auditing.{IsAnswer};
ghost use Rattle.gx_follower.specs.Followers.{AreWhole};
ghost use Rattle.gx_warnings.specs.Warnings.{AreWarnings};
ghost use Rattle.gx_monitor.specs.Lines.{told_line};
ghost use Rattle.gx_watch.specs.Watching.{told_all};

use gx_audit::AuditFault;
use gx_follower::Follower;
use gx_monitor::Monitor;
use gx_policy::Policy;
use gx_records::{ShowsRecords, ShowsState};
use gx_text::Form;
use gx_units::OutOfMemory;
use std::alloc::Global;
use std::marker::Model;

/// A journal that is followed: a gate that has the records of all that is whole among the bytes that were read, and what is
/// told of them. Contracts see both, and the fault at which it stopped.
///
/// It is closed, and never dropped.
pub struct Watch<G: ShowsRecords + ShowsState> {
    follower: Follower<G>,
    monitor: Monitor,
    fault: Option<AuditFault>,
}

impl<G: ShowsRecords + ShowsState> Model for Watch<G> {
    ghost use Rattle.std.specs.Prelude.{◌≡◌, None};
    ghost use Rattle.gx_warnings.specs.Keeping.{warnings_of};
    ghost use Rattle.gx_watch.specs.Watching.{WatchData, IsFollowing};

    ghost Value = { WatchData };

    ghost view = { λ w. record {
      policy = w.follower.policy;
      read = w.follower.read;
      records = w.follower.records;
      whole = w.follower.whole;
      fault = w.fault;
      form = w.monitor.form;
      log = w.monitor.watched.first.log;
      lines = w.monitor.watched.first.text.items;
      shares = w.monitor.watched.second.shares.items;
      warnings = warnings_of w.monitor.watched.second;
      written = w.monitor.written;
      told = w.monitor.told;
    } };

    ghost invariant = { λ w. w.fault ≡ None → IsFollowing w.follower w.monitor };
}

impl<G: ShowsRecords + ShowsState> Watch<G> {
    /// In front of the first byte, with a gate under a copy of the policy. It will warn of these shares, in hundredths.
    ///
    /// # Errors
    ///
    /// `OutOfMemory` where memory was refused.
    pub fn open(
        alloc: Global,
        policy: &Policy,
        form: Form,
        shares: &[u8],
    ) -> Result<Watch<G>, OutOfMemory>
        ensures policy { IfOk result (λ w. w.policy ≡ policy.now) }
        ensures read { IfOk result (λ w. w.read ≡ []) }
        ensures records { IfOk result (λ w. w.records ≡ []) }
        ensures goes_on { IfOk result (λ w. w.fault ≡ None) }
        ensures shares { IfOk result (λ w. w.shares ≡ 0 ∷ shares.now) }
        ensures form { IfOk result (λ w. w.form ≡ form) }
        ensures log_form { IfOk result (λ w. w.log.form ≡ form) }
        ensures nothing_told { IfOk result (λ w. w.told ≡ 0) }
        ensures nothing_written { IfOk result (λ w. w.written ≡ 0) }
    {
        let monitor = Monitor::new(alloc, form, policy, shares)?;
        let follower = Follower::open(alloc, policy)?;
        Ok(Watch {
            follower,
            monitor,
            fault: None,
        })
    }

    /// Whether so many bytes more can be counted.
    pub fn has_room(&self, more: usize) -> bool
        ensures room { self.now.fault ≡ None → IsTrue result
            → length self.now.read + more < 2 ^ 64 }
        ensures full { self.now.fault ≡ None → IsFalse result
            → 2 ^ 64 ≤ length self.now.read + more }
    {
        self.follower.has_room(more)
    }

    /// Reads these bytes, behind those that were read, and makes the step of each record that they make whole.
    ///
    /// # Errors
    ///
    /// What the check of all the bytes that were read answers, or `OutOfMemory` where a growth was refused. It stops there,
    /// and answers the same to each later call.
    pub fn take(&mut self, bytes: &[u8]) -> Result<(), AuditFault>
        requires room { self.old.fault ≡ None
            → length self.old.read + length bytes.now < 2 ^ 64 }
        ensures policy { self.new.policy ≡ self.old.policy }
        ensures read { OnOk result (self.new.read ≡ self.old.read ++ bytes.now) }
        ensures whole { OnOk result
            (AreWhole self.new.policy self.new.read self.new.records self.new.whole) }
        ensures legal { OnOk result (IsLegal self.new.policy self.new.records) }
        ensures log { OnOk result
            (self.new.lines ≡ log_of self.new.log.form self.new.policy self.new.records) }
        ensures warnings { OnOk result (AreWarnings
            self.new.policy self.new.shares self.new.records self.new.warnings) }
        ensures shares { self.new.shares ≡ self.old.shares }
        ensures log_form { self.new.log.form ≡ self.old.log.form }
        ensures form { self.new.form ≡ self.old.form }
        ensures nothing_told { self.new.told ≡ self.old.told }
        ensures nothing_written { self.new.written ≡ self.old.written }
        ensures goes_on { OnOk result (self.new.fault ≡ None) }
        ensures fault { IfErr result (λ e. self.old.fault ≡ None
            → IsAnswer self.old.policy (self.old.read ++ bytes.now) (Err e)) }
        ensures stopped { IfErr result (λ e. self.new.fault ≡ Some e) }
        ensures again { IfSome self.old.fault (λ e. result ≡ Err e) }
    {
        if let Some(fault) = self.fault {
            return Err(fault);
        }
        match self.follower.take(bytes, &mut self.monitor.watched) {
            Ok(()) => Ok(()),
            Err(fault) => {
                self.fault = Some(fault);
                Err(fault)
            }
        }
    }

    /// What has come of the log and of the warnings since the last call: the lines of the log, and a line for each warning
    /// behind them.
    ///
    /// # Errors
    ///
    /// `OutOfMemory` where memory was refused; then all of it is told by the next call.
    pub fn tell(&mut self, alloc: Global) -> Result<Vec<u8>, OutOfMemory>
        ensures lines { IfOk result (λ text. text.items ≡ drop self.old.written self.old.lines
            ++ flat_map (told_line self.old.form self.old.policy)
            (drop self.old.told self.old.warnings)) }
        ensures next { OnOk result (self.new ≡ told_all self.old) }
        ensures refused { OnErr result (self.new ≡ self.old) }
    {
        self.monitor.tell(alloc, self.follower.gate().policy())
    }

    /// How many of the bytes that were read are whole: those of a header and of records.
    pub fn whole(&self) -> u64
        ensures count { result ≡ self.now.whole }
    {
        self.follower.whole()
    }

    /// The gate.
    pub fn gate(&self) -> &G
        ensures policy { (G.state result.now).policy ≡ self.now.policy }
        ensures records { (G.state result.now).records ≡ self.now.records }
    {
        self.follower.gate()
    }

    /// Lets the gate go: what is left to be told where the day's records end.
    ///
    /// # Errors
    ///
    /// `OutOfMemory` where memory was refused.
    pub fn close(self, alloc: Global) -> Result<Vec<u8>, OutOfMemory>
        ensures { IfOk result
            (λ text. text.items ≡ closing_line self.log.form self.log.known) }
    {
        let Watch {
            follower,
            monitor,
            fault: _,
        } = self;
        follower.close();
        monitor.close(alloc)
    }
}
