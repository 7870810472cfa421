//! A gate that follows an audit.

ghost use Rattle.std.specs.Prelude.{◌≡◌, ◌+◌, ◌<◌, ◌≤◌, ◌^◌, ◌++◌, [], Err, Some, None, length, IfErr, IfOk, IfSome, IsFalse, IsTrue, OnOk};
ghost use Rattle.gx_history.specs.Verdicts.{IsLegal};
ghost use Rattle.gx_audit.specs.{Auditing.IsAnswer, Replaying.IsReplayFault, Resuming.Stands};
ghost use Rattle.gx_audit_bytes.specs.Versions.{version_of};
ghost use Rattle.gx_follower.specs.{Followers.AreWhole, Readings.{read_of, IsSettled}};

use crate::piece::{Reading, Rest, kept_of, take_all};
use gx_access_gate::AccessGate;
use gx_audit::{AuditFault, Resumed};
use gx_audit_bytes::AuditVersion;
use gx_policy::Policy;
use gx_records::Watches;
use gx_units::OutOfMemory;
use std::alloc::Global;
use std::marker::Model;

/// A gate with the records of an audit whose bytes come one piece after the other, as those of a journal do while a server
/// writes it. Contracts see the policy, the bytes that were read, the gate's records, how many of the bytes are whole, and the
/// fault at which it stopped.
///
/// The records are those of all that is whole among the bytes, in the version that these show; of a last record that is cut off
/// its bytes are kept. So it is until a fault is found: then the follower stops, and reads no further.
///
/// It is closed, and never dropped.
pub struct Follower<G: AccessGate> {
    gate: G,
    reading: Reading,
    fault: Option<AuditFault>,
}

impl<G: AccessGate> Model for Follower<G> {
    ghost use Rattle.std.specs.Prelude.{◌≡◌, None};
    ghost use Rattle.gx_follower.specs.{Followers.FollowerData, Readings.{read_of, IsSettled}};

    ghost Value = { FollowerData };

    ghost view = { λ f. record {
      policy = (G.state f.gate).policy;
      read = read_of f.reading (G.state f.gate);
      records = (G.state f.gate).records;
      whole = f.reading.whole;
      fault = f.fault;
    } };

    ghost invariant = { λ f. f.fault ≡ None → IsSettled f.reading (G.state f.gate) };
}

impl<G: AccessGate> Follower<G> {
    /// A follower that has read nothing, with a gate under a copy of the policy.
    ///
    /// # Errors
    ///
    /// `OutOfMemory` where memory was refused.
    pub fn open(alloc: Global, policy: &Policy) -> Result<Follower<G>, OutOfMemory>
        ensures policy { IfOk result (λ f. f.policy ≡ policy.now) }
        ensures read { IfOk result (λ f. f.read ≡ []) }
        ensures records { IfOk result (λ f. f.records ≡ []) }
        ensures goes_on { IfOk result (λ f. f.fault ≡ None) }
    {
        let gate = G::open(alloc, policy)?;
        Ok(Follower {
            gate,
            reading: Reading {
                version: None,
                whole: 0,
                rest: Rest::new(),
            },
            fault: None,
        })
    }

    /// Whether so many bytes more can be counted: 2^64 - 1 in all.
    pub fn has_room(&self, more: usize) -> bool
        ensures room { self.now.fault ≡ None → IsTrue result
            → length self.now.read + more < 2 ^ 64 }
        ensures full { self.now.fault ≡ None → IsFalse result
            → 2 ^ 64 ≤ length self.now.read + more }
    {
        let read = self
            .reading
            .whole
            .checked_add(self.reading.rest.len() as u64);
        match read {
            Some(read) => read.checked_add(more as u64).is_some(),
            None => false,
        }
    }

    /// Reads these bytes, behind those that were read, and makes the step of each record that they make whole. The watcher
    /// looks on at each.
    ///
    /// # Errors
    ///
    /// What the check of all the bytes that were read answers: `BadRecord`, `IllegalVerdict` or `OtherPolicy`; or
    /// `OutOfMemory` where a growth was refused. The follower stops there, and answers the same to each later call.
    pub fn take<W: Watches<G>>(&mut self, bytes: &[u8], watcher: &mut W) -> Result<(), AuditFault>
        requires room { self.old.fault ≡ None
            → length self.old.read + length bytes.now < 2 ^ 64 }
        requires saw { W.saw watcher.old self.old.policy self.old.records }
        ensures policy { self.new.policy ≡ self.old.policy }
        ensures read { OnOk result (self.new.read ≡ self.old.read ++ bytes.now) }
        ensures whole { OnOk result
            (AreWhole self.new.policy self.new.read self.new.records self.new.whole) }
        ensures legal { OnOk result (IsLegal self.new.policy self.new.records) }
        ensures saw { OnOk result (W.saw watcher.new self.new.policy self.new.records) }
        ensures asked { W.asked watcher.new ≡ W.asked watcher.old }
        ensures goes_on { OnOk result (self.new.fault ≡ None) }
        ensures fault { IfErr result (λ e. self.old.fault ≡ None
            → IsAnswer self.old.policy (self.old.read ++ bytes.now) (Err e)) }
        ensures stopped { IfErr result (λ e. self.new.fault ≡ Some e) }
        ensures again { IfSome self.old.fault (λ e. result ≡ Err e) }
    {
        if let Some(fault) = self.fault {
            return Err(fault);
        }
        match take_all(&mut self.gate, watcher, &mut self.reading, bytes) {
            Ok(()) => {
                // that its records are those of a legal day
                self.gate.is_legal();
                Ok(())
            }
            Err(fault) => {
                self.fault = Some(fault);
                Err(fault)
            }
        }
    }

    /// How many of the bytes that were read are whole: those of a header and of records. While the follower goes on, the
    /// gate's records are theirs, and of a legal day.
    pub fn whole(&self) -> u64
        ensures count { result ≡ self.now.whole }
        ensures whole { self.now.fault ≡ None
            → AreWhole self.now.policy self.now.read self.now.records self.now.whole }
        ensures legal { IsLegal self.now.policy self.now.records }
    {
        self.gate.is_legal();
        self.reading.whole
    }

    /// The version of the audit; `None` while fewer bytes were read than a header or a record has.
    pub fn version(&self) -> Option<AuditVersion>
        ensures shown { self.now.fault ≡ None
            → IfSome result (λ version. version_of self.now.read ≡ version) }
        ensures few { self.now.fault ≡ None → result ≡ None → length self.now.read < 128 }
    {
        self.reading.version
    }

    /// The gate.
    pub fn gate(&self) -> &G
        ensures policy { (G.state result.now).policy ≡ self.now.policy }
        ensures records { (G.state result.now).records ≡ self.now.records }
    {
        &self.gate
    }

    /// The day that a file of these bytes holds, which goes on with its last whole record: what
    /// [`resume`](gx_audit::resume) answers, and nothing is read again.
    ///
    /// # Errors
    ///
    /// `Truncated` where the bytes are too few for a header, and no front of the policy's. `OtherPolicy` where they begin with
    /// none. A follower that stopped answers its fault.
    pub fn into_resumed(self) -> Result<Resumed<G>, AuditFault>
        ensures policy { IfOk result (λ r. (G.state r.gate).policy ≡ self.policy) }
        ensures records { IfOk result (λ r. (G.state r.gate).records ≡ self.records) }
        ensures legal { IfOk result (λ r. IsLegal self.policy (G.state r.gate).records) }
        ensures stands { IfOk result
            (λ r. Stands self.policy self.read (G.state r.gate).records r.kept) }
        ensures fault { IfErr result (λ e. self.fault ≡ None
            → IsReplayFault self.policy self.read e) }
        ensures again { IfSome self.fault (λ e. result ≡ Err e) }
    {
        let Follower {
            gate,
            reading,
            fault,
        } = self;
        match fault {
            None => resumed(gate, &reading),
            Some(fault) => {
                gate.close();
                Err(fault)
            }
        }
    }

    /// Lets the gate go.
    pub fn close(self) {
        let Follower {
            gate,
            reading: _,
            fault: _,
        } = self;
        gate.close();
    }
}

/// The day that goes on.
fn resumed<G: AccessGate>(gate: G, reading: &Reading) -> Result<Resumed<G>, AuditFault>
    requires settled { IsSettled reading.now (G.state gate) }
    ensures seen { IfOk result (λ r. G.state r.gate ≡ G.state gate) }
    ensures legal { IsLegal (G.state gate).policy (G.state gate).records }
    ensures stands { IfOk result (λ r. Stands (G.state gate).policy
        (read_of reading.now (G.state gate)) (G.state gate).records r.kept) }
    ensures fault { IfErr result (λ e. IsReplayFault (G.state gate).policy
        (read_of reading.now (G.state gate)) e) }
{
    gate.is_legal();
    match kept_of(&gate, reading) {
        Ok(kept) => Ok(Resumed { gate, kept }),
        Err(fault) => {
            gate.close();
            Err(fault)
        }
    }
}
