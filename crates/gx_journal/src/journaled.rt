//! A door whose records are kept.

ghost use Rattle.std.specs.Prelude.{◌≡◌, ◌≤◌, length, IfOk, IfSome};

use crate::journal::{Journal, KeptRecords};
use crate::name::JournalName;
use crate::progress::{NotKept, Progress};
use crate::room::JournalRoom;
use gx_access_gate::{LoginAnswer, Outcome, Pulled, StepFault};
use gx_audit_bytes::AuditVersion;
use gx_door::{Caller, Dial, Door, Matched, PullFault, Turned};
use gx_history::record::{Record, Request};
use gx_units::{Moment, OutOfMemory, Password, SessionName, UserName};
use std::io::Write;
use std::sync::{Condvar, Mutex, Wait};

/// A door over another one: what was done at it may be told once its records are in the journal.
///
/// The journal has a lock of its own, which nobody holds who holds that of the gate. How far it is kept lies under another,
/// which nobody holds while records are written: one at a time writes all that there is, and whoever comes meanwhile waits
/// for that write, and is answered at once where his records are done.
pub struct Journaled<'x, D: Door, W: Write, J: JournalName> {
    door: &'x D,
    journal: Mutex<Journal<D, W, J>>,
    progress: Mutex<Progress<J>>,
    moved: Condvar,
}

impl<'x, D: Door, W: Write, J: JournalName> Journaled<'x, D, W, J> {
    /// A door with a journal of this version, in this room, on this device, on which there are so many of the records that the pass
    /// has met, the day's first.
    pub fn new(
        room: JournalRoom,
        version: AuditVersion,
        door: &'x D,
        pass: D::Pass,
        count: u64,
        device: W,
    ) -> Journaled<'x, D, W, J>
        requires version { version ≡ J.version }
        requires begun { W.contents device ≡ J.begun }
        requires count { count ≡ J.count }
        requires met { (D.observed pass).front ≡ J.earlier }
        requires none_added { D.added pass ≡ 0 }
        requires within { count ≤ length J.earlier }
    {
        let journal = Journal::new(room, version, pass, count, device);
        let progress = Progress::new(journal.kept());
        Journaled {
            door,
            journal: Mutex::new(journal),
            progress: Mutex::new(progress),
            moved: Condvar::new(),
        }
    }

    /// The journal, which no thread shares any more.
    pub fn into_journal(self) -> Journal<D, W, J> {
        let Journaled {
            door: _,
            journal,
            progress: _,
            moved: _,
        } = self;
        journal.into_inner()
    }

    /// Waits while somebody writes, unless so many records are kept before he is through. Whose turn it is then writes.
    fn await_turn<R: Wait>(&self, rt: &R, count: u64) -> Result<KeptRecords<J>, NotKept>
        ensures { IfOk result (λ k. count ≤ k) }
    {
        let mut progress = self
            .moved
            .wait_while(rt, self.progress.lock(rt), |p| p.is_awaited(count));
        progress.take_turn(count)
    }

    /// That so many of the day's first records are on the journal's device; `None` where they are not and nothing is written any
    /// more, or where there are fewer.
    pub fn kept<R: Wait>(&self, rt: &R, count: u64) -> Option<KeptRecords<J>>
        ensures kept { IfSome result (λ k. count ≤ k) }
    {
        match self.await_turn(rt, count) {
            Ok(kept) => Some(kept),
            Err(NotKept::Broken) => None,
            Err(NotKept::Turn) => {
                let kept = self.write_in_turn(rt)?;
                if kept.count() < count {
                    return None;
                }
                Some(kept)
            }
        }
    }

    /// Writes all that there is, in one's turn, and tells those who wait how far it is kept now.
    fn write_in_turn<R: Wait>(&self, rt: &R) -> Option<KeptRecords<J>> {
        let kept = self.journal.lock(rt).keep(rt, self.door);
        self.progress.lock(rt).note(&kept);
        self.moved.notify_all();
        kept
    }
}

impl<D: Door, W: Write, J: JournalName> Door for Journaled<'_, D, W, J> {
    ghost use Rattle.std.specs.Prelude.{ℕ};

    type Pass = D::Pass;

    ghost policy = { D.policy };

    ghost observed = { D.observed };

    ghost added = { D.added };

    ghost Kept = { ℕ };

    ghost kept = { λ k. k };

    fn line_of(&self, pass: &D::Pass) -> u16 {
        self.door.line_of(pass)
    }

    fn caller<R: Wait>(&self, rt: &R, user: UserName, password: Password) -> Caller {
        self.door.caller(rt, user, password)
    }

    fn login<R: Wait + Dial>(
        &self,
        rt: &R,
        pass: D::Pass,
        user: UserName,
        password: Password,
        session: SessionName,
        wanted: u64,
        moment: Moment,
    ) -> (D::Pass, Result<LoginAnswer, StepFault>) {
        self.door
            .login(rt, pass, user, password, session, wanted, moment)
    }

    fn act<R: Wait + Dial>(
        &self,
        rt: &R,
        pass: D::Pass,
        user: UserName,
        request: Request,
        moment: Moment,
    ) -> (D::Pass, Result<Outcome, StepFault>) {
        self.door.act(rt, pass, user, request, moment)
    }

    fn match_one<R: Wait + Dial>(
        &self,
        rt: &R,
        pass: D::Pass,
        moment: Moment,
    ) -> (D::Pass, Result<Option<Outcome>, StepFault>) {
        self.door.match_one(rt, pass, moment)
    }

    fn match_some<R: Wait + Dial>(
        &self,
        rt: &R,
        pass: D::Pass,
        moment: Moment,
        most: u64,
    ) -> (D::Pass, Matched) {
        self.door.match_some(rt, pass, moment, most)
    }

    fn turn<R: Wait + Dial>(
        &self,
        rt: &R,
        pass: D::Pass,
        user: UserName,
        request: Request,
        moment: Moment,
        most: u64,
    ) -> (D::Pass, Result<Turned, StepFault>) {
        self.door.turn(rt, pass, user, request, moment, most)
    }

    fn pull<R: Wait>(
        &self,
        rt: &R,
        pass: D::Pass,
        user: UserName,
        from: u64,
        most: u64,
    ) -> (D::Pass, Result<Pulled, PullFault>) {
        self.door.pull(rt, pass, user, from, most)
    }

    fn logout<R: Wait + Dial>(
        &self,
        rt: &R,
        pass: D::Pass,
        user: UserName,
        moment: Moment,
    ) -> (D::Pass, Result<Outcome, StepFault>) {
        self.door.logout(rt, pass, user, moment)
    }

    fn meet<R: Wait>(&self, rt: &R, one: D::Pass, other: D::Pass) -> (D::Pass, D::Pass) {
        self.door.meet(rt, one, other)
    }

    fn length(&self, pass: &mut D::Pass) -> u64 {
        self.door.length(pass)
    }

    fn records<R: Wait>(
        &self,
        rt: &R,
        pass: D::Pass,
        from: u64,
        most: u64,
    ) -> (D::Pass, Result<Vec<Record>, OutOfMemory>) {
        self.door.records(rt, pass, from, most)
    }

    fn copy_records<R: Wait>(
        &self,
        rt: &R,
        pass: D::Pass,
        from: u64,
        most: u64,
        list: &mut Vec<Record>,
    ) -> D::Pass {
        self.door.copy_records(rt, pass, from, most, list)
    }

    fn keep<R: Wait>(&self, rt: &R, count: u64) -> bool {
        self.kept(rt, count).is_some()
    }

    fn keep_all<R: Wait>(&self, rt: &R) -> bool {
        match self.await_turn(rt, u64::MAX) {
            Ok(_) => true,
            Err(NotKept::Broken) => false,
            Err(NotKept::Turn) => self.write_in_turn(rt).is_some(),
        }
    }
}
