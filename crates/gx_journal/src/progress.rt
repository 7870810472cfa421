//! How far a journal is kept, as those who wait for it see it.

ghost use Rattle.std.specs.Prelude.{◌≡◌, ◌↔◌, ◌<◌, ◌≤◌, false, true, max, IfErr, IfNone, IfOk, IfSome, IsTrue, OnErr, OnOk};
ghost use Rattle.gx_journal.specs.declared.progress.NotKept.TheVariants as unkept;

use crate::journal::KeptRecords;
use crate::name::JournalName;
use std::marker::Model;

/// How many records are kept, whether somebody writes more, and whether a write has failed.
#[derive(Drop)]
pub struct Progress<J: JournalName> {
    kept: KeptRecords<J>,
    writes: bool,
    broken: bool,
}

impl<J: JournalName> Model for Progress<J> {
    ghost use Rattle.gx_journal.specs.Progresses.{ProgressData};

    ghost Value = { ProgressData };

    ghost view = { λ p. record { kept = p.kept; writes = p.writes; broken = p.broken } };
}

/// Why somebody's records are not kept.
#[derive(Clone, Copy)]
pub enum NotKept {
    /// Nothing is written any more.
    Broken,
    /// It is his turn to write.
    Turn,
}

impl<J: JournalName> Progress<J> {
    /// So many records are kept, and nobody writes.
    pub fn new(kept: KeptRecords<J>) -> Progress<J>
        ensures kept { result.kept ≡ kept }
        ensures writes { result.writes ≡ false }
        ensures broken { result.broken ≡ false }
    {
        Progress {
            kept,
            writes: false,
            broken: false,
        }
    }

    /// Whether whoever asks for so many waits for somebody who writes.
    pub fn is_awaited(&self, count: u64) -> bool
        ensures { IsTrue result ↔ (self.now.writes ≡ true) × (self.now.kept < count) }
    {
        self.writes && self.kept.count() < count
    }

    /// What becomes of somebody who asks for so many and waits for nobody: they are kept, or nothing is written any more, or it
    /// is his turn, and only one at a time has it.
    pub fn take_turn(&mut self, count: u64) -> Result<KeptRecords<J>, NotKept>
        requires ready { self.old.writes ≡ true → count ≤ self.old.kept }
        ensures enough { IfOk result (λ k. (count ≤ k) × (k ≡ self.old.kept)) }
        ensures same { OnOk result (self.new ≡ self.old) }
        ensures lacks { OnErr result (self.old.kept < count) }
        ensures broken { IfErr result (λ e. e ≡ unkept.Broken
            → (self.old.broken ≡ true) × (self.new ≡ self.old)) }
        ensures turn { IfErr result (λ e. e ≡ unkept.Turn
            → (self.old.writes ≡ false) × (self.new.writes ≡ true) × (self.old.broken ≡ false)) }
        ensures kept { self.new.kept ≡ self.old.kept }
    {
        if count <= self.kept.count() {
            return Ok(self.kept.again());
        }
        if self.broken {
            return Err(NotKept::Broken);
        }
        self.writes = true;
        Err(NotKept::Turn)
    }

    /// Notes how somebody's turn ended.
    pub fn note(&mut self, kept: &Option<KeptRecords<J>>)
        ensures over { self.new.writes ≡ false }
        ensures kept { IfSome kept.now (λ k. self.new.kept ≡ max self.old.kept k) }
        ensures unbroken { IfSome kept.now (λ _. self.new.broken ≡ self.old.broken) }
        ensures stays { IfNone kept.now (self.new.kept ≡ self.old.kept) }
        ensures broken { IfNone kept.now (self.new.broken ≡ true) }
    {
        self.writes = false;
        match kept {
            Some(kept) => {
                if self.kept.count() < kept.count() {
                    self.kept = kept.again();
                }
            }
            None => self.broken = true,
        }
    }
}
