//! A journal of a day.

ghost use Rattle.std.specs.Prelude.{◌≡◌, ◌<◌, ◌≤◌, length, vec_capacity, IfNone, IfSome, IsFalse, IsTrue, None};
ghost use mathlib.Core.List.{IsPrefix};
ghost use Rattle.gx_pass.specs.Views.{with_told};
ghost use Rattle.gx_journal.specs.Journals.{is_broken, known_length, most_at_once, IsJournalKept};

use crate::name::JournalName;
use crate::room::{JournalRoom, PIECE};
use crate::writer::JournalWriter;
use gx_audit_bytes::AuditVersion;
use gx_door::Door;
use gx_history::record::Record;
use std::io::Write;
use std::marker::{Model, PhantomData};
use std::sync::Wait;

/// That so many of the day's first records are on a journal's device. A [`Journal`] alone makes one, and no call of it takes
/// a record away that was done.
#[derive(Drop)]
pub struct KeptRecords<J: JournalName> {
    count: u64,
    of: PhantomData<J>,
}

impl<J: JournalName> Model for KeptRecords<J> {
    ghost use Rattle.std.specs.Prelude.{ℕ};

    ghost Value = { ℕ };

    ghost view = { λ k. k.count };
}

impl<J: JournalName> KeptRecords<J> {
    /// How many they are.
    pub fn count(&self) -> u64
        ensures { result ≡ self.now }
    {
        self.count
    }

    /// The same once more, for another who waited.
    pub fn again(&self) -> KeptRecords<J>
        ensures { result ≡ self.now }
    {
        KeptRecords {
            count: self.count,
            of: PhantomData,
        }
    }
}

/// Writes the records of a day behind those that were on its device at first, each once and in order. Contracts see
/// what its pass has met, what the device holds, how many records are on it, and why no more are put there.
pub struct Journal<D: Door, W: Write, J: JournalName> {
    /// Taken out for each call of the door.
    pass: Option<D::Pass>,
    /// Room for as many records as are written at once.
    records: Vec<Record>,
    writer: JournalWriter<W>,
    of: PhantomData<J>,
}

impl<D: Door, W: Write, J: JournalName> Model for Journal<D, W, J> {
    ghost use Rattle.std.specs.Prelude.{◌≡◌, ◌≤◌, is_some, vec_capacity, IsTrue};
    ghost use Rattle.gx_journal.specs.Journals.{added_by, met_by, most_at_once, IsJournalKept, JournalData};

    ghost Value = { JournalData };

    ghost view = { λ j. record { met = met_by D.observed j.pass; writer = j.writer } };

    ghost invariant = { λ j. IsTrue (is_some j.pass) × (added_by D.added j.pass ≡ 0)
        × IsJournalKept J.begun J.count J.earlier J.version
        (record { met = met_by D.observed j.pass; writer = j.writer })
        × (most_at_once ≤ vec_capacity j.records) };
}

impl<D: Door, W: Write, J: JournalName> Journal<D, W, J> {
    /// A journal of this version, in this room, on a device with so many of the records that the pass has met, which are the day's
    /// first.
    pub fn new(
        room: JournalRoom,
        version: AuditVersion,
        pass: D::Pass,
        count: u64,
        device: W,
    ) -> Journal<D, W, J>
        requires version { version ≡ J.version }
        requires begun { W.contents device ≡ J.begun }
        requires count { count ≡ J.count }
        requires met { (D.observed pass).front ≡ J.earlier }
        requires none_added { D.added pass ≡ 0 }
        requires within { count ≤ length J.earlier }
        ensures met { result.met ≡ D.observed pass }
        ensures contents { result.writer.contents ≡ J.begun }
        ensures version { result.writer.version ≡ version }
        ensures done { result.writer.done ≡ count }
        ensures fault { result.writer.fault ≡ None }
    {
        let JournalRoom { records, bytes } = room;
        Journal {
            pass: Some(pass),
            records,
            writer: JournalWriter::new(version, count, device, bytes),
            of: PhantomData,
        }
    }

    /// How many of the day's first records are on the device.
    pub fn kept(&self) -> KeptRecords<J>
        ensures { result ≡ self.now.writer.done }
    {
        KeptRecords {
            count: self.writer.done(),
            of: PhantomData,
        }
    }

    /// Writes what records there are, and answers how many are on the device: at least as many as the pass has met, or was
    /// told of. It takes no memory. Once a call of the device has failed it is broken: it writes nothing, and answers none.
    #[tactic(auto, using(crate::proofs::Journal_call::all_known))]
    pub fn keep<R: Wait>(&mut self, rt: &R, door: &D) -> Option<KeptRecords<J>>
        ensures kept { IfSome result (λ k. k ≡ self.new.writer.done) }
        ensures all { IfSome result (λ k. known_length self.old.met ≤ k) }
        ensures sound { IfSome result (λ _. self.new.writer.fault ≡ None) }
        ensures broken { IfNone result (IsTrue (is_broken self.new.writer)) }
        ensures failed { IfNone result (0 < self.new.writer.failed) }
        ensures grows { self.old.writer.done ≤ self.new.writer.done }
        ensures met { IsPrefix self.old.met.front self.new.met.front }
        ensures refused { IsTrue (is_broken self.old.writer) → result ≡ None }
        ensures over { IsTrue (is_broken self.old.writer) → self.new.writer ≡ self.old.writer }
    {
        let count = self.length(door);
        if !self.write_up_to(rt, door, count) {
            return None;
        }
        Some(self.kept())
    }

    /// How many records there are: at least as many as the pass has met.
    fn length(&mut self, door: &D) -> u64
        ensures told { self.new.met ≡ with_told self.old.met result }
        ensures more { self.old.met.told ≤ result }
        ensures front { length self.old.met.front ≤ result }
        ensures writer { self.new.writer ≡ self.old.writer }
    {
        let Some(mut pass) = self.pass.take() else {
            unreachable!()
        };
        let count = door.length(&mut pass);
        self.pass = Some(pass);
        count
    }

    /// Writes records until so many are on the device. Answers whether they are.
    fn write_up_to<R: Wait>(&mut self, rt: &R, door: &D, count: u64) -> bool
        requires known { count ≤ known_length self.old.met }
        ensures written { IsTrue result → count ≤ self.new.writer.done }
        ensures grows { self.old.writer.done ≤ self.new.writer.done }
        ensures sound { IsTrue result → self.new.writer.fault ≡ None }
        ensures broken { IsFalse result → IsTrue (is_broken self.new.writer) }
        ensures failed { IsFalse result → 0 < self.new.writer.failed }
        ensures met { IsPrefix self.old.met.front self.new.met.front }
        ensures refused { IsTrue (is_broken self.old.writer) → IsFalse result }
        ensures over { IsTrue (is_broken self.old.writer) → self.new.writer ≡ self.old.writer }
    {
        if self.writer.is_broken() {
            return false;
        }
        while self.writer.done() < count {
            if !self.write_piece(rt, door, count) {
                return false;
            }
        }
        true
    }

    /// Writes the next records, at most up to so many. Answers whether it did.
    fn write_piece<R: Wait>(&mut self, rt: &R, door: &D, count: u64) -> bool
        requires known { count ≤ known_length self.old.met }
        requires left { self.old.writer.done < count }
        requires sound { IsFalse (is_broken self.old.writer) }
        ensures known { count ≤ known_length self.new.met }
        ensures met { IsPrefix self.old.met.front self.new.met.front }
        ensures more { IsTrue result → self.old.writer.done < self.new.writer.done }
        ensures stays { IsFalse result → self.new.writer.done ≡ self.old.writer.done }
        ensures sound { IsTrue result → IsFalse (is_broken self.new.writer) }
        ensures broken { IsFalse result → IsTrue (is_broken self.new.writer) }
        ensures failed { IsFalse result → self.old.writer.failed < self.new.writer.failed }
    {
        let most = PIECE.min(count - self.writer.done());
        let Some(pass) = self.pass.take() else {
            unreachable!()
        };
        let next = self.writer.done() + 1;
        let pass = door.copy_records(rt, pass, next, most, &mut self.records);
        self.pass = Some(pass);
        self.writer.put(self.records.as_slice())
    }

    /// The pass, the device with the day's records that are on it, and room for as many records as are put there at once.
    pub fn into_parts(self) -> (D::Pass, JournalWriter<W>, Vec<Record>)
        ensures met { D.observed result.0 ≡ self.met }
        ensures none_added { D.added result.0 ≡ 0 }
        ensures writer { result.1 ≡ self.writer }
        ensures kept { IsJournalKept J.begun J.count J.earlier J.version self }
        ensures room { most_at_once ≤ vec_capacity result.2 }
    {
        let Journal {
            pass,
            records,
            writer,
            of: _,
        } = self;
        let Some(pass) = pass else { unreachable!() };
        (pass, writer, records)
    }
}
