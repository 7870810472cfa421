//! The keeper of a history.

ghost use Rattle.std.specs.Prelude.{◌≡◌, ◌+◌, ◌<◌, ◌≤◌, ◌^◌, ◌++◌, ◌∷◌, [], length, IfErr, IfOk, OnErr, OnOk, Err};
ghost use Rattle.gx_pass.specs.declared.pass.PassFault.TheVariants as faults;
ghost use Rattle.gx_pass.specs.{declared.view.View.TheVariants.Keeping, Rules.{IsMet, IsAbsent, Has, MayNote, HasTaken}, Views.{keeper_view, line_view, keeper_view_of, line_in, mine, without_line, view_without_line, view_of_line}};

use crate::blank::Blank;
use crate::name::GateName;
use crate::pass::{Entered, Pass, PassFault};
use crate::view::{
    AppendRecord, CheckLines, ComparePass, EnterLine, IssueLine, LeaveLine, LineName, RecordName,
    ViewSeat, ViewTable,
};
use gx_history::record::RecordData;
use std::alloc::Global;
use std::marker::{Brand, Model, PhantomData};
use std::sync::Arc;

/// Knows the whole history, and makes passes. Contracts see the history, the entered lines, the last first, and how many
/// lines were issued.
#[derive(Drop)]
pub struct Keeper<N: GateName> {
    issued: u16,
    seat: ViewSeat,
    table: Arc<ViewTable, Global>,
    of: PhantomData<N>,
}

impl<N: GateName> Model for Keeper<N> {
    ghost use Rattle.std.specs.Prelude.{◌≡◌, []};
    ghost use Rattle.std.specs.Arc.{arc_value};
    ghost use Rattle.gx_pass.specs.declared.view.KeeperView.{KeeperView};
    ghost use Rattle.gx_pass.specs.declared.view.View.TheVariants.{Keeping};
    ghost use Rattle.gx_pass.specs.Views.{keeper_view_of};

    ghost Value = { KeeperView };

    ghost view = { λ k. keeper_view_of k.seat.me.0 };

    ghost invariant = { λ k. (k.seat.table_id ≡ N.table)
        × ((arc_value k.table).shared.table_id ≡ N.table) × (N.table.words ≡ 1)
        × (k.seat.me ≡ (Keeping (keeper_view_of k.seat.me.0), []))
        × (k.issued ≡ (keeper_view_of k.seat.me.0).issued) };
}

impl<N: GateName> Keeper<N> {
    /// The keeper of the blank's table, which has no history, no entered line and none issued.
    pub fn open(blank: Blank) -> Keeper<N>
        requires { blank ≡ N.table }
        ensures { result ≡ keeper_view [] [] 0 }
    {
        let Blank { table, seat } = blank;
        Keeper {
            issued: 0,
            seat,
            table,
            of: PhantomData,
        }
    }

    /// How many lines were issued.
    pub fn issued(&self) -> u16
        ensures { result ≡ self.now.issued }
    {
        self.issued
    }

    /// A pass with a line that was not issued before. It has met the whole history, which has no record of its line.
    ///
    /// # Errors
    ///
    /// `NoLines` comes first, and only where all 65,535 lines were issued.
    pub fn issue(&mut self) -> Result<Pass<N>, PassFault>
        ensures counted { OnOk result
            (self.new ≡ keeper_view self.old.list self.old.entered (self.old.issued + 1)) }
        ensures pass { IfOk result (λ p.
            p ≡ line_view (self.old.issued + 1) self.old.list (length self.old.list)) }
        ensures own { IfOk result (λ p. mine p ≡ []) }
        ensures unchanged { OnErr result (self.new ≡ self.old) }
        ensures none_left { self.old.issued ≡ 65535 → result ≡ Err faults.NoLines }
        ensures no_lines { IfErr result (λ e. e ≡ faults.NoLines → self.old.issued ≡ 65535) }
    {
        if self.issued == u16::MAX {
            return Err(PassFault::NoLines);
        }
        let table = Arc::try_clone(&self.table)?;
        self.table.shared.load::<CheckLines>(&mut self.seat, 0);
        let seat = self.table.shared.split_seat::<IssueLine>(&mut self.seat);
        self.issued += 1;
        Ok(Pass {
            line: self.issued,
            seat,
            table,
            of: PhantomData,
        })
    }

    /// Takes a pass in, and compares it with the history: this begins with all that the pass had met, and its records of
    /// the pass's line are the pass's own. No other entered pass has that line.
    pub fn enter(&mut self, pass: Pass<N>) -> Entered<N>
        ensures line { result ≡ pass.line }
        ensures met { IsMet self.old.list pass }
        ensures apart { IsAbsent pass.line self.old.entered }
        ensures some { 0 < pass.line }
        ensures issued { pass.line ≤ self.old.issued }
        ensures entered { self.new
            ≡ keeper_view self.old.list (pass.line ∷ self.old.entered) self.old.issued }
    {
        let Pass {
            line,
            seat,
            table,
            of,
        } = pass;
        self.table
            .shared
            .join_seat::<EnterLine>(&mut self.seat, seat);
        self.table.shared.load::<ComparePass>(&mut self.seat, 0);
        Entered { line, table, of }
    }

    /// The history takes a record of no line or of an entered one.
    pub fn note(&mut self, noted: RecordData)
        requires line { MayNote self.old.entered (line_in noted) }
        requires room { length self.old.list + 1 < 2 ^ 64 }
        ensures { self.new
            ≡ keeper_view (self.old.list ++ noted ∷ []) self.old.entered self.old.issued }
    {
        append::<Brand>(&self.table, &mut self.seat, noted);
    }

    /// Lets go a pass that was taken in. It has met the whole history.
    pub fn leave(&mut self, entered: Entered<N>) -> Pass<N>
        requires { Has self.old.entered entered }
        ensures entered { self.new
            ≡ keeper_view self.old.list (without_line entered self.old.entered) self.old.issued }
        ensures pass { result ≡ line_view entered self.old.list (length self.old.list) }
    {
        let Entered { line, table, of } = entered;
        let seat = part::<Brand>(&self.table, &mut self.seat, line);
        Pass {
            line,
            seat,
            table,
            of,
        }
    }
}

/// The seat of a pass with the line that L names, which leaves the entered ones.
fn part<L: LineName>(board: &ViewTable, seat: &mut ViewSeat, line: u16) -> ViewSeat
    requires line { line ≡ L.line }
    requires own { (seat.old.table_id ≡ board.now.shared.table_id)
        × (board.now.shared.table_id.words ≡ 1) }
    requires keeper { seat.old.me ≡ (Keeping (keeper_view_of seat.old.me.0), []) }
    requires entered { Has (keeper_view_of seat.old.me.0).entered line }
    ensures own { (seat.new.table_id ≡ seat.old.table_id)
        × (result.table_id ≡ seat.old.table_id) }
    ensures keeper { seat.new.me ≡ (view_without_line line seat.old.me.0, []) }
    ensures pass { result.me ≡ (view_of_line line seat.old.me.0, []) }
{
    board.shared.split_seat::<LeaveLine<L>>(seat)
}

/// The history takes the record that E names.
fn append<E: RecordName>(board: &ViewTable, seat: &mut ViewSeat, noted: RecordData)
    requires entry { noted ≡ E.entry }
    requires own { (seat.old.table_id ≡ board.now.shared.table_id)
        × (board.now.shared.table_id.words ≡ 1) }
    requires keeper { seat.old.me ≡ (Keeping (keeper_view_of seat.old.me.0), []) }
    requires line { MayNote (keeper_view_of seat.old.me.0).entered (line_in noted) }
    requires room { length (keeper_view_of seat.old.me.0).list + 1 < 2 ^ 64 }
    ensures own { seat.new.table_id ≡ seat.old.table_id }
    ensures taken { HasTaken noted seat.old.me seat.new.me }
{
    board.shared.fetch_add::<AppendRecord<E>>(seat, 0, 1);
}
