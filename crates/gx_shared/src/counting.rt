//! The keeper of a history in which each record and each line is counted.

ghost use Rattle.std.specs.Prelude.{◌≡◌, ◌+◌, ◌<◌, ◌≤◌, ◌^◌, ◌++◌, ◌∷◌, [], length, IfErr, IfOk, OnErr, OnOk};
ghost use Rattle.gx_shared.specs.Permits.{all_parts};
ghost use Rattle.gx_pass.specs.declared.pass.PassFault.TheVariants as faults;
ghost use Rattle.gx_pass.specs.{Rules.{IsMet, IsAbsent, Has, MayNote}, Views.{keeper_view, line_view, line_in, mine, without_line}};

use crate::counted_pass::CountedPass;
use crate::permit::{BlankLedgers, LinesOf, Permits};
use gx_history::record::RecordData;
use gx_pass::{Entered, GateName, Keeper, Pass, PassFault};
use std::marker::Model;
use std::sync::ledger::{Book, Share, Total};

/// A keeper, and the books of two ledgers, in which each of its records is counted and each line that it issued. Contracts
/// see what the keeper knows.
#[derive(Drop)]
pub struct CountingKeeper<N: GateName> {
    keeper: Keeper<N>,
    book: Book<N>,
    lines: Book<LinesOf<N>>,
}

impl<N: GateName> Model for CountingKeeper<N> {
    ghost use Rattle.std.specs.Prelude.{◌≡◌, length};
    ghost use Rattle.gx_pass.specs.declared.view.KeeperView.{KeeperView};

    ghost Value = { KeeperView };

    ghost view = { λ c. c.keeper };

    ghost invariant = { λ c. (c.book.total ≡ length c.keeper.list)
        × (c.lines.total ≡ c.keeper.issued) };
}

impl<N: GateName> CountingKeeper<N> {
    /// Counts the keeper's records, of which there are so many, and its lines. Gives the permits for passes, too.
    pub fn over(
        keeper: Keeper<N>,
        count: u64,
        ledgers: BlankLedgers,
    ) -> (CountingKeeper<N>, Permits<N>)
        requires records { ledgers.records ≡ N.name }
        requires lines { ledgers.lines ≡ N.lines }
        requires parts { N.parts ≡ all_parts }
        requires count { count ≡ length keeper.list }
        ensures keeper { result.0 ≡ keeper }
        ensures all { result.1.left + 1 ≡ N.parts }
        ensures added { result.1.added ≡ count }
        ensures issued { result.1.issued ≡ keeper.issued }
    {
        let (mut book, mut lines, mut permits) = Permits::<N>::open(ledgers);
        permits.count(&mut book, count);
        permits.count_lines(&mut lines, keeper.issued());
        let counting = CountingKeeper {
            keeper,
            book,
            lines,
        };
        (counting, permits)
    }

    /// Changes nothing: where all permits are left, as many records are counted in them as the keeper has.
    pub fn audit(&mut self, permits: &mut Permits<N>)
        ensures keeper { self.new ≡ self.old }
        ensures permits { permits.new ≡ permits.old }
        ensures all { permits.old.left + 1 ≡ N.parts
            → permits.old.added ≡ length self.old.list }
    {
        permits.audit(&mut self.book);
    }

    /// A pass with the next line, as [`Keeper::issue`] gives it, for one of these permits.
    ///
    /// # Errors
    ///
    /// Where it gives none, the permits are as they were.
    pub fn issue(&mut self, permits: &mut Permits<N>) -> Result<CountedPass<N>, PassFault>
        ensures list { self.new.list ≡ self.old.list }
        ensures pass { IfOk result (λ p.
            p.held ≡ line_view (self.old.issued + 1) self.old.list (length self.old.list)) }
        ensures own { IfOk result (λ p. mine p.held ≡ []) }
        ensures none_added { IfOk result (λ p. p.added ≡ 0) }
        ensures line { IfOk result (λ p. p.held.line ≡ permits.new.issued) }
        ensures next { OnOk result (permits.new.issued ≡ permits.old.issued + 1) }
        ensures one_less { OnOk result (permits.new.left + 1 ≡ permits.old.left) }
        ensures added { permits.new.added ≡ permits.old.added }
        ensures same { OnErr result (permits.new ≡ permits.old) }
        ensures no_lines { IfErr result (λ e.
            e ≡ faults.NoLines → permits.old.issued ≡ 65535) }
        ensures whole { permits.old.issued ≡ self.old.issued }
    {
        permits.audit_lines(&mut self.lines);
        let pass = self.keeper.issue()?;
        Ok(CountedPass::new(pass, permits.take(&mut self.lines)))
    }

    /// Takes a pass in, and compares it with the history, as [`Keeper::enter`] does.
    pub fn enter(&mut self, pass: Pass<N>) -> Entered<N>
        ensures line { result ≡ pass.line }
        ensures met { IsMet self.old.list pass }
        ensures apart { IsAbsent pass.line self.old.entered }
        ensures some { 0 < pass.line }
        ensures issued { pass.line ≤ self.old.issued }
        ensures entered { self.new
            ≡ keeper_view self.old.list (pass.line ∷ self.old.entered) self.old.issued }
    {
        self.keeper.enter(pass)
    }

    /// The history takes a record of no line or of an entered one, which is counted in the share.
    pub fn note(&mut self, share: &mut Share<N>, noted: RecordData)
        requires part { 0 < share.old.parts }
        requires line { MayNote self.old.entered (line_in noted) }
        requires room { length self.old.list + 1 < 2 ^ 64 }
        ensures keeper { self.new
            ≡ keeper_view (self.old.list ++ noted ∷ []) self.old.entered self.old.issued }
        ensures counted { share.new.amount ≡ share.old.amount + 1 }
        ensures parts { share.new.parts ≡ share.old.parts }
    {
        self.book.add(share, 1);
        self.keeper.note(noted);
    }

    /// Lets go a pass that was taken in. It has met the whole history.
    pub fn leave(&mut self, entered: Entered<N>) -> Pass<N>
        requires { Has self.old.entered entered }
        ensures entered { self.new
            ≡ keeper_view self.old.list (without_line entered self.old.entered) self.old.issued }
        ensures pass { result ≡ line_view entered self.old.list (length self.old.list) }
    {
        self.keeper.leave(entered)
    }

    /// How many records there are, for good.
    pub fn close(self) -> Total<N>
        ensures { result.amount ≡ length self.list }
    {
        let CountingKeeper {
            keeper: _,
            book,
            lines: _,
        } = self;
        book.close()
    }
}
