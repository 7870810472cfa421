//! What passes are issued for.

ghost use Rattle.std.specs.Prelude.{◌≡◌, ◌+◌, ◌<◌};
ghost use Rattle.gx_shared.specs.Permits.{all_parts};

use gx_pass::GateName;
use std::marker::{Model, PhantomData};
use std::sync::ledger::{Blank, Book, Ledger, Share};

/// The ledger in which the lines are counted that were issued. It has one part: whoever has it knows how many they are.
pub struct LinesOf<N: GateName> {
    of: PhantomData<N>,
}

impl<N: GateName> Ledger for LinesOf<N> {
    ghost name = { N.lines };

    ghost parts = { 1 };
}

/// The ledgers of a gate, in which nothing is counted and which have no name yet: one of its records, in as many parts as
/// there may be passes, and one of its lines.
#[derive(Drop)]
pub struct BlankLedgers {
    records: Blank,
    lines: Blank,
}

impl Model for BlankLedgers {
    ghost use Rattle.std.specs.Prelude.{◌≡◌};
    ghost use Rattle.gx_shared.specs.Permits.{LedgersData, all_parts};

    ghost Value = { LedgersData };

    ghost view = { λ b. record { records = b.records.name; lines = b.lines.name } };

    ghost invariant = { λ b. (b.records.parts ≡ all_parts) × (b.lines.parts ≡ 1) };
}

impl BlankLedgers {
    /// Ledgers that count nothing yet.
    pub fn new() -> BlankLedgers {
        BlankLedgers {
            records: Blank::new(u64::MAX),
            lines: Blank::new(1),
        }
    }
}

/// Permits for passes that are not issued yet: all but one of the parts of the ledger of records, one for each, and the
/// ledger of lines. Contracts see how many are left, how many records are counted in them, and the line that was issued
/// last.
#[derive(Drop)]
pub struct Permits<N: GateName> {
    share: Share<N>,
    lines: Share<LinesOf<N>>,
    left: u64,
}

impl<N: GateName> Model for Permits<N> {
    ghost use Rattle.std.specs.Prelude.{◌≡◌, ◌+◌, ◌≤◌};
    ghost use Rattle.gx_shared.specs.Permits.{PermitsData};

    ghost Value = { PermitsData };

    ghost view = { λ p.
        record { left = p.left; added = p.share.amount; issued = p.lines.amount } };

    ghost invariant = { λ p. (p.share.parts ≡ p.left + 1) × (p.lines.parts ≡ 1)
        × (65535 ≤ p.left + p.lines.amount) };
}

impl<N: GateName> Permits<N> {
    /// All permits of these ledgers, and their books. Nothing is counted.
    pub fn open(ledgers: BlankLedgers) -> (Book<N>, Book<LinesOf<N>>, Permits<N>)
        requires records { ledgers.records ≡ N.name }
        requires lines { ledgers.lines ≡ N.lines }
        requires parts { N.parts ≡ all_parts }
        ensures no_records { result.0.total ≡ 0 }
        ensures no_lines { result.1.total ≡ 0 }
        ensures all { result.2.left + 1 ≡ N.parts }
        ensures none_added { result.2.added ≡ 0 }
        ensures none_issued { result.2.issued ≡ 0 }
    {
        let BlankLedgers { records, lines } = ledgers;
        let (book, share) = records.open::<N>();
        let (of_lines, lines) = lines.open::<LinesOf<N>>();
        let permits = Permits {
            share,
            lines,
            left: u64::MAX - 1,
        };
        (book, of_lines, permits)
    }

    /// Counts so many records that were there before any pass.
    pub fn count(&mut self, book: &mut Book<N>, records: u64)
        ensures total { book.new.total ≡ book.old.total + records }
        ensures added { self.new.added ≡ self.old.added + records }
        ensures left { self.new.left ≡ self.old.left }
        ensures issued { self.new.issued ≡ self.old.issued }
    {
        book.add(&mut self.share, records);
    }

    /// Counts so many lines that were issued before any permit was taken.
    pub fn count_lines(&mut self, book: &mut Book<LinesOf<N>>, lines: u16)
        ensures total { book.new.total ≡ book.old.total + lines }
        ensures added { self.new.added ≡ self.old.added }
        ensures left { self.new.left ≡ self.old.left }
        ensures issued { self.new.issued ≡ self.old.issued + lines }
    {
        book.add(&mut self.lines, lines as u64);
    }

    /// Changes nothing: where all permits are left, all that the book has is counted in them.
    pub fn audit(&mut self, book: &mut Book<N>)
        ensures total { book.new.total ≡ book.old.total }
        ensures permits { self.new ≡ self.old }
        ensures all { self.old.left + 1 ≡ N.parts → self.old.added ≡ book.old.total }
    {
        book.audit(&mut self.share);
    }

    /// Changes nothing: no line was issued but for these permits, or before them.
    pub fn audit_lines(&mut self, book: &mut Book<LinesOf<N>>)
        ensures total { book.new.total ≡ book.old.total }
        ensures permits { self.new ≡ self.old }
        ensures all { self.old.issued ≡ book.old.total }
    {
        book.audit(&mut self.lines);
    }

    /// A permit for the pass of the next line, one part of the ledger of records, in which nothing is counted.
    pub fn take(&mut self, book: &mut Book<LinesOf<N>>) -> Share<N>
        requires { book.old.total < 65535 }
        ensures total { book.new.total ≡ book.old.total + 1 }
        ensures parts { result.parts ≡ 1 }
        ensures amount { result.amount ≡ 0 }
        ensures left { self.new.left + 1 ≡ self.old.left }
        ensures added { self.new.added ≡ self.old.added }
        ensures issued { self.new.issued ≡ self.old.issued + 1 }
    {
        self.audit_lines(book);
        book.add(&mut self.lines, 1);
        self.left -= 1;
        self.share.split_off(1, 0)
    }
}
