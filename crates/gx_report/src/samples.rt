//! How much of gross and net limits was used at some times of the day.

ghost use Rattle.std.specs.Prelude.{◌≡◌, ◌+◌, ◌++◌, [], length, map, slice_get, IsTrue, OnOk, Some};
ghost use Rattle.gx_report.specs.Samples.{more_of, most_used, sample_of, used_in, used_there, AreTaken};

use gx_history::facts::StockSide;
use gx_history::record::RecordData;
use gx_peaks::Figure;
use gx_policy::Stock;
use gx_records::{ShowsState, Watches};
use gx_units::{AccountName, OutOfMemory, RuleId, Symbol};
use std::alloc::Global;

/// A gross or net rule, and an account that it is for.
#[derive(Clone, Copy, PartialEq, Eq)]
pub struct Seat {
    /// The name of the rule.
    pub rule: RuleId,
    /// The name of the account.
    pub account: AccountName,
    /// The rule counts on each side of a stock by itself: the side and the stock where most is used are meant.
    pub is_net: bool,
}

/// How much was used of a limit, in shares or in ten-thousandths of a dollar, and the limit then.
#[derive(Clone, Copy, PartialEq, Eq)]
pub struct Sample {
    /// None where the rule is none of this sort for the account.
    pub used: Option<u128>,
    /// The limit in force then, in the same unit; None where the rule has none.
    pub limit: Option<u64>,
}

/// Samples of each seat, taken after as many records as are asked for, one count after the other.
#[derive(Drop)]
pub struct Samples {
    /// What samples are taken of.
    pub seats: Vec<Seat>,
    /// After how many records, in rising order.
    pub counts: Vec<u64>,
    /// At how many of these samples were taken.
    pub taken: usize,
    /// One of each seat for each count, one count after the other.
    pub list: Vec<Sample>,
}

/// The greater of two figures, or the one that there is.
fn more_of(one: Option<u128>, other: Option<u128>) -> Option<u128>
    ensures { result ≡ more_of one other }
{
    match (one, other) {
        (None, _) => other,
        (Some(_), None) => one,
        (Some(one), Some(other)) => Some(one.max(other)),
    }
}

/// What is used of a net rule's limit on this side of a stock, as far as it is above 0.
fn used_there<G: ShowsState>(gate: &G, seat: &Seat, side: StockSide) -> Option<u128>
    ensures { result
        ≡ used_there (G.state gate.now).policy (G.state gate.now).records seat.now side }
{
    let figure = Figure {
        rule: seat.rule,
        account: seat.account,
        side: Some(side),
    };
    figure.used(gate)
}

/// What is used of a net rule's limit on either side of the stock, where more is.
fn used_in<G: ShowsState>(gate: &G, seat: &Seat, stock: Symbol) -> Option<u128>
    ensures { result
        ≡ used_in (G.state gate.now).policy (G.state gate.now).records seat.now stock }
{
    let bought = used_there(gate, seat, StockSide { stock, buys: true });
    let sold = used_there(gate, seat, StockSide { stock, buys: false });
    more_of(bought, sold)
}

/// What is used of a net rule's limit in the stock where most is, of these.
fn most_used<G: ShowsState>(gate: &G, seat: &Seat, stocks: &[Stock]) -> Option<u128>
    ensures { result ≡
        most_used (G.state gate.now).policy (G.state gate.now).records seat.now stocks.now }
{
    let mut most = None;
    for stock in stocks {
        most = more_of(most, used_in(gate, seat, stock.name));
    }
    most
}

fn used_of<G: ShowsState>(gate: &G, seat: &Seat) -> Option<u128>
    ensures { result
        ≡ (sample_of (G.state gate.now).policy (G.state gate.now).records seat.now).used }
{
    if seat.is_net {
        most_used(gate, seat, gate.policy().stocks())
    } else {
        gate.gross_used(seat.rule, seat.account)
    }
}

fn sample_of<G: ShowsState>(gate: &G, seat: &Seat) -> Sample
    ensures { result ≡ sample_of (G.state gate.now).policy (G.state gate.now).records seat.now }
{
    Sample {
        used: used_of(gate, seat),
        limit: gate.limit(seat.rule),
    }
}

/// Puts a sample of each seat last.
fn take_samples<G: ShowsState>(
    list: &mut Vec<Sample>,
    gate: &G,
    seats: &[Seat],
) -> Result<(), OutOfMemory>
    ensures taken { OnOk result (list.new.items ≡ list.old.items ++ map
        (sample_of (G.state gate.now).policy (G.state gate.now).records) seats.now) }
{
    for seat in seats {
        list.push(sample_of(gate, seat))?;
    }
    Ok(())
}

impl Samples {
    /// Before any record.
    pub fn new(alloc: Global, seats: Vec<Seat>, counts: Vec<u64>) -> Samples
        ensures seats { result.seats ≡ seats }
        ensures counts { result.counts ≡ counts }
        ensures taken { result.taken ≡ 0 }
        ensures none { result.list.items ≡ [] }
    {
        Samples {
            seats,
            counts,
            taken: 0,
            list: Vec::new(alloc),
        }
    }

    /// Whether samples are asked for after so many records.
    fn is_due(&self, count: u64) -> bool
        ensures { IsTrue result → slice_get self.now.counts.items self.now.taken ≡ Some count }
    {
        match self.counts.get(self.taken) {
            Some(due) => *due == count,
            None => false,
        }
    }

    /// Takes a sample of each seat after the gate's records.
    fn take_one<G: ShowsState>(&mut self, gate: &G) -> Result<(), OutOfMemory>
        requires due { slice_get self.old.counts.items self.old.taken
            ≡ Some (length (G.state gate.now).records) }
        requires taken { AreTaken (G.state gate.now).policy self.old (G.state gate.now).records }
        ensures taken { OnOk result
            (AreTaken (G.state gate.now).policy self.new (G.state gate.now).records) }
        ensures one { OnOk result (self.new.taken ≡ self.old.taken + 1) }
        ensures counts { self.new.counts ≡ self.old.counts }
    {
        take_samples(&mut self.list, gate, self.seats.as_slice())?;
        self.taken += 1;
        Ok(())
    }

    /// Takes the samples that are asked for after as many records as the gate has.
    ///
    /// # Errors
    ///
    /// `OutOfMemory` where a sample was refused its memory.
    pub fn take_due<G: ShowsState>(&mut self, gate: &G) -> Result<(), OutOfMemory>
        requires taken { AreTaken (G.state gate.now).policy self.old (G.state gate.now).records }
        ensures taken { OnOk result
            (AreTaken (G.state gate.now).policy self.new (G.state gate.now).records) }
    {
        while self.is_due(gate.length()) {
            self.take_one(gate)?;
        }
        Ok(())
    }
}

impl<G: ShowsState> Watches<G> for Samples {
    ghost use Rattle.gx_report.specs.Samples.{AreTaken};

    ghost asked = { λ _. tt };

    ghost saw = { λ samples policy records. AreTaken policy samples records };

    ghost expects = { λ samples policy records next. AreTaken policy samples records };

    fn before(&mut self, gate: &G, _next: &RecordData) -> Result<(), OutOfMemory> {
        self.take_due(gate)
    }

    fn after(&mut self, _gate: &G, _left: &RecordData) -> Result<(), OutOfMemory> {
        Ok(())
    }
}
