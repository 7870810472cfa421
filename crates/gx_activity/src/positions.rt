//! What each account bought and sold in each stock: one pass over the records.

ghost use Rattle.std.specs.{Prelude.{◌≡◌, nat_eq, IfOk, OnOk}, Map.lookup};
ghost use Rattle.gx_activity.specs.{Positions.{no_position, position_row, position_rows, position_with, position_row_of}, declared.positions.Position.Position, Positioning.{entries_filled, position_entries_with, position_table, NotePositions}};
ghost use Rattle.gx_history.specs.Executions.{executions};

use crate::listing::rows_in;
use gx_history::record::{Fill, Record, Step, Verdict};
use gx_history::records::Records;
use gx_overview::executed::ExecutedTotals;
use gx_overview::owners::{Owner, Owners};
use gx_people::People;
use gx_policy::Policy;
use gx_records::ShowsRecords;
use gx_units::{AccountName, OutOfMemory, Symbol};
use indexmap::IndexMap;
use std::alloc::Global;

/// An account, and a stock that it traded.
#[derive(Clone, Copy, PartialEq, Eq, Hash)]
pub struct Position {
    /// The name of the account.
    pub account: AccountName,
    /// The stock that it traded.
    pub stock: Symbol,
}

/// What an account executed in a stock.
#[derive(Clone, Copy, PartialEq, Eq)]
pub struct PositionRow {
    /// The account and the stock.
    pub position: Position,
    /// By buys.
    pub bought: ExecutedTotals,
    /// By all that is no buy.
    pub sold: ExecutedTotals,
}

const NOTHING: ExecutedTotals = ExecutedTotals {
    shares: 0,
    value: 0,
};

impl PositionRow {
    /// Before any fill.
    fn new(position: Position) -> PositionRow
        ensures { result ≡ no_position position }
    {
        PositionRow {
            position,
            bought: NOTHING,
            sold: NOTHING,
        }
    }

    fn with(self, buys: bool, fill: &Fill) -> PositionRow
        ensures { result ≡ position_with buys fill.now self }
    {
        let mut row = self;
        if buys {
            row.bought = row.bought.with_fill(fill);
        } else {
            row.sold = row.sold.with_fill(fill);
        }
        row
    }
}

/// Notes one side of a fill, whose order has this owner.
fn note_side(
    table: &mut IndexMap<Position, PositionRow>,
    owner: Owner,
    fill: &Fill,
) -> Result<(), OutOfMemory>
    ensures noted { OnOk result
        (table.new.entries ≡ position_entries_with owner fill.now table.old.entries) }
{
    let position = Position {
        account: owner.account,
        stock: owner.stock,
    };
    let row = match table.get(&position) {
        Some(row) => *row,
        None => PositionRow::new(position),
    };
    table.insert(position, row.with(owner.buys, fill))?;
    Ok(())
}

fn note_if_known(
    table: &mut IndexMap<Position, PositionRow>,
    owner: Option<Owner>,
    fill: &Fill,
) -> Result<(), OutOfMemory>
    ensures noted { OnOk result
        (table.new.entries ≡ entries_filled fill.now table.old.entries owner) }
{
    match owner {
        Some(owner) => note_side(table, owner, fill),
        None => Ok(()),
    }
}

fn note_fill(
    table: &mut IndexMap<Position, PositionRow>,
    owners: &Owners,
    fill: &Fill,
) -> Result<(), OutOfMemory>
    ensures noted { OnOk result (table.new.entries ≡ entries_filled fill.now
        (entries_filled fill.now table.old.entries
        (lookup (nat_eq fill.now.taker) owners.now.by_number.entries))
        (lookup (nat_eq fill.now.maker) owners.now.by_number.entries)) }
{
    note_if_known(table, owners.numbered(fill.taker), fill)?;
    note_if_known(table, owners.numbered(fill.maker), fill)
}

fn note_record(
    table: &mut IndexMap<Position, PositionRow>,
    owners: &mut Owners,
    policy: &Policy,
    people: &People,
    left: &Record,
) -> Result<(), OutOfMemory>
    requires people { people.now ≡ policy.now.users }
    ensures noted { OnOk result (NotePositions policy.now left.now
        owners.old owners.new table.old.entries table.new.entries) }
{
    let shown = left.content();
    match (&shown.verdict, &shown.step) {
        (Verdict::Granted, Step::Asked(asked)) => owners.note(policy, people, &shown, asked),
        (Verdict::Filled(fill), _) => note_fill(table, owners, fill),
        _ => Ok(()),
    }
}

/// Notes the fills of these records.
fn note_records(
    alloc: Global,
    policy: &Policy,
    records: &Records<'_>,
) -> Result<IndexMap<Position, PositionRow>, OutOfMemory>
    ensures table { IfOk result
        (λ table. table.entries ≡ position_table policy.now records.now) }
{
    let mut table = IndexMap::new(alloc);
    let people = People::new(alloc, policy)?;
    let mut owners = Owners::new(alloc);
    for place in 0..records.len() {
        note_record(&mut table, &mut owners, policy, &people, &records.at(place))?;
    }
    Ok(table)
}

/// What each account bought and sold in each stock in which an order of it was filled, in the order in which these first were.
/// It is one pass over the records, which keeps the owner of each order.
///
/// # Errors
///
/// `OutOfMemory` where the rows or the owners were refused their memory.
pub fn position_rows<G: ShowsRecords>(
    alloc: Global,
    gate: &G,
) -> Result<Vec<PositionRow>, OutOfMemory>
    ensures rows { IfOk result (λ rows. rows.items
        ≡ position_rows (G.state gate.now).policy (G.state gate.now).records) }
    ensures all { IfOk result (λ rows. (p : Position) → position_row_of rows.items p
        ≡ position_row (executions (G.state gate.now).policy (G.state gate.now).records) p) }
{
    let table = note_records(alloc, gate.policy(), &gate.shown_records())?;
    rows_in(alloc, &table)
}
