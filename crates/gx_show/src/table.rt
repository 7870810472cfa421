//! The lines of a table of records.

ghost use Rattle.std.specs.Prelude.{◌≡◌, map, IfOk};
ghost use Rattle.csv.specs.Writing.{default_writer, row_text};
ghost use Rattle.gx_fields.specs.Cells.{cell_text};
ghost use Rattle.gx_show.specs.Rows.{account_asked, beside_of, shown_cells};

use crate::making::asked_in;
use gx_fields::{
    Beside, CELLS, Cell, EndedOrders, cells_of, csv_line, json_line, reason_of, reject_of, row_of,
};
use gx_history::record::RecordData;
use gx_policy::Policy;
use gx_units::{AccountName, OutOfMemory};
use std::alloc::Global;

/// The account of the trader who asked, if one did.
fn account_asked(policy: &Policy, shown: &RecordData) -> Option<AccountName>
    ensures { result ≡ account_asked policy.now shown.now }
{
    policy.account_of(asked_in(shown)?.user)
}

/// What is told beside the fields of a record.
fn beside_of(policy: &Policy, shown: &RecordData, ended: Option<EndedOrders>) -> Beside
    ensures { result ≡ beside_of policy.now shown.now ended }
{
    let account = account_asked(policy, shown);
    match shown.verdict.denied_by() {
        Some(rule) => Beside {
            account,
            reason: reason_of(policy, rule),
            reject: reject_of(policy, rule),
            ended,
        },
        None => Beside {
            account,
            reason: None,
            reject: None,
            ended,
        },
    }
}

/// The cells that a record is shown by which ended so much.
pub fn shown_cells(policy: &Policy, shown: &RecordData, ended: Option<EndedOrders>) -> [Cell; CELLS]
    ensures { result ≡ shown_cells policy.now shown.now ended }
{
    cells_of(&row_of(shown), &beside_of(policy, shown, ended))
}

/// The record as a line of CSV, with the end of the line.
///
/// # Errors
///
/// `OutOfMemory` where memory was refused.
pub fn record_csv(
    alloc: Global,
    policy: &Policy,
    shown: &RecordData,
    ended: Option<EndedOrders>,
) -> Result<Vec<u8>, OutOfMemory>
    ensures { IfOk result (λ line. line.items
        ≡ row_text default_writer (map cell_text (shown_cells policy.now shown.now ended))) }
{
    csv_line(alloc, &shown_cells(policy, shown, ended))
}

/// The record as a line of JSON, with the end of the line.
///
/// # Errors
///
/// `OutOfMemory` where memory was refused.
pub fn record_json(
    alloc: Global,
    policy: &Policy,
    shown: &RecordData,
    ended: Option<EndedOrders>,
) -> Result<Vec<u8>, OutOfMemory> {
    json_line(alloc, &shown_cells(policy, shown, ended))
}
