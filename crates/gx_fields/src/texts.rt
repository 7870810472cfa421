//! The texts of cells.

ghost use Rattle.std.specs.{Prelude.{◌≡◌, ◌++◌, [], OnOk, IfOk, decimal}, Option.option_map_or};
ghost use Rattle.gx_fields.specs.Cells.{cell_text, kind_words, verdict_words};

use crate::cell::Cell;
use crate::row::{RowKind, RowVerdict};
use gx_text::{Decimals, append, append_moment, append_name, append_number, append_shown};
use gx_units::OutOfMemory;
use std::alloc::Global;

/// The words of a kind.
fn kind_words(kind: RowKind) -> &'static [u8]
    ensures { result.now ≡ kind_words kind }
{
    match kind {
        RowKind::Login => b"login",
        RowKind::Logout => b"logout",
        RowKind::Unreadable => b"unreadable",
        RowKind::Enter => b"enter",
        RowKind::Replace => b"replace",
        RowKind::Cancel => b"cancel",
        RowKind::Kill => b"kill",
        RowKind::Lift => b"lift",
        RowKind::SetLimit => b"limit",
        RowKind::Restrict => b"restrict",
        RowKind::Unrestrict => b"unrestrict",
        RowKind::Grant => b"grant",
        RowKind::Revoke => b"revoke",
        RowKind::CloseDay => b"close",
        RowKind::Match => b"match",
    }
}

/// The word of a verdict.
fn verdict_words(verdict: RowVerdict) -> &'static [u8]
    ensures { result.now ≡ verdict_words verdict }
{
    match verdict {
        RowVerdict::Granted => b"granted",
        RowVerdict::Denied => b"denied",
        RowVerdict::Filled => b"filled",
        RowVerdict::Rested => b"rested",
        RowVerdict::Expired => b"expired",
    }
}

/// Puts the number at the end of the text, if there is one.
fn append_some_number(text: &mut Vec<u8>, number: Option<u64>) -> Result<(), OutOfMemory>
    ensures { OnOk result (text.new.items ≡ text.old.items ++ option_map_or decimal number []) }
{
    match number {
        Some(number) => append_number(text, number),
        None => Ok(()),
    }
}

/// Puts the number at the end of the text, if there is one.
fn append_some_number_32(text: &mut Vec<u8>, number: Option<u32>) -> Result<(), OutOfMemory>
    ensures { OnOk result (text.new.items ≡ text.old.items ++ option_map_or decimal number []) }
{
    match number {
        Some(number) => append_number(text, u64::from(number)),
        None => Ok(()),
    }
}

/// Puts the number at the end of the text, if there is one.
fn append_some_number_16(text: &mut Vec<u8>, number: Option<u16>) -> Result<(), OutOfMemory>
    ensures { OnOk result (text.new.items ≡ text.old.items ++ option_map_or decimal number []) }
{
    match number {
        Some(number) => append_number(text, u64::from(number)),
        None => Ok(()),
    }
}

/// Puts the number at the end of the text, if there is one.
fn append_some_number_8(text: &mut Vec<u8>, number: Option<u8>) -> Result<(), OutOfMemory>
    ensures { OnOk result (text.new.items ≡ text.old.items ++ option_map_or decimal number []) }
{
    match number {
        Some(number) => append_number(text, u64::from(number)),
        None => Ok(()),
    }
}

/// Puts the text of a cell at the end of the text: nothing where the cell has no value.
///
/// # Errors
///
/// `OutOfMemory` where memory was refused; then a part of it may stand at the end of the text.
pub fn append_cell(text: &mut Vec<u8>, cell: &Cell) -> Result<(), OutOfMemory>
    ensures { OnOk result (text.new.items ≡ text.old.items ++ cell_text cell.now) }
{
    match cell {
        Cell::Number(number) => append_some_number(text, *number),
        Cell::Number32(number) => append_some_number_32(text, *number),
        Cell::Number16(number) => append_some_number_16(text, *number),
        Cell::Number8(number) => append_some_number_8(text, *number),
        Cell::Clock(moment) => append_moment(text, *moment, Decimals::Nine),
        Cell::Letter(Some(byte)) => append_shown(text, &[*byte]),
        Cell::User(Some(name)) => append_name(text, &name.bytes),
        Cell::Account(Some(name)) => append_name(text, &name.bytes),
        Cell::Stock(Some(name)) => append_name(text, &name.bytes),
        Cell::RuleId(Some(name)) => append_name(text, &name.bytes),
        Cell::Token(Some(name)) => append_name(text, &name.bytes),
        Cell::Firm(Some(name)) => append_name(text, &name.bytes),
        Cell::Tag(Some(name)) => append_name(text, &name.bytes),
        Cell::Reader(Some(name)) => append_name(text, &name.bytes),
        Cell::Kind(kind) => append(text, kind_words(*kind)),
        Cell::Verdict(verdict) => append(text, verdict_words(*verdict)),
        Cell::Right(Some(true)) => append(text, b"right"),
        Cell::Right(Some(false)) => append(text, b"wrong"),
        Cell::Rule(Some(name)) => append_name(text, &name.id().bytes),
        Cell::Reason(Some(reason)) => append(text, reason.words()),
        Cell::Reject(Some(reason)) => append_shown(text, &[reason.letter()]),
        _ => Ok(()),
    }
}

/// The text of a cell.
///
/// # Errors
///
/// `OutOfMemory` where memory was refused.
pub fn cell_text(alloc: Global, cell: &Cell) -> Result<Vec<u8>, OutOfMemory>
    ensures { IfOk result (λ text. text.items ≡ cell_text cell.now) }
{
    let mut text = Vec::new(alloc);
    append_cell(&mut text, cell)?;
    Ok(text)
}
