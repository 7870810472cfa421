//! A comparison in words and as JSON.
//!
//! Each function refuses with `OutOfMemory` where memory was refused; then a part of what it puts may stand at the end of the
//! text.

ghost use Rattle.std.specs.Prelude.{◌≡◌, ◌++◌, OnOk, Some, codes, flat_map};
ghost use Rattle.gx_json.specs.Parts.{member};
ghost use Rattle.gx_text.specs.Shown.{shown_name};
ghost use Rattle.gx_whatif.specs.{Telling.{first_json, first_line, heading_json, heading_line, heading_member, heading_text, rows_json, told_json, told_text, whatif_json, whatif_members, whatif_text}, declared.heading.HeadingRow.HeadingRow};

use crate::change::VerdictChange;
use crate::comparing::WhatIf;
use crate::heading::{Heading, HeadingRow};
use gx_history::record::Verdict;
use gx_json::{
    append_first_key, append_first_name, append_first_number, append_key, append_number_member,
};
use gx_script_text::append_verdict;
use gx_text::{append, append_json_string, append_name, append_number};
use gx_units::OutOfMemory;
use std::alloc::Global;

fn append_told(text: &mut Vec<u8>, told: &Option<Verdict>) -> Result<(), OutOfMemory>
    ensures { OnOk result (text.new.items ≡ text.old.items ++ told_text told.now) }
{
    match told {
        Some(verdict) => append_verdict(text, verdict),
        None => append(text, b"no record"),
    }
}

fn append_first(text: &mut Vec<u8>, found: &[VerdictChange]) -> Result<(), OutOfMemory>
    ensures { OnOk result (text.new.items ≡ text.old.items ++ first_line found.now) }
{
    match found {
        [] => Ok(()),
        [change, ..] => {
            append(text, b"first ")?;
            append_number(text, change.number)?;
            append(text, b": ")?;
            append_verdict(text, &change.recorded)?;
            append(text, b" -> ")?;
            append_told(text, &change.told)?;
            append(text, b"\n")
        }
    }
}

/// Puts words and a name at the end of the text.
fn append_named(text: &mut Vec<u8>, words: &[u8], name: &[u8]) -> Result<(), OutOfMemory>
    ensures { OnOk result
        (text.new.items ≡ text.old.items ++ (words.now ++ shown_name name.now)) }
{
    append(text, words)?;
    append_name(text, name)
}

fn append_heading(text: &mut Vec<u8>, heading: &Heading) -> Result<(), OutOfMemory>
    ensures { OnOk result (text.new.items ≡ text.old.items ++ heading_text heading.now) }
{
    match heading {
        Heading::DeniedNow(rule) => append_named(text, b"denied now by ", &rule.bytes),
        Heading::DeniedNoMore(rule) => { append_named(text, b"denied no more by ", &rule.bytes) }
        Heading::OfAccount(account) => append_named(text, b"account ", &account.bytes),
        Heading::OfNoAccount => append(text, b"no account"),
    }
}

fn append_line(text: &mut Vec<u8>, row: &HeadingRow) -> Result<(), OutOfMemory>
    ensures { OnOk result (text.new.items ≡ text.old.items ++ heading_line row.now) }
{
    append_heading(text, &row.heading)?;
    append(text, b": ")?;
    append_number(text, row.count)?;
    append(text, b"\n")
}

fn append_lines(text: &mut Vec<u8>, rows: &[HeadingRow]) -> Result<(), OutOfMemory>
    ensures { OnOk result (text.new.items ≡ text.old.items ++ flat_map heading_line rows.now) }
{
    for row in rows {
        append_line(text, row)?;
    }
    Ok(())
}

/// Puts what another policy changes at the end of the text, in lines: how many of the records, the first of them with both
/// verdicts, and how many under each heading.
pub fn append_whatif_text(text: &mut Vec<u8>, found: &WhatIf) -> Result<(), OutOfMemory>
    ensures { OnOk result (text.new.items ≡ text.old.items
        ++ whatif_text found.now.records found.now.changes.items found.now.rows.items) }
{
    append(text, b"changed ")?;
    append_number(text, found.changes.len() as u64)?;
    append(text, b" of ")?;
    append_number(text, found.records)?;
    append(text, b"\n")?;
    append_first(text, found.changes.as_slice())?;
    append_lines(text, found.rows.as_slice())
}

fn append_verdict_json(
    text: &mut Vec<u8>,
    alloc: Global,
    verdict: &Verdict,
) -> Result<(), OutOfMemory>
    ensures { OnOk result
        (text.new.items ≡ text.old.items ++ told_json (Some verdict.now)) }
{
    let mut words = Vec::new(alloc);
    append_verdict(&mut words, verdict)?;
    append_json_string(text, words.as_slice())
}

fn append_told_json(
    text: &mut Vec<u8>,
    alloc: Global,
    told: &Option<Verdict>,
) -> Result<(), OutOfMemory>
    ensures { OnOk result (text.new.items ≡ text.old.items ++ told_json told.now) }
{
    match told {
        Some(verdict) => append_verdict_json(text, alloc, verdict),
        None => append(text, b"null"),
    }
}

fn append_first_json(
    text: &mut Vec<u8>,
    alloc: Global,
    found: &[VerdictChange],
) -> Result<(), OutOfMemory>
    ensures { OnOk result (text.new.items ≡ text.old.items ++ first_json found.now) }
{
    match found {
        [] => append(text, b"null"),
        [change, ..] => {
            append_first_number(text, b"record", change.number)?;
            append_key(text, b"recorded")?;
            append_verdict_json(text, alloc, &change.recorded)?;
            append_key(text, b"told")?;
            append_told_json(text, alloc, &change.told)?;
            append(text, b"}")
        }
    }
}

fn append_heading_member(text: &mut Vec<u8>, heading: &Heading) -> Result<(), OutOfMemory>
    ensures { OnOk result (text.new.items ≡ text.old.items ++ heading_member heading.now) }
{
    match heading {
        Heading::DeniedNow(rule) => append_first_name(text, b"denied_now_by", &rule.bytes),
        Heading::DeniedNoMore(rule) => {
            append_first_name(text, b"denied_no_more_by", &rule.bytes)
        }
        Heading::OfAccount(account) => append_first_name(text, b"account", &account.bytes),
        Heading::OfNoAccount => {
            append_first_key(text, b"account")?;
            append(text, b"null")
        }
    }
}

fn append_row_json(text: &mut Vec<u8>, row: &HeadingRow) -> Result<(), OutOfMemory>
    ensures { OnOk result (text.new.items ≡ text.old.items ++ heading_json row.now) }
{
    append_heading_member(text, &row.heading)?;
    append_number_member(text, b"count", row.count)?;
    append(text, b"}")
}

/// Puts the rows at the end of the text, each behind a comma.
fn append_more(text: &mut Vec<u8>, rows: &[HeadingRow]) -> Result<(), OutOfMemory>
    ensures { OnOk result (text.new.items ≡ text.old.items
        ++ flat_map (λ (row : HeadingRow). codes "," ++ heading_json row) rows.now) }
{
    for row in rows {
        append(text, b",")?;
        append_row_json(text, row)?;
    }
    Ok(())
}

fn append_rows(text: &mut Vec<u8>, rows: &[HeadingRow]) -> Result<(), OutOfMemory>
    ensures { OnOk result (text.new.items ≡ text.old.items ++ rows_json rows.now) }
{
    match rows {
        [] => Ok(()),
        [first, more @ ..] => {
            append_row_json(text, first)?;
            append_more(text, more)
        }
    }
}

fn append_first_member(
    text: &mut Vec<u8>,
    alloc: Global,
    found: &[VerdictChange],
) -> Result<(), OutOfMemory>
    ensures { OnOk result
        (text.new.items ≡ text.old.items ++ member (codes "first") (first_json found.now)) }
{
    append_key(text, b"first")?;
    append_first_json(text, alloc, found)
}

fn append_counts_member(text: &mut Vec<u8>, rows: &[HeadingRow]) -> Result<(), OutOfMemory>
    ensures { OnOk result (text.new.items ≡ text.old.items
        ++ member (codes "counts") (codes "[" ++ rows_json rows.now ++ codes "]")) }
{
    append_key(text, b"counts")?;
    append(text, b"[")?;
    append_rows(text, rows)?;
    append(text, b"]")
}

fn append_members(
    text: &mut Vec<u8>,
    alloc: Global,
    records: u64,
    found: &[VerdictChange],
    rows: &[HeadingRow],
) -> Result<(), OutOfMemory>
    ensures { OnOk result
        (text.new.items ≡ text.old.items ++ whatif_members records found.now rows.now) }
{
    append_first_number(text, b"records", records)?;
    append_number_member(text, b"changed", found.len() as u64)?;
    append_first_member(text, alloc, found)?;
    append_counts_member(text, rows)
}

/// Puts what another policy changes at the end of the text, as one JSON object on a line: how many records there are, how
/// many change, the first that does with both verdicts or `null`, and how many under each heading.
pub fn append_whatif_json(
    text: &mut Vec<u8>,
    alloc: Global,
    found: &WhatIf,
) -> Result<(), OutOfMemory>
    ensures { OnOk result (text.new.items ≡ text.old.items
        ++ whatif_json found.now.records found.now.changes.items found.now.rows.items) }
{
    append_members(
        text,
        alloc,
        found.records,
        found.changes.as_slice(),
        found.rows.as_slice(),
    )?;
    append(text, b"}\n")
}
