//! What a script prints.

ghost use Rattle.std.specs.Prelude.{◌≡◌, ◌+◌, ◌≤◌, ◌++◌, decimal, [], length, IfOk, OnErr, OnOk};
ghost use Rattle.hex.specs.Hex.{encode_lower};
ghost use Rattle.gx_ouch.specs.declared.outbound.TheConstants.{MESSAGE_ROOM};
ghost use Rattle.gx_history.specs.declared.record.Verdict.TheVariants.{Filled};
ghost use Rattle.gx_script_text.specs.Printing.{rule_text, verdict_text, outcome_line, idle_line, refused_line, report_line, report_lines};

use crate::digits::put_digits;
use crate::draft::{LINE_ROOM, LineDraft};
use gx_history::record::{Fill, Verdict};
use gx_history::report::Report;
use gx_ouch::MESSAGE_ROOM;
use gx_policy::RuleName;
use gx_units::{OutOfMemory, UserName, unpadded};
use itoa::Buffer;
use std::alloc::Global;

/// Puts the bytes at the end of the text.
///
/// # Errors
///
/// `OutOfMemory` where memory was refused; then the text is as it was.
pub fn append(text: &mut Vec<u8>, more: &[u8]) -> Result<(), OutOfMemory>
    ensures appended { OnOk result (text.new.items ≡ text.old.items ++ more.now) }
    ensures refused { OnErr result (text.new.items ≡ text.old.items) }
{
    text.extend_from_slice(more)?;
    Ok(())
}

/// A rule's name, without spaces.
fn rule_text(rule: &RuleName) -> &[u8]
    ensures name { result.now ≡ rule_text rule.now }
    ensures short { length result.now ≤ 8 }
{
    unpadded(rule.written())
}

/// Puts the number in decimal digits at the end of the text.
///
/// # Errors
///
/// `OutOfMemory` where memory was refused; then the text is as it was.
pub fn append_number(text: &mut Vec<u8>, number: u64) -> Result<(), OutOfMemory>
    ensures appended { OnOk result (text.new.items ≡ text.old.items ++ decimal number) }
    ensures refused { OnErr result (text.new.items ≡ text.old.items) }
{
    let mut digits = Buffer::new();
    append(text, digits.format(number).as_bytes())
}

/// The words, and the number of an order behind them.
///
/// # Errors
///
/// `OutOfMemory` where memory was refused.
pub fn with_number(alloc: Global, words: &[u8], number: u64) -> Result<Vec<u8>, OutOfMemory>
    ensures { IfOk result (λ text. text.items ≡ words.now ++ decimal number) }
{
    let mut text = Vec::with_capacity(alloc, LINE_ROOM)?;
    append(&mut text, words)?;
    append_number(&mut text, number)?;
    Ok(text)
}

/// Puts the words, and a number behind them, in front of the line's end.
#[inline(always)]
fn put_with_number(line: &mut LineDraft, words: &[u8], number: u64)
    requires { length words.now + 20 + length line.old ≤ 128 }
    ensures written { line.new ≡ words.now ++ decimal number ++ line.old }
    ensures len { length line.new ≤ length words.now + 20 + length line.old }
{
    line.put_number(number);
    line.put(words);
}

/// Puts a fill in words in front of the line's end.
#[tactic(auto, unfolding(crate::specs::Printing::verdict_text))]
fn put_fill(line: &mut LineDraft, fill: &Fill)
    requires { length line.old ≤ 8 }
    ensures written { line.new ≡ verdict_text (Filled fill.now) ++ line.old }
    ensures len { length line.new ≤ 100 }
{
    put_with_number(line, b" ", u64::from(fill.price));
    put_with_number(line, b" ", u64::from(fill.shares));
    put_with_number(line, b" ", fill.maker);
    put_with_number(line, b"filled ", fill.taker);
}

/// Puts a verdict in words in front of the line's end.
#[tactic(auto, unfolding(crate::specs::Printing::verdict_text))]
#[inline(always)]
fn put_verdict(line: &mut LineDraft, verdict: &Verdict)
    requires { length line.old ≤ 8 }
    ensures written { line.new ≡ verdict_text verdict.now ++ line.old }
    ensures len { length line.new ≤ 100 }
{
    match verdict {
        Verdict::Granted => line.put(b"granted"),
        Verdict::Denied(rule) => {
            line.put(rule_text(rule));
            line.put(b"denied ");
        }
        Verdict::Filled(fill) => put_fill(line, fill),
        Verdict::Rested(order) => put_with_number(line, b"rested ", *order),
        Verdict::Expired(order) => put_with_number(line, b"expired ", *order),
    }
}

/// Puts a verdict in words at the end of the text.
///
/// # Errors
///
/// `OutOfMemory` where memory was refused.
pub fn append_verdict(text: &mut Vec<u8>, verdict: &Verdict) -> Result<(), OutOfMemory>
    ensures { OnOk result (text.new.items ≡ text.old.items ++ verdict_text verdict.now) }
{
    let mut words = LineDraft::new();
    put_verdict(&mut words, verdict);
    append(text, words.as_slice())
}

/// Puts the line of a record into an empty draft: its number and its verdict.
#[tactic(auto, unfolding(crate::specs::Printing::outcome_line))]
#[inline(always)]
fn put_outcome(line: &mut LineDraft, number: u64, verdict: &Verdict)
    requires { line.old ≡ [] }
    ensures { line.new ≡ outcome_line number verdict.now }
{
    line.put(b"\n");
    put_verdict(line, verdict);
    line.put(b" ");
    line.put_number(number);
}

/// Puts the line of a record at the end of the text: its number and its verdict.
///
/// # Errors
///
/// `OutOfMemory` where memory was refused.
pub fn append_outcome(text: &mut Vec<u8>, number: u64, verdict: &Verdict) -> Result<(), OutOfMemory>
    ensures { OnOk result (text.new.items ≡ text.old.items ++ outcome_line number verdict.now) }
{
    let mut line = LineDraft::new();
    put_outcome(&mut line, number, verdict);
    append(text, line.as_slice())
}

/// The line of a record: its number and its verdict.
///
/// # Errors
///
/// `OutOfMemory` where memory was refused.
pub fn outcome_line(alloc: Global, number: u64, verdict: &Verdict) -> Result<Vec<u8>, OutOfMemory>
    ensures { IfOk result (λ text. text.items ≡ outcome_line number verdict.now) }
{
    let mut line = LineDraft::new();
    put_outcome(&mut line, number, verdict);
    Ok(Vec::from_slice(alloc, line.as_slice())?)
}

/// Puts the line of a matching step where no order waits at the end of the text.
///
/// # Errors
///
/// `OutOfMemory` where memory was refused.
pub fn append_idle(text: &mut Vec<u8>) -> Result<(), OutOfMemory>
    ensures { OnOk result (text.new.items ≡ text.old.items ++ idle_line) }
{
    append(text, b"idle\n")
}

/// Puts the line of a step that a full day refuses at the end of the text.
pub fn append_refused(text: &mut Vec<u8>) -> Result<(), OutOfMemory>
    ensures { OnOk result (text.new.items ≡ text.old.items ++ refused_line) }
{
    append(text, b"refused DayFull\n")
}

/// Puts the bytes, which are no more than a message has, in hexadecimal digits at the end of the text.
fn append_digits(text: &mut Vec<u8>, bytes: &[u8]) -> Result<(), OutOfMemory>
    requires { length bytes.now ≤ MESSAGE_ROOM }
    ensures { OnOk result (text.new.items ≡ text.old.items ++ encode_lower bytes.now) }
{
    let mut room = [0u8; 2 * MESSAGE_ROOM];
    let digits = &mut room[..2 * bytes.len()];
    put_digits(bytes, digits);
    append(text, digits)
}

/// Puts the line of a report of a stream at the end of the text.
#[tactic(auto, unfolding(crate::specs::Printing::report_line))]
fn append_report(
    text: &mut Vec<u8>,
    user: UserName,
    number: u64,
    report: &Report,
) -> Result<(), OutOfMemory>
    ensures { OnOk result (text.new.items
        ≡ text.old.items ++ report_line user number report.now) }
{
    let mut room = [0u8; MESSAGE_ROOM];
    let length = report.write(&mut room);
    append(text, unpadded(&user.bytes))?;
    append(text, b" ")?;
    append_number(text, number)?;
    append(text, b" ")?;
    append_digits(text, &room[..length])?;
    append(text, b"\n")
}

/// Puts the lines of a user's reports, from the first on, at the end of the text.
///
/// # Errors
///
/// `OutOfMemory` where memory was refused.
pub fn append_reports(
    text: &mut Vec<u8>,
    user: UserName,
    reports: &[Report],
) -> Result<(), OutOfMemory>
    ensures { OnOk result (text.new.items
        ≡ text.old.items ++ report_lines user 1 reports.now) }
{
    for (index, report) in reports.iter().enumerate() {
        append_report(text, user, index as u64 + 1, report)?;
    }
    Ok(())
}
