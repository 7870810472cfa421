//! The records of an audit, as a person reads them.

ghost use Rattle.std.specs.Prelude.{◌≡◌, ◌^◌, ◌-◌, ◌<◌, OnOk};

use crate::style::{ShownForm, Style};
use crate::table::{record_csv, record_json};
use gx_audit_bytes::{RECORD_SIZE, message_shown, write_record};
use gx_devices::{CallCounter, WriteFault, write_flushing, write_whole};
use gx_endings::endings::Ending;
use gx_fields::{EndedOrders, csv_names, reason_of, reject_of};
use gx_history::record::{Asked, Login, Record, RecordData, Request, Step, Unreadable, Verdict};
use gx_policy::{Policy, RuleName};
use gx_script_text::{ScriptLine, ScriptStep, append, append_number, outcome_line};
use gx_text::{Decimals, append_moment};
use gx_units::{OutOfMemory, Password, unpadded};
use std::alloc::Global;
use std::io::Write;

/// The word for a right password: a record holds none.
const RIGHT: Password = Password {
    bytes: *b"RIGHT     ",
};

/// The word for a wrong password.
const WRONG: Password = Password {
    bytes: *b"WRONG     ",
};

/// The most bytes of a payload that is no message, as a line has room for them.
const PAYLOAD_ROOM: usize = 400;

/// The form of a script's line for a login; none is for another session than the day's.
fn login_form(login: &Login) -> Option<ScriptStep> {
    if !login.session_is_right {
        return None;
    }
    if login.password_is_right {
        return Some(ScriptStep::Login(RIGHT, login.wanted));
    }
    Some(ScriptStep::Login(WRONG, login.wanted))
}

/// The form of a script's line for what was asked.
fn form_of(request: &Request) -> Option<ScriptStep> {
    match request {
        Request::Login(login) => login_form(login),
        Request::Logout => Some(ScriptStep::Logout),
        Request::Unreadable(_) => None,
        Request::Enter(order) => Some(ScriptStep::Enter(*order)),
        Request::Replace(order) => Some(ScriptStep::Replace(*order)),
        Request::Cancel(order) => Some(ScriptStep::Cancel(*order)),
        Request::Command(command) => Some(ScriptStep::Command(*command)),
    }
}

/// The script's line for what was asked, in the words of its form where they say it, else as `raw`.
fn asked_text(
    alloc: Global,
    asked: &Asked,
    payload: &[u8],
) -> Result<Option<Vec<u8>>, OutOfMemory> {
    if let Some(step) = form_of(&asked.request) {
        let line = ScriptLine::Step(asked.handed, asked.user, step);
        if let Some(text) = line.write(alloc, payload)? {
            return Ok(Some(text));
        }
    }
    let raw = ScriptStep::Raw(asked.request);
    ScriptLine::Step(asked.handed, asked.user, raw).write(alloc, payload)
}

/// A payload as the record shows it: its first byte, and zero bytes in the place of the others.
fn unread_payload<'a>(payload: &Unreadable, room: &'a mut [u8; PAYLOAD_ROOM]) -> &'a [u8] {
    let size = usize::from(payload.length);
    if size == 0 || size > PAYLOAD_ROOM {
        return &room[..0];
    }
    room[0] = payload.first;
    &room[..size]
}

/// The script's line for a step; None where no line of a script asks for it.
fn script_text(
    alloc: Global,
    step: &Step,
    bytes: &[u8; RECORD_SIZE],
) -> Result<Option<Vec<u8>>, OutOfMemory> {
    match step {
        Step::Matching(handed) => ScriptLine::Match(*handed).write(alloc, b""),
        Step::Asked(asked) => match &asked.request {
            Request::Unreadable(payload) => {
                let mut room = [0u8; PAYLOAD_ROOM];
                asked_text(alloc, asked, unread_payload(payload, &mut room))
            }
            _ => asked_text(alloc, asked, message_shown(bytes)),
        },
    }
}

/// Puts a name last, each byte that is no visible one as `?`.
fn append_name(text: &mut Vec<u8>, name: &[u8]) -> Result<(), OutOfMemory> {
    for byte in unpadded(name) {
        let shown = if *byte > b' ' && *byte < 127 {
            *byte
        } else {
            b'?'
        };
        append(text, &[shown])?;
    }
    Ok(())
}

/// What was asked where no line of a script asks for it.
fn append_unsaid(text: &mut Vec<u8>, request: &Request) -> Result<(), OutOfMemory> {
    match request {
        Request::Login(login) => {
            append(text, b" login")?;
            if !login.password_is_right {
                append(text, b" with a wrong password")?;
            }
            if !login.session_is_right {
                append(text, b" to another session")?;
            }
            append(text, b" from ")?;
            append_number(text, login.wanted)
        }
        Request::Logout => append(text, b" logout"),
        Request::Unreadable(payload) => {
            append(text, b" unreadable payload of ")?;
            append_number(text, u64::from(payload.length))?;
            append(text, b" bytes")
        }
        Request::Enter(_) => append(text, b" enter"),
        Request::Replace(_) => append(text, b" replace"),
        Request::Cancel(_) => append(text, b" cancel"),
        Request::Command(_) => append(text, b" command"),
    }
}

/// A comment that says what was asked, where no line of a script asks for it.
fn comment(alloc: Global, asked: &Asked) -> Result<Vec<u8>, OutOfMemory> {
    let mut text = Vec::from_slice(alloc, b"# ")?;
    append_number(&mut text, asked.handed)?;
    append(&mut text, b" ")?;
    append_name(&mut text, &asked.user.bytes)?;
    append_unsaid(&mut text, &asked.request)?;
    Ok(text)
}

/// What was asked, as a script's line or as a comment.
fn step_text(
    alloc: Global,
    step: &Step,
    bytes: &[u8; RECORD_SIZE],
) -> Result<Vec<u8>, OutOfMemory> {
    if let Some(text) = script_text(alloc, step, bytes)? {
        return Ok(text);
    }
    match step {
        Step::Asked(asked) => comment(alloc, asked),
        Step::Matching(_) => Ok(Vec::from_slice(alloc, b"#")?),
    }
}

/// Puts behind a step ` # `, its line and moment, and its number and verdict.
fn append_outcome(text: &mut Vec<u8>, shown: &RecordData) -> Result<(), OutOfMemory> {
    append(text, b" # ")?;
    if let Step::Asked(asked) = &shown.step {
        append(text, b"line ")?;
        append_number(text, u64::from(asked.line))?;
        append(text, b" ")?;
    }
    append(text, b"at ")?;
    append_number(text, shown.moment)?;
    append(text, b": ")?;
    let outcome = outcome_line(*text.allocator(), shown.number, &shown.verdict)?;
    append(text, outcome.as_slice())
}

/// The line of a record: what was asked, as a script's line, and behind ` # ` what became of it.
fn record_line(
    alloc: Global,
    shown: &RecordData,
    bytes: &[u8; RECORD_SIZE],
) -> Result<Vec<u8>, OutOfMemory> {
    let mut text = step_text(alloc, &shown.step, bytes)?;
    append_outcome(&mut text, shown)?;
    Ok(text)
}

/// Puts a moment as a clock shows it in front, if that is asked for.
fn append_clock(text: &mut Vec<u8>, style: &Style, moment: u64) -> Result<(), OutOfMemory> {
    if style.has_clock {
        append_moment(text, moment, Decimals::Six)?;
        append(text, b" ")?;
    }
    Ok(())
}

/// Puts behind a denial why it was denied, and the letter of its Rejected.
fn append_reason(text: &mut Vec<u8>, policy: &Policy, rule: RuleName) -> Result<(), OutOfMemory> {
    let Some(reason) = reason_of(policy, rule) else {
        return Ok(());
    };
    append(text, b" (")?;
    append(text, reason.words())?;
    if let Some(reject) = reject_of(policy, rule) {
        append(text, b", reject ")?;
        append(text, &[reject.letter()])?;
    }
    append(text, b")")
}

/// Puts why the request was denied behind the line, if it was and that is asked for.
fn append_words(
    text: &mut Vec<u8>,
    policy: &Policy,
    style: &Style,
    verdict: &Verdict,
) -> Result<(), OutOfMemory> {
    match verdict.denied_by() {
        Some(rule) if style.has_words => append_reason(text, policy, rule),
        _ => Ok(()),
    }
}

/// Puts what the record ended behind the line, if it ended anything and that is asked for.
fn append_ended(
    text: &mut Vec<u8>,
    style: &Style,
    ended: Option<EndedOrders>,
) -> Result<(), OutOfMemory> {
    let Some(ended) = ended else {
        return Ok(());
    };
    if !style.has_words {
        return Ok(());
    }
    append(text, b" (ended ")?;
    append_number(text, ended.orders)?;
    append(text, b" orders, ")?;
    append_number(text, ended.shares)?;
    append(text, b" shares)")
}

/// The line of a record as text.
fn text_line(
    alloc: Global,
    policy: &Policy,
    style: &Style,
    shown: &RecordData,
    bytes: &[u8; RECORD_SIZE],
    ended: Option<EndedOrders>,
) -> Result<Vec<u8>, OutOfMemory> {
    let mut text = Vec::new(alloc);
    append_clock(&mut text, style, shown.moment)?;
    let line = record_line(alloc, shown, bytes)?;
    append(&mut text, without_end(line.as_slice()))?;
    append_words(&mut text, policy, style, &shown.verdict)?;
    append_ended(&mut text, style, ended)?;
    append(&mut text, b"\n")?;
    Ok(text)
}

/// The line without its end.
fn without_end(line: &[u8]) -> &[u8] {
    match line {
        [front @ .., b'\n'] => front,
        _ => line,
    }
}

/// The line of a record in this style.
fn line_of(
    alloc: Global,
    policy: &Policy,
    style: &Style,
    shown: &RecordData,
    bytes: &[u8; RECORD_SIZE],
    ended: Option<EndedOrders>,
) -> Result<Vec<u8>, OutOfMemory> {
    match style.form {
        ShownForm::Text => text_line(alloc, policy, style, shown, bytes, ended),
        ShownForm::Csv => record_csv(alloc, policy, shown, ended),
        ShownForm::Json => record_json(alloc, policy, shown, ended),
    }
}

/// Writes what stands above the lines of this style.
fn write_head<W: Write>(
    alloc: Global,
    style: &Style,
    writer: &mut CallCounter<W>,
) -> Result<(), WriteFault>
    requires writer { writer.old.failed < 2 ^ 64 - 1 }
    ensures same { OnOk result (writer.new.failed ≡ writer.old.failed) }
{
    if style.form == ShownForm::Csv {
        let names = csv_names(alloc)?;
        write_flushing(writer, names.as_slice(), false)?;
    }
    Ok(())
}

/// What the record of this number ended, if it is among these endings, which stand by rising number.
fn ended_by(endings: &[Ending], number: u64) -> Option<EndedOrders> {
    let place = endings.partition_point(|ending| ending.number < number);
    let ending = endings.get(place)?;
    if ending.number != number {
        return None;
    }
    Some(EndedOrders {
        orders: ending.orders,
        shares: u64::try_from(ending.shares).unwrap_or(u64::MAX),
    })
}

/// The line of a record in this style, with what it ended.
fn line_with(
    alloc: Global,
    policy: &Policy,
    style: &Style,
    record: &Record,
    endings: &[Ending],
) -> Result<Vec<u8>, OutOfMemory> {
    let shown = record.content();
    let ended = ended_by(endings, shown.number);
    line_of(alloc, policy, style, &shown, &write_record(record), ended)
}

/// Writes the records in this style, a line for each, in their order, with what Kills and Close Days among them ended, where
/// it stands among the endings, which are by rising number. The writer is flushed behind the last line.
///
/// # Errors
///
/// Where the writer failed or memory was refused; then a part of them may be written.
pub fn write_records<W: Write>(
    alloc: Global,
    policy: &Policy,
    style: &Style,
    records: &[Record],
    endings: &[Ending],
    writer: &mut CallCounter<W>,
) -> Result<(), WriteFault>
    requires writer { writer.old.failed < 2 ^ 64 - 1 }
{
    write_head(alloc, style, writer)?;
    for each in records {
        let line = line_with(alloc, policy, style, each, endings)?;
        write_flushing(writer, line.as_slice(), false)?;
    }
    write_whole(writer, b"")?;
    Ok(())
}
