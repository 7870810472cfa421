//! What is told of the Kills of one command, once all are answered, or no answer is waited for any more.

use gx_operator::{ClientRequest, KillOutcome, KillRound};
use gx_text::{Form, append, append_json_string, append_name, append_number, append_shown};
use gx_units::{OutOfMemory, unpadded};
use std::alloc::Global;

/// Puts a number behind and in front of these words at the end of the line.
fn append_count(
    line: &mut Vec<u8>,
    front: &[u8],
    count: usize,
    behind: &[u8],
) -> Result<(), OutOfMemory> {
    append(line, front)?;
    append_number(line, count as u64)?;
    append(line, behind)
}

/// Puts the account of a Kill at the end of the line, where it came to this.
fn append_account(
    line: &mut Vec<u8>,
    round: &KillRound,
    wanted: KillOutcome,
    kill: &ClientRequest,
) -> Result<(), OutOfMemory> {
    match kill.killed_account() {
        Some(account) if round.came_to(wanted, kill) => {
            append(line, b" ")?;
            append_name(line, &account.bytes)
        }
        _ => Ok(()),
    }
}

/// Puts how many accounts came to this, and which, at the end of the line, if there are any.
fn append_named(
    line: &mut Vec<u8>,
    round: &KillRound,
    wanted: KillOutcome,
    words: &[u8],
) -> Result<(), OutOfMemory> {
    let count = round.count(wanted);
    if count == 0 {
        return Ok(());
    }
    append_count(line, b", ", count, words)?;
    for kill in round.kills() {
        append_account(line, round, wanted, kill)?;
    }
    Ok(())
}

/// Puts how many accounts were killed already at the end of the line, if there are any.
fn append_already(line: &mut Vec<u8>, count: usize) -> Result<(), OutOfMemory> {
    match count {
        0 => Ok(()),
        1 => append(line, b", 1 was killed already"),
        _ => append_count(line, b", ", count, b" were killed already"),
    }
}

/// Puts where the accounts come from at the end of the line, where a file alone tells them.
fn append_file(line: &mut Vec<u8>, file: Option<&[u8]>) -> Result<(), OutOfMemory> {
    let Some(file) = file else {
        return Ok(());
    };
    append(line, b" (the accounts are those of ")?;
    append_shown(line, file)?;
    append(line, b"; the server's policy may have others)")
}

fn append_text(
    line: &mut Vec<u8>,
    round: &KillRound,
    file: Option<&[u8]>,
) -> Result<(), OutOfMemory> {
    match round.kills().len() {
        1 => append(line, b"1 account: ")?,
        count => append_count(line, b"", count, b" accounts: ")?,
    }
    append_count(line, b"", round.count(KillOutcome::Killed), b" killed")?;
    append_already(line, round.count(KillOutcome::KilledAlready))?;
    append_named(line, round, KillOutcome::Denied, b" denied:")?;
    append_named(line, round, KillOutcome::NotAnswered, b" not answered:")?;
    append_file(line, file)?;
    append(line, b"\n")
}

/// Puts the account of a Kill at the end of a list of JSON, where it is not known to be killed.
fn append_json_account(
    line: &mut Vec<u8>,
    round: &KillRound,
    kill: &ClientRequest,
) -> Result<(), OutOfMemory> {
    let is_named = matches!(
        round.outcome(kill),
        KillOutcome::Denied | KillOutcome::NotAnswered
    );
    let Some(account) = kill.killed_account() else {
        return Ok(());
    };
    if !is_named {
        return Ok(());
    }
    if line.as_slice().last() != Some(&b'[') {
        append(line, b",")?;
    }
    append_json_string(line, unpadded(&account.bytes))
}

/// Puts the accounts that are not known to be killed at the end of a line of JSON.
fn append_not_killed(line: &mut Vec<u8>, round: &KillRound) -> Result<(), OutOfMemory> {
    append(line, b",\"not_killed\":[")?;
    for kill in round.kills() {
        append_json_account(line, round, kill)?;
    }
    append(line, b"]")
}

fn append_json_file(line: &mut Vec<u8>, file: Option<&[u8]>) -> Result<(), OutOfMemory> {
    let Some(file) = file else {
        return Ok(());
    };
    append(line, b",\"policy\":")?;
    append_json_string(line, file)
}

fn append_json(
    line: &mut Vec<u8>,
    round: &KillRound,
    file: Option<&[u8]>,
) -> Result<(), OutOfMemory> {
    let fields: [(&[u8], KillOutcome); 4] = [
        (b",\"killed\":", KillOutcome::Killed),
        (b",\"killed_already\":", KillOutcome::KilledAlready),
        (b",\"denied\":", KillOutcome::Denied),
        (b",\"not_answered\":", KillOutcome::NotAnswered),
    ];
    append_count(
        line,
        b"{\"event\":\"kills\",\"accounts\":",
        round.kills().len(),
        b"",
    )?;
    for (front, outcome) in fields {
        append_count(line, front, round.count(outcome), b"")?;
    }
    append_not_killed(line, round)?;
    append_json_file(line, file)?;
    append(line, b"}\n")
}

/// The line that sums up what became of the accounts, with the LF at its end: how many were killed, were killed already,
/// were denied and have no answer, the names of the last two, and the file, if that alone tells the accounts.
pub(crate) fn kills_line(
    alloc: Global,
    form: Form,
    round: &KillRound,
    file: Option<&[u8]>,
) -> Result<Vec<u8>, OutOfMemory> {
    let mut line = Vec::new(alloc);
    match form {
        Form::Text => append_text(&mut line, round, file)?,
        Form::Json => append_json(&mut line, round, file)?,
    }
    Ok(line)
}
