//! Lines of a script, written.

use crate::line::{ScriptLine, ScriptStep};
use crate::printing::{append, append_number};
use gx_desk::{Action, Command};
use gx_ouch::{CancelOrder, EnterOrder, ReplaceOrder};
use gx_units::{OutOfMemory, unpadded};
use std::alloc::Global;

/// Puts words more at the end of the line, each without the spaces that fill it up.
fn add(line: &mut Vec<u8>, words: &[&[u8]]) -> Result<(), OutOfMemory> {
    for word in words {
        append(line, b" ")?;
        append(line, unpadded(word))?;
    }
    Ok(())
}

/// Puts a number more at the end of the line.
fn add_number(line: &mut Vec<u8>, number: u64) -> Result<(), OutOfMemory> {
    append(line, b" ")?;
    append_number(line, number)
}

/// Puts these more at the end of the line.
fn add_numbers(line: &mut Vec<u8>, numbers: &[u32]) -> Result<(), OutOfMemory> {
    for number in numbers {
        add_number(line, u64::from(*number))?;
    }
    Ok(())
}

fn add_enter(line: &mut Vec<u8>, order: &EnterOrder) -> Result<(), OutOfMemory> {
    add(line, &[b"enter", &order.token.bytes, &[order.side]])?;
    add_numbers(line, &[order.shares])?;
    add(line, &[&order.stock.bytes])?;
    add_numbers(line, &[order.price, order.time_in_force])
}

fn add_replace(line: &mut Vec<u8>, order: &ReplaceOrder) -> Result<(), OutOfMemory> {
    add(
        line,
        &[
            b"replace",
            &order.existing_token.bytes,
            &order.replacement_token.bytes,
        ],
    )?;
    add_numbers(line, &[order.shares, order.price, order.time_in_force])
}

fn add_cancel(line: &mut Vec<u8>, order: &CancelOrder) -> Result<(), OutOfMemory> {
    add(line, &[b"cancel", &order.token.bytes])?;
    add_numbers(line, &[order.shares])
}

/// What a command names behind its tag.
fn add_named(line: &mut Vec<u8>, action: &Action) -> Result<(), OutOfMemory> {
    match action {
        Action::Kill(account) | Action::Lift(account) => add(line, &[&account.bytes]),
        Action::SetLimit(rule, limit) => {
            add(line, &[&rule.bytes])?;
            add_number(line, *limit)
        }
        Action::Restrict(rule, stock) | Action::Unrestrict(rule, stock) => {
            add(line, &[&rule.bytes, &stock.bytes])
        }
        Action::Grant(reader, account) | Action::Revoke(reader, account) => {
            add(line, &[&reader.bytes, &account.bytes])
        }
        Action::CloseDay => Ok(()),
    }
}

fn add_command(line: &mut Vec<u8>, command: &Command) -> Result<(), OutOfMemory> {
    add(line, &[command.action.word()])?;
    add(line, &[&command.tag.bytes])?;
    add_named(line, &command.action)
}

fn add_login(line: &mut Vec<u8>, password: &[u8], wanted: u64) -> Result<(), OutOfMemory> {
    add(line, &[b"login", password])?;
    add_number(line, wanted)
}

fn add_raw(line: &mut Vec<u8>, payload: &[u8]) -> Result<(), OutOfMemory> {
    let digits = hex::encode(*line.allocator(), payload)?;
    add(line, &[b"raw", digits.as_bytes()])
}

/// What a user asks for: `payload` is what `raw` spells.
fn add_step(line: &mut Vec<u8>, step: &ScriptStep, payload: &[u8]) -> Result<(), OutOfMemory> {
    match step {
        ScriptStep::Login(password, wanted) => add_login(line, &password.bytes, *wanted),
        ScriptStep::Logout => add(line, &[b"logout"]),
        ScriptStep::Enter(order) => add_enter(line, order),
        ScriptStep::Replace(order) => add_replace(line, order),
        ScriptStep::Cancel(order) => add_cancel(line, order),
        ScriptStep::Command(command) => add_command(line, command),
        ScriptStep::Raw(_) => add_raw(line, payload),
    }
}

/// A moment, and the word behind it.
fn add_timed(text: &mut Vec<u8>, moment: u64, word: &[u8]) -> Result<(), OutOfMemory> {
    append_number(text, moment)?;
    add(text, &[word])
}

fn add_line(text: &mut Vec<u8>, line: &ScriptLine, payload: &[u8]) -> Result<(), OutOfMemory> {
    match line {
        ScriptLine::Skipped => append(text, b"#"),
        ScriptLine::Step(moment, user, step) => {
            add_timed(text, *moment, &user.bytes)?;
            add_step(text, step, payload)
        }
        ScriptLine::Match(moment) => add_timed(text, *moment, b"match"),
        ScriptLine::Settle(moment) => add_timed(text, *moment, b"settle"),
        ScriptLine::Stream(user) => {
            append(text, b"stream")?;
            add(text, &[&user.bytes])
        }
    }
}

/// Whether the text, read as a line, says this.
fn says(text: &[u8], line: &ScriptLine) -> bool {
    match ScriptLine::read(text) {
        Ok(read) => read == *line,
        Err(_) => false,
    }
}

impl ScriptLine {
    /// The words of the line, without an LF; None where no words say it. `payload` is what `raw` spells.
    pub fn write(&self, alloc: Global, payload: &[u8]) -> Result<Option<Vec<u8>>, OutOfMemory> {
        let mut text = Vec::new(alloc);
        add_line(&mut text, self, payload)?;
        if says(text.as_slice(), self) {
            return Ok(Some(text));
        }
        Ok(None)
    }
}
