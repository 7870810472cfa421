//! What commands ended, as the log tells it.

ghost use Rattle.std.specs.Prelude.{◌≡◌, ◌++◌, IfOk, OnOk};
ghost use Rattle.gx_text.specs.declared.form.Form.TheVariants.{Json, Text};
ghost use Rattle.gx_events.specs.Fields.{event_field, event_key, name_field, number_field};
ghost use Rattle.gx_listen.specs.EndedLines.{command_field, command_fields, ending_words, ended_fields, ended_line, ended_text, officer_fields, sum_fields};

use gx_door::EndedTotals;
use gx_log::Log;
use gx_serve::{EndedBy, EndedOrders};
use gx_text::{
    Decimals, Form, append, append_json_name, append_moment, append_name, append_number,
};
use gx_units::{OutOfMemory, UserName};
use std::alloc::Global;
use std::sync::Wait;

fn append_command_text(text: &mut Vec<u8>, by: &EndedBy) -> Result<(), OutOfMemory>
    ensures { OnOk result (text.new.items ≡ text.old.items ++ ending_words by.now) }
{
    match by {
        EndedBy::Kill(account) => {
            append(text, b"Kill of ")?;
            append_name(text, &account.bytes)
        }
        EndedBy::CloseDay => append(text, b"Close Day"),
    }
}

/// Puts a key at the end of the text, with the comma in front of it.
fn append_key(text: &mut Vec<u8>, word: &[u8]) -> Result<(), OutOfMemory>
    ensures { OnOk result (text.new.items ≡ text.old.items ++ event_key word.now) }
{
    append(text, b",\"")?;
    append(text, word)?;
    append(text, b"\":")
}

fn append_name_field(text: &mut Vec<u8>, word: &[u8], name: &[u8]) -> Result<(), OutOfMemory>
    ensures { OnOk result (text.new.items ≡ text.old.items ++ name_field word.now name.now) }
{
    append_key(text, word)?;
    append_json_name(text, name)
}

fn append_number_field(text: &mut Vec<u8>, word: &[u8], number: u64) -> Result<(), OutOfMemory>
    ensures { OnOk result (text.new.items ≡ text.old.items ++ number_field word.now number) }
{
    append_key(text, word)?;
    append_number(text, number)
}

fn append_event_field(text: &mut Vec<u8>, word: &[u8]) -> Result<(), OutOfMemory>
    ensures { OnOk result (text.new.items ≡ text.old.items ++ event_field word.now) }
{
    append(text, b",\"event\":\"")?;
    append(text, word)?;
    append(text, b"\"")
}

fn append_command_field(text: &mut Vec<u8>, word: &[u8]) -> Result<(), OutOfMemory>
    ensures { OnOk result (text.new.items ≡ text.old.items ++ command_field word.now) }
{
    append_key(text, b"command")?;
    append(text, b"\"")?;
    append(text, word)?;
    append(text, b"\"")
}

#[tactic(auto, unfolding(crate::specs::EndedLines::command_fields))]
fn append_command_fields(text: &mut Vec<u8>, by: &EndedBy) -> Result<(), OutOfMemory>
    ensures { OnOk result (text.new.items ≡ text.old.items ++ command_fields by.now) }
{
    match by {
        EndedBy::Kill(account) => {
            append_command_field(text, b"kill")?;
            append_name_field(text, b"account", &account.bytes)
        }
        EndedBy::CloseDay => append_command_field(text, b"close"),
    }
}

fn append_ended_text(text: &mut Vec<u8>, orders: &EndedOrders) -> Result<(), OutOfMemory>
    ensures { OnOk result (text.new.items ≡ text.old.items ++ ended_text orders.now) }
{
    append_command_text(text, &orders.by)?;
    append(text, b" by ")?;
    append_name(text, &orders.officer.bytes)?;
    append(text, b" (record ")?;
    append_number(text, orders.number)?;
    append(text, b") ended ")?;
    append_number(text, orders.ended.orders)?;
    append(text, b" orders, ")?;
    append_number(text, orders.ended.shares)?;
    append(text, b" shares")
}

#[tactic(auto, unfolding(crate::specs::EndedLines::officer_fields))]
fn append_officer_fields(text: &mut Vec<u8>, officer: UserName) -> Result<(), OutOfMemory>
    ensures { OnOk result (text.new.items ≡ text.old.items ++ officer_fields officer) }
{
    append_event_field(text, b"orders_ended")?;
    append_name_field(text, b"user", &officer.bytes)
}

#[tactic(auto, unfolding(crate::specs::EndedLines::sum_fields))]
fn append_sum_fields(text: &mut Vec<u8>, ended: EndedTotals) -> Result<(), OutOfMemory>
    ensures { OnOk result (text.new.items ≡ text.old.items ++ sum_fields ended) }
{
    append_number_field(text, b"orders", ended.orders)?;
    append_number_field(text, b"shares", ended.shares)
}

fn append_ended_fields(text: &mut Vec<u8>, orders: &EndedOrders) -> Result<(), OutOfMemory>
    ensures { OnOk result (text.new.items ≡ text.old.items ++ ended_fields orders.now) }
{
    append_officer_fields(text, orders.officer)?;
    append_command_fields(text, &orders.by)?;
    append_sum_fields(text, orders.ended)?;
    append_number_field(text, b"record", orders.number)
}

#[tactic(auto, unfolding(crate::specs::EndedLines::ended_line))]
fn text_line(alloc: Global, orders: &EndedOrders) -> Result<Vec<u8>, OutOfMemory>
    ensures { IfOk result (λ line. line.items ≡ ended_line Text orders.now) }
{
    let mut line = Vec::new(alloc);
    append_moment(&mut line, orders.moment, Decimals::Six)?;
    append(&mut line, b" ")?;
    append_ended_text(&mut line, orders)?;
    append(&mut line, b"\n")?;
    Ok(line)
}

#[tactic(auto, unfolding(crate::specs::EndedLines::ended_line))]
fn json_line(alloc: Global, orders: &EndedOrders) -> Result<Vec<u8>, OutOfMemory>
    ensures { IfOk result (λ line. line.items ≡ ended_line Json orders.now) }
{
    let mut line = Vec::new(alloc);
    append(&mut line, b"{\"at\":\"")?;
    append_moment(&mut line, orders.moment, Decimals::Nine)?;
    append(&mut line, b"\"")?;
    append_ended_fields(&mut line, orders)?;
    append(&mut line, b"}\n")?;
    Ok(line)
}

/// The line that tells, in this form, what a command ended.
fn ended_line(alloc: Global, form: Form, orders: &EndedOrders) -> Result<Vec<u8>, OutOfMemory>
    ensures { IfOk result (λ line. line.items ≡ ended_line form orders.now) }
{
    match form {
        Form::Text => text_line(alloc, orders),
        Form::Json => json_line(alloc, orders),
    }
}

/// Tells what a command ended, where a log is asked for.
pub(crate) fn tell_ended<R: Wait>(rt: &R, alloc: Global, log: &Log, orders: &EndedOrders) {
    let Some(form) = log.form() else {
        return;
    };
    match ended_line(alloc, form, orders) {
        Ok(line) => log.tell(rt, line.as_slice()),
        Err(_) => log.leave_out(rt),
    }
}
