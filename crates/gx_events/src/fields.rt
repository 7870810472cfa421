//! An event as the fields of a JSON object.

ghost use Rattle.std.specs.Prelude.{◌≡◌, ◌++◌, codes, OnOk};
ghost use Rattle.gx_desk.specs.{Names.command_word, declared.Action.TheVariants.SetLimit};
ghost use Rattle.gx_events.specs.{Fields.{count_fields, event_field, event_fields, from_field, event_key, login_fields, minute_field, name_field, named_fields, number_field, used_fields}, declared.event.Event.TheVariants.{LoginDenied, MoreDenied, Commanded, CommandDenied}};

use crate::event::Event;
use crate::limits::{RuleLimit, limit_in_entry};
use gx_desk::Action;
use gx_policy::RuleName;
use gx_text::{append, append_json_name, append_minute, append_number};
use gx_units::{OutOfMemory, RuleId, UserName};

/// Puts a key at the end of the text, with the comma in front of it.
fn append_key(text: &mut Vec<u8>, word: &[u8]) -> Result<(), OutOfMemory>
    ensures { OnOk result (text.new.items ≡ text.old.items ++ event_key word.now) }
{
    append(text, b",\"")?;
    append(text, word)?;
    append(text, b"\":")
}

fn append_name_field(text: &mut Vec<u8>, word: &[u8], name: &[u8]) -> Result<(), OutOfMemory>
    ensures { OnOk result (text.new.items ≡ text.old.items ++ name_field word.now name.now) }
{
    append_key(text, word)?;
    append_json_name(text, name)
}

/// Puts a key and a number at the end of the text.
pub(crate) fn append_number_field(
    text: &mut Vec<u8>,
    word: &[u8],
    number: u64,
) -> Result<(), OutOfMemory>
    ensures { OnOk result (text.new.items ≡ text.old.items ++ number_field word.now number) }
{
    append_key(text, word)?;
    append_number(text, number)
}

fn append_event_field(text: &mut Vec<u8>, word: &[u8]) -> Result<(), OutOfMemory>
    ensures { OnOk result (text.new.items ≡ text.old.items ++ event_field word.now) }
{
    append(text, b",\"event\":\"")?;
    append(text, word)?;
    append(text, b"\"")
}

fn append_from_field(text: &mut Vec<u8>, earlier: Option<u64>) -> Result<(), OutOfMemory>
    ensures { OnOk result (text.new.items ≡ text.old.items ++ from_field earlier) }
{
    match earlier {
        Some(limit) => append_number_field(text, b"from", limit),
        None => Ok(()),
    }
}

#[tactic(auto, unfolding(crate::specs::Fields::named_fields))]
fn append_limit_fields(
    text: &mut Vec<u8>,
    rule: &RuleId,
    earlier: Option<u64>,
    limit: u64,
) -> Result<(), OutOfMemory>
    ensures { OnOk result (text.new.items
        ≡ text.old.items ++ named_fields (SetLimit rule.now limit) earlier) }
{
    append_name_field(text, b"rule", &rule.bytes)?;
    append_from_field(text, earlier)?;
    append_number_field(text, b"to", limit)
}

/// Puts what a command names at the end of the text.
#[tactic(auto, unfolding(crate::specs::Fields::named_fields))]
fn append_named_fields(
    text: &mut Vec<u8>,
    action: &Action,
    earlier: Option<u64>,
) -> Result<(), OutOfMemory>
    ensures { OnOk result (text.new.items ≡ text.old.items ++ named_fields action.now earlier) }
{
    match action {
        Action::Kill(account) | Action::Lift(account) => {
            append_name_field(text, b"account", &account.bytes)
        }
        Action::SetLimit(rule, limit) => append_limit_fields(text, rule, earlier, *limit),
        Action::Restrict(rule, stock) | Action::Unrestrict(rule, stock) => {
            append_name_field(text, b"rule", &rule.bytes)?;
            append_name_field(text, b"stock", &stock.bytes)
        }
        Action::Grant(reader, account) | Action::Revoke(reader, account) => {
            append_name_field(text, b"reader", &reader.bytes)?;
            append_name_field(text, b"account", &account.bytes)
        }
        Action::CloseDay => Ok(()),
    }
}

fn append_login_fields(
    text: &mut Vec<u8>,
    word: &[u8],
    user: &UserName,
    line: u16,
) -> Result<(), OutOfMemory>
    ensures { OnOk result (text.new.items
        ≡ text.old.items ++ login_fields word.now user.now.bytes line) }
{
    append_event_field(text, word)?;
    append_name_field(text, b"user", &user.bytes)?;
    append_number_field(text, b"line", u64::from(line))
}

#[tactic(auto, unfolding(crate::specs::Fields::event_fields))]
fn append_login_denied_fields(
    text: &mut Vec<u8>,
    user: &UserName,
    line: u16,
    rule: &RuleName,
) -> Result<(), OutOfMemory>
    ensures { OnOk result (text.new.items
        ≡ text.old.items ++ event_fields (LoginDenied user.now line rule.now)) }
{
    append_login_fields(text, b"login_denied", user, line)?;
    append_name_field(text, b"denied_by", rule.written())
}

fn append_minute_field(text: &mut Vec<u8>, minute: u64) -> Result<(), OutOfMemory>
    ensures { OnOk result (text.new.items ≡ text.old.items ++ minute_field minute) }
{
    append_key(text, b"minute")?;
    append(text, b"\"")?;
    append_minute(text, minute)?;
    append(text, b"\"")
}

fn append_count_fields(
    text: &mut Vec<u8>,
    word: &[u8],
    minute: u64,
    count: u64,
) -> Result<(), OutOfMemory>
    ensures { OnOk result (text.new.items
        ≡ text.old.items ++ count_fields word.now minute count) }
{
    append_event_field(text, word)?;
    append_minute_field(text, minute)?;
    append_number_field(text, b"count", count)
}

#[tactic(auto, unfolding(crate::specs::Fields::event_fields))]
fn append_more_denied_fields(text: &mut Vec<u8>, count: u64, minute: u64) -> Result<(), OutOfMemory>
    ensures { OnOk result (text.new.items
        ≡ text.old.items ++ event_fields (MoreDenied count minute)) }
{
    append_count_fields(text, b"more_logins_denied", minute, count)
}

#[tactic(auto, unfolding(crate::specs::Fields::event_fields))]
fn append_commanded_fields(
    text: &mut Vec<u8>,
    user: &UserName,
    action: &Action,
    earlier: Option<RuleLimit>,
) -> Result<(), OutOfMemory>
    ensures { OnOk result (text.new.items
        ≡ text.old.items ++ event_fields (Commanded user.now action.now earlier)) }
{
    append_event_field(text, action.word())?;
    append_name_field(text, b"user", &user.bytes)?;
    append_named_fields(text, action, limit_in_entry(earlier))
}

/// Puts the key `event` at the end of the text: the word of the command, and that it is denied.
fn append_denied_field(text: &mut Vec<u8>, action: &Action) -> Result<(), OutOfMemory>
    ensures { OnOk result (text.new.items
        ≡ text.old.items ++ event_field (command_word action.now ++ codes "_denied")) }
{
    append(text, b",\"event\":\"")?;
    append(text, action.word())?;
    append(text, b"_denied\"")
}

#[tactic(auto, unfolding(crate::specs::Fields::event_fields))]
fn append_command_denied_fields(
    text: &mut Vec<u8>,
    user: &UserName,
    action: &Action,
    rule: &RuleName,
    earlier: Option<RuleLimit>,
) -> Result<(), OutOfMemory>
    ensures { OnOk result (text.new.items
        ≡ text.old.items ++ event_fields (CommandDenied user.now action.now rule.now earlier)) }
{
    append_denied_field(text, action)?;
    append_name_field(text, b"user", &user.bytes)?;
    append_named_fields(text, action, None)?;
    append_name_field(text, b"denied_by", rule.written())
}

fn append_used_fields(
    text: &mut Vec<u8>,
    word: &[u8],
    percent: u64,
    left: u64,
) -> Result<(), OutOfMemory>
    ensures { OnOk result (text.new.items ≡ text.old.items ++ used_fields word.now percent left) }
{
    append_event_field(text, word)?;
    append_number_field(text, b"percent", percent)?;
    append_number_field(text, b"left", left)
}

/// Puts the event, as fields of a JSON object, at the end of the text.
#[tactic(auto, unfolding(crate::specs::Fields::event_fields))]
pub(crate) fn append_event_fields(text: &mut Vec<u8>, event: &Event) -> Result<(), OutOfMemory>
    ensures { OnOk result (text.new.items ≡ text.old.items ++ event_fields event.now) }
{
    match event {
        Event::LoggedIn(user, line) => append_login_fields(text, b"login", user, *line),
        Event::LoggedOut(user, line) => append_login_fields(text, b"logout", user, *line),
        Event::LoginDenied(user, line, rule) => {
            append_login_denied_fields(text, user, *line, rule)
        }
        Event::MoreDenied(count, minute) => append_more_denied_fields(text, *count, *minute),
        Event::Commanded(user, action, earlier) => {
            append_commanded_fields(text, user, action, *earlier)
        }
        Event::CommandDenied(user, action, rule, earlier) => {
            append_command_denied_fields(text, user, action, rule, *earlier)
        }
        Event::RecordsUsed(percent, left) => {
            append_used_fields(text, b"records_used", *percent, *left)
        }
        Event::LinesUsed(percent, left) => append_used_fields(text, b"lines_used", *percent, *left),
    }
}
