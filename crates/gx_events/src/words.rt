//! An event in words.

ghost use Rattle.std.specs.Prelude.{◌≡◌, ◌++◌, decimal, OnOk};
ghost use Rattle.gx_events.specs.{Words.{asked_text, words_between, by_user, denied_by_text, done_text, event_text, from_text, limit_text, minute_count, of_both, of_name, on_line, to_text, used_text}, declared.event.Event.TheVariants.{LoginDenied, MoreDenied, Commanded, CommandDenied, RecordsUsed, LinesUsed}};
ghost use Rattle.gx_desk.specs.declared.Action.TheVariants.{SetLimit};

use crate::event::Event;
use crate::limits::{RuleLimit, limit_in_entry};
use gx_desk::Action;
use gx_money::append_dollars;
use gx_policy::RuleName;
use gx_text::{append, append_minute, append_name, append_number};
use gx_units::{OutOfMemory, RuleId, UserName};

/// Puts words and a name at the end of the text.
fn append_of_name(text: &mut Vec<u8>, words: &[u8], name: &[u8]) -> Result<(), OutOfMemory>
    ensures { OnOk result (text.new.items ≡ text.old.items ++ of_name words.now name.now) }
{
    append(text, words)?;
    append_name(text, name)
}

/// Puts words between two names at the end of the text.
fn append_between(
    text: &mut Vec<u8>,
    first: &[u8],
    words: &[u8],
    second: &[u8],
) -> Result<(), OutOfMemory>
    ensures { OnOk result (text.new.items
        ≡ text.old.items ++ words_between first.now words.now second.now) }
{
    append_name(text, first)?;
    append_of_name(text, words, second)
}

/// Puts words and a number at the end of the text.
fn append_with_number(text: &mut Vec<u8>, words: &[u8], number: u64) -> Result<(), OutOfMemory>
    ensures { OnOk result (text.new.items ≡ text.old.items ++ words.now ++ decimal number) }
{
    append(text, words)?;
    append_number(text, number)
}

/// Puts words and a name, and words and a name behind them, at the end of the text.
fn append_of_both(
    text: &mut Vec<u8>,
    front: &[u8],
    first: &[u8],
    words: &[u8],
    second: &[u8],
) -> Result<(), OutOfMemory>
    ensures { OnOk result (text.new.items
        ≡ text.old.items ++ of_both front.now first.now words.now second.now) }
{
    append(text, front)?;
    append_between(text, first, words, second)
}

fn append_on_line(
    text: &mut Vec<u8>,
    user: &UserName,
    words: &[u8],
    line: u16,
) -> Result<(), OutOfMemory>
    ensures { OnOk result (text.new.items ≡ text.old.items ++ on_line user.now words.now line) }
{
    append_name(text, &user.bytes)?;
    append_with_number(text, words, u64::from(line))
}

/// Puts a limit of the rule at the end of the text: an amount of money in dollars, anything else as a number.
fn append_limit(
    text: &mut Vec<u8>,
    earlier: Option<RuleLimit>,
    limit: u64,
) -> Result<(), OutOfMemory>
    ensures { OnOk result (text.new.items ≡ text.old.items ++ limit_text earlier limit) }
{
    match earlier {
        Some(held) if held.is_money => append_dollars(text, u128::from(limit)),
        _ => append_number(text, limit),
    }
}

/// Puts the limit that was in force at the end of the text.
fn append_from(text: &mut Vec<u8>, earlier: Option<RuleLimit>) -> Result<(), OutOfMemory>
    ensures { OnOk result (text.new.items ≡ text.old.items ++ from_text earlier) }
{
    let Some(limit) = limit_in_entry(earlier) else {
        return Ok(());
    };
    append(text, b" from ")?;
    append_limit(text, earlier, limit)
}

/// Puts the limit that is asked for at the end of the text.
fn append_to(text: &mut Vec<u8>, earlier: Option<RuleLimit>, limit: u64) -> Result<(), OutOfMemory>
    ensures { OnOk result (text.new.items ≡ text.old.items ++ to_text earlier limit) }
{
    append(text, b" to ")?;
    append_limit(text, earlier, limit)
}

#[tactic(auto, unfolding(crate::specs::Words::done_text))]
fn append_limit_set(
    text: &mut Vec<u8>,
    rule: &RuleId,
    earlier: Option<RuleLimit>,
    limit: u64,
) -> Result<(), OutOfMemory>
    ensures { OnOk result (text.new.items
        ≡ text.old.items ++ done_text (SetLimit rule.now limit) earlier) }
{
    append_of_name(text, b"limit of ", &rule.bytes)?;
    append(text, b" set")?;
    append_from(text, earlier)?;
    append_to(text, earlier, limit)
}

/// Puts what a granted command did at the end of the text.
#[tactic(auto, unfolding(crate::specs::Words::done_text))]
fn append_done(
    text: &mut Vec<u8>,
    action: &Action,
    earlier: Option<RuleLimit>,
) -> Result<(), OutOfMemory>
    ensures { OnOk result (text.new.items ≡ text.old.items ++ done_text action.now earlier) }
{
    match action {
        Action::Kill(account) => {
            append_name(text, &account.bytes)?;
            append(text, b" killed")
        }
        Action::Lift(account) => {
            append_of_name(text, b"Lift of ", &account.bytes)?;
            append(text, b" given")
        }
        Action::SetLimit(rule, limit) => append_limit_set(text, rule, earlier, *limit),
        Action::Restrict(rule, stock) => {
            append_between(text, &stock.bytes, b" restricted under ", &rule.bytes)
        }
        Action::Unrestrict(rule, stock) => {
            append_between(text, &stock.bytes, b" unrestricted under ", &rule.bytes)
        }
        Action::Grant(reader, account) => {
            append_between(text, &account.bytes, b" granted to ", &reader.bytes)
        }
        Action::Revoke(reader, account) => {
            append_between(text, &account.bytes, b" revoked from ", &reader.bytes)
        }
        Action::CloseDay => append(text, b"day closed"),
    }
}

/// Puts a Set Limit that is asked for at the end of the text.
#[tactic(auto, unfolding(crate::specs::Words::asked_text))]
fn append_limit_asked(
    text: &mut Vec<u8>,
    rule: &RuleId,
    earlier: Option<RuleLimit>,
    limit: u64,
) -> Result<(), OutOfMemory>
    ensures { OnOk result (text.new.items
        ≡ text.old.items ++ asked_text (SetLimit rule.now limit) earlier) }
{
    append_of_name(text, b"Set Limit of ", &rule.bytes)?;
    append_to(text, earlier, limit)
}

/// Puts what a command asks for at the end of the text.
#[tactic(auto, unfolding(crate::specs::Words::asked_text))]
fn append_asked(
    text: &mut Vec<u8>,
    action: &Action,
    earlier: Option<RuleLimit>,
) -> Result<(), OutOfMemory>
    ensures { OnOk result (text.new.items ≡ text.old.items ++ asked_text action.now earlier) }
{
    match action {
        Action::Kill(account) => append_of_name(text, b"Kill of ", &account.bytes),
        Action::Lift(account) => append_of_name(text, b"Lift of ", &account.bytes),
        Action::SetLimit(rule, limit) => append_limit_asked(text, rule, earlier, *limit),
        Action::Restrict(rule, stock) => {
            append_of_both(text, b"Restrict of ", &stock.bytes, b" under ", &rule.bytes)
        }
        Action::Unrestrict(rule, stock) => {
            append_of_both(
                text,
                b"Unrestrict of ",
                &stock.bytes,
                b" under ",
                &rule.bytes,
            )
        }
        Action::Grant(reader, account) => {
            append_of_both(text, b"Grant of ", &account.bytes, b" to ", &reader.bytes)
        }
        Action::Revoke(reader, account) => {
            append_of_both(
                text,
                b"Revoke of ",
                &account.bytes,
                b" from ",
                &reader.bytes,
            )
        }
        Action::CloseDay => append(text, b"Close Day"),
    }
}

fn append_by(text: &mut Vec<u8>, user: &UserName) -> Result<(), OutOfMemory>
    ensures { OnOk result (text.new.items ≡ text.old.items ++ by_user user.now) }
{
    append_of_name(text, b" by ", &user.bytes)
}

fn append_denied_by(text: &mut Vec<u8>, rule: &RuleName) -> Result<(), OutOfMemory>
    ensures { OnOk result (text.new.items ≡ text.old.items ++ denied_by_text rule.now) }
{
    append_of_name(text, b" denied by ", rule.written())
}

#[tactic(auto, unfolding(crate::specs::Words::event_text))]
fn append_login_denied(
    text: &mut Vec<u8>,
    user: &UserName,
    line: u16,
    rule: &RuleName,
) -> Result<(), OutOfMemory>
    ensures { OnOk result (text.new.items
        ≡ text.old.items ++ event_text (LoginDenied user.now line rule.now)) }
{
    append(text, b"login of ")?;
    append_on_line(text, user, b" on line ", line)?;
    append_denied_by(text, rule)
}

/// Puts words, a minute and a count at the end of the text.
fn append_minute_count(
    text: &mut Vec<u8>,
    words: &[u8],
    minute: u64,
    count: u64,
) -> Result<(), OutOfMemory>
    ensures { OnOk result (text.new.items
        ≡ text.old.items ++ minute_count words.now minute count) }
{
    append(text, words)?;
    append_minute(text, minute)?;
    append_with_number(text, b": ", count)
}

#[tactic(auto, unfolding(crate::specs::Words::event_text))]
fn append_more_denied(text: &mut Vec<u8>, count: u64, minute: u64) -> Result<(), OutOfMemory>
    ensures { OnOk result (text.new.items
        ≡ text.old.items ++ event_text (MoreDenied count minute)) }
{
    append_minute_count(
        text,
        b"more logins denied within the minute of ",
        minute,
        count,
    )
}

#[tactic(auto, unfolding(crate::specs::Words::event_text))]
fn append_commanded(
    text: &mut Vec<u8>,
    user: &UserName,
    action: &Action,
    earlier: Option<RuleLimit>,
) -> Result<(), OutOfMemory>
    ensures { OnOk result (text.new.items
        ≡ text.old.items ++ event_text (Commanded user.now action.now earlier)) }
{
    append_done(text, action, earlier)?;
    append_by(text, user)
}

#[tactic(auto, unfolding(crate::specs::Words::event_text))]
fn append_command_denied(
    text: &mut Vec<u8>,
    user: &UserName,
    action: &Action,
    rule: &RuleName,
    earlier: Option<RuleLimit>,
) -> Result<(), OutOfMemory>
    ensures { OnOk result (text.new.items
        ≡ text.old.items ++ event_text (CommandDenied user.now action.now rule.now earlier)) }
{
    append_asked(text, action, earlier)?;
    append_by(text, user)?;
    append_denied_by(text, rule)
}

fn append_used(text: &mut Vec<u8>, percent: u64, words: &[u8], left: u64) -> Result<(), OutOfMemory>
    ensures { OnOk result (text.new.items ≡ text.old.items ++ used_text percent words.now left) }
{
    append_number(text, percent)?;
    append_with_number(text, words, left)?;
    append(text, b" are left")
}

#[tactic(auto, unfolding(crate::specs::Words::event_text))]
fn append_records_used(text: &mut Vec<u8>, percent: u64, left: u64) -> Result<(), OutOfMemory>
    ensures { OnOk result (text.new.items
        ≡ text.old.items ++ event_text (RecordsUsed percent left)) }
{
    append_used(text, percent, b" % of the day's records are used, ", left)
}

#[tactic(auto, unfolding(crate::specs::Words::event_text))]
fn append_lines_used(text: &mut Vec<u8>, percent: u64, left: u64) -> Result<(), OutOfMemory>
    ensures { OnOk result (text.new.items
        ≡ text.old.items ++ event_text (LinesUsed percent left)) }
{
    append_used(text, percent, b" % of the day's lines are used, ", left)
}

/// Puts the event in words at the end of the text.
#[tactic(auto, unfolding(crate::specs::Words::event_text))]
pub(crate) fn append_event_text(text: &mut Vec<u8>, event: &Event) -> Result<(), OutOfMemory>
    ensures { OnOk result (text.new.items ≡ text.old.items ++ event_text event.now) }
{
    match event {
        Event::LoggedIn(user, line) => append_on_line(text, user, b" logged in on line ", *line),
        Event::LoggedOut(user, line) => append_on_line(text, user, b" logged out on line ", *line),
        Event::LoginDenied(user, line, rule) => append_login_denied(text, user, *line, rule),
        Event::MoreDenied(count, minute) => append_more_denied(text, *count, *minute),
        Event::Commanded(user, action, earlier) => append_commanded(text, user, action, *earlier),
        Event::CommandDenied(user, action, rule, earlier) => {
            append_command_denied(text, user, action, rule, *earlier)
        }
        Event::RecordsUsed(percent, left) => append_records_used(text, *percent, *left),
        Event::LinesUsed(percent, left) => append_lines_used(text, *percent, *left),
    }
}
