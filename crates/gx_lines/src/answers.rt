//! Answers to commands, as lines.

ghost use Rattle.std.specs.Prelude.{◌≡◌, ◌++◌, ◌&&◌, IfOk, OnOk, codes};
ghost use Rattle.gx_units.specs.Names.{has_no_lower_case};
ghost use Rattle.gx_text.specs.{Shown.shown_name, declared.form.Form.TheVariants.{Text, Json}};
ghost use Rattle.gx_lines.specs.AnswerLines.{done_text, partly_text, capitals_hint, unknown_text, power_word, powerless_text, foreign_text, unchanged_text, record_text, reason_text, denied_text, answered_text, named_fields, answer_fields, answer_line};

use crate::json::{append_front, append_name_field, append_number_field, append_text_field};
use crate::limits::{LimitForm, append_limit_is, append_limit_set};
use crate::showing::LINE_ROOM;
use gx_desk::{Action, Answer, AnswerCode};
use gx_text::{Decimals, Form, append, append_moment, append_name, append_number};
use gx_units::{Moment, OutOfMemory};
use std::alloc::Global;

/// Puts a name between these words at the end of the text.
pub(crate) fn append_named(
    text: &mut Vec<u8>,
    front: &[u8],
    name: &[u8],
    behind: &[u8],
) -> Result<(), OutOfMemory>
    ensures { OnOk result (text.new.items
        ≡ text.old.items ++ (front.now ++ shown_name name.now ++ behind.now)) }
{
    append(text, front)?;
    append_name(text, name)?;
    append(text, behind)
}

/// Puts words, and two names with words between them, at the end of the text.
fn append_pair(
    text: &mut Vec<u8>,
    front: &[u8],
    one: &[u8],
    between: &[u8],
    other: &[u8],
) -> Result<(), OutOfMemory>
    ensures { OnOk result (text.new.items ≡ text.old.items
        ++ (front.now ++ shown_name one.now ++ between.now ++ shown_name other.now)) }
{
    append_named(text, front, one, between)?;
    append_name(text, other)
}

/// Puts what a granted command has done at the end of the text.
#[tactic(auto, unfolding(crate::specs::AnswerLines::done_text))]
fn append_done(text: &mut Vec<u8>, told: LimitForm, asked: &Action) -> Result<(), OutOfMemory>
    ensures { OnOk result (text.new.items ≡ text.old.items ++ done_text told asked.now) }
{
    match asked {
        Action::Kill(account) => append_named(text, b"", &account.bytes, b" killed"),
        Action::Lift(account) => append_named(text, b"", &account.bytes, b" lifted"),
        Action::SetLimit(rule, limit) => append_limit_set(text, told, &rule.bytes, *limit),
        Action::Restrict(rule, stock) => append_pair(
            text,
            b"",
            &rule.bytes,
            b" lists ",
            &stock.bytes,
        ),
        Action::Unrestrict(rule, stock) => {
            append_pair(text, b"", &rule.bytes, b" lists ", &stock.bytes)?;
            append(text, b" no longer")
        }
        Action::Grant(reader, account) => {
            append_pair(text, b"", &reader.bytes, b" sees ", &account.bytes)
        }
        Action::Revoke(reader, account) => {
            append_pair(text, b"", &reader.bytes, b" sees ", &account.bytes)?;
            append(text, b" no longer")
        }
        Action::CloseDay => append(text, b"day closed"),
    }
}

/// Puts what a partly granted command has done at the end of the text.
#[tactic(auto, unfolding(crate::specs::AnswerLines::partly_text))]
fn append_partly(text: &mut Vec<u8>, told: LimitForm, asked: &Action) -> Result<(), OutOfMemory>
    ensures { OnOk result (text.new.items ≡ text.old.items ++ partly_text told asked.now) }
{
    match asked {
        Action::Lift(account) => append_named(text, b"", &account.bytes, b" partly lifted"),
        other => {
            append_done(text, told, other)?;
            append(text, b" in part")
        }
    }
}

/// Whether a name has no small letter.
fn is_in_capitals(name: &[u8]) -> bool
    ensures { result ≡ has_no_lower_case name.now }
{
    name.iter().all(|byte| !byte.is_ascii_lowercase())
}

#[tactic(auto, unfolding(crate::specs::AnswerLines::capitals_hint))]
fn append_capitals_hint(text: &mut Vec<u8>, in_capitals: bool) -> Result<(), OutOfMemory>
    ensures { OnOk result (text.new.items ≡ text.old.items ++ capitals_hint in_capitals) }
{
    if in_capitals {
        return Ok(());
    }
    append(text, b"; names are in capitals")
}

/// Puts a name between these words, and the hint on names, at the end of the text.
fn append_hinted(
    text: &mut Vec<u8>,
    front: &[u8],
    name: &[u8],
    behind: &[u8],
    in_capitals: bool,
) -> Result<(), OutOfMemory>
    ensures { OnOk result (text.new.items ≡ text.old.items
        ++ (front.now ++ shown_name name.now ++ behind.now ++ capitals_hint in_capitals)) }
{
    append_named(text, front, name, behind)?;
    append_capitals_hint(text, in_capitals)
}

/// Puts words, two names with words between them, and the hint on names at the end of the text.
fn append_hinted_pair(
    text: &mut Vec<u8>,
    front: &[u8],
    one: &[u8],
    between: &[u8],
    other: &[u8],
    in_capitals: bool,
) -> Result<(), OutOfMemory>
    ensures { OnOk result (text.new.items ≡ text.old.items
        ++ (front.now ++ shown_name one.now ++ between.now ++ shown_name other.now
        ++ capitals_hint in_capitals)) }
{
    append_pair(text, front, one, between, other)?;
    append_capitals_hint(text, in_capitals)
}

/// Puts that the policy has no such rule, or no such stock, at the end of the text.
fn append_unknown_stock(text: &mut Vec<u8>, rule: &[u8], stock: &[u8]) -> Result<(), OutOfMemory>
    ensures { OnOk result (text.new.items ≡ text.old.items
        ++ (codes "the policy has no rule " ++ shown_name rule.now ++ codes " with a list, or no stock "
        ++ shown_name stock.now
        ++ capitals_hint (has_no_lower_case rule.now && has_no_lower_case stock.now))) }
{
    let in_capitals = is_in_capitals(rule) && is_in_capitals(stock);
    let between = b" with a list, or no stock ";
    append_hinted_pair(
        text,
        b"the policy has no rule ",
        rule,
        between,
        stock,
        in_capitals,
    )
}

/// Puts that the policy has no such reader, or no such account, at the end of the text.
fn append_unknown_reader(
    text: &mut Vec<u8>,
    reader: &[u8],
    account: &[u8],
) -> Result<(), OutOfMemory>
    ensures { OnOk result (text.new.items ≡ text.old.items
        ++ (codes "the policy has no reader " ++ shown_name reader.now ++ codes ", or no account "
        ++ shown_name account.now ++ capitals_hint (has_no_lower_case account.now))) }
{
    let in_capitals = is_in_capitals(account);
    let between = b", or no account ";
    append_hinted_pair(
        text,
        b"the policy has no reader ",
        reader,
        between,
        account,
        in_capitals,
    )
}

/// Puts what the policy does not have at the end of the text.
#[tactic(auto, unfolding(crate::specs::AnswerLines::unknown_text))]
fn append_unknown(text: &mut Vec<u8>, asked: &Action) -> Result<(), OutOfMemory>
    ensures { OnOk result (text.new.items ≡ text.old.items ++ unknown_text asked.now) }
{
    match asked {
        Action::Kill(account) | Action::Lift(account) => {
            let front = b"the policy has no account ";
            append_hinted(
                text,
                front,
                &account.bytes,
                b"",
                is_in_capitals(&account.bytes),
            )
        }
        Action::SetLimit(rule, _) => {
            let (front, behind) = (b"the policy has no rule ", b" with a limit to set");
            append_hinted(
                text,
                front,
                &rule.bytes,
                behind,
                is_in_capitals(&rule.bytes),
            )
        }
        Action::Restrict(rule, stock) | Action::Unrestrict(rule, stock) => {
            append_unknown_stock(text, &rule.bytes, &stock.bytes)
        }
        Action::Grant(reader, account) | Action::Revoke(reader, account) => {
            append_unknown_reader(text, &reader.bytes, &account.bytes)
        }
        Action::CloseDay => append(text, b"a name is unknown"),
    }
}

/// The power that a command asks for, as a policy names it.
#[tactic(auto, unfolding(crate::specs::AnswerLines::power_word))]
fn power_word(asked: &Action) -> &'static [u8]
    ensures { result.now ≡ power_word asked.now }
{
    match asked {
        Action::Kill(_) => b"kill",
        Action::Lift(_) => b"lift",
        Action::SetLimit(_, _) => b"limits",
        Action::Restrict(_, _) | Action::Unrestrict(_, _) => b"symbols",
        Action::Grant(_, _) | Action::Revoke(_, _) => b"people",
        Action::CloseDay => b"close",
    }
}

/// Puts which account is not the officer's at the end of the text.
#[tactic(auto, unfolding(crate::specs::AnswerLines::foreign_text))]
fn append_foreign(text: &mut Vec<u8>, asked: &Action) -> Result<(), OutOfMemory>
    ensures { OnOk result (text.new.items ≡ text.old.items ++ foreign_text asked.now) }
{
    match asked {
        Action::Kill(account)
        | Action::Lift(account)
        | Action::Grant(_, account)
        | Action::Revoke(_, account) => {
            append_named(text, b"", &account.bytes, b" is not an account of yours")
        }
        Action::SetLimit(rule, _) | Action::Restrict(rule, _) | Action::Unrestrict(rule, _) => {
            append_named(
                text,
                b"",
                &rule.bytes,
                b" is for an account that is not yours",
            )
        }
        Action::CloseDay => append(text, b"an account is not yours"),
    }
}

/// Puts what is so already at the end of the text.
#[tactic(auto, unfolding(crate::specs::AnswerLines::unchanged_text))]
fn append_unchanged(text: &mut Vec<u8>, told: LimitForm, asked: &Action) -> Result<(), OutOfMemory>
    ensures { OnOk result (text.new.items ≡ text.old.items ++ unchanged_text told asked.now) }
{
    match asked {
        Action::Kill(account) => append_named(text, b"", &account.bytes, b" is killed already"),
        Action::Lift(account) => {
            let behind = b" is not killed, or you have lifted it already";
            append_named(text, b"", &account.bytes, behind)
        }
        Action::SetLimit(rule, limit) => {
            append_limit_is(text, told, &rule.bytes, *limit)?;
            append(text, b" already")
        }
        Action::Restrict(rule, stock) => {
            append_pair(text, b"", &rule.bytes, b" lists ", &stock.bytes)?;
            append(text, b" already")
        }
        Action::Unrestrict(rule, stock) => {
            append_pair(text, b"", &rule.bytes, b" does not list ", &stock.bytes)
        }
        Action::Grant(reader, account) => {
            append_pair(text, b"", &reader.bytes, b" sees ", &account.bytes)?;
            append(text, b" already")
        }
        Action::Revoke(reader, account) => {
            append_pair(text, b"", &reader.bytes, b" does not see ", &account.bytes)
        }
        Action::CloseDay => append(text, b"the day is closed already"),
    }
}

/// Puts where a granted command stands in the day's history at the end of the text.
pub(crate) fn append_record(
    text: &mut Vec<u8>,
    moment: Moment,
    number: u64,
) -> Result<(), OutOfMemory>
    ensures { OnOk result (text.new.items ≡ text.old.items ++ record_text moment number) }
{
    append(text, b": record ")?;
    append_number(text, number)?;
    append(text, b" at ")?;
    append_moment(text, moment, Decimals::Nine)
}

/// Puts a word between other words at the end of the text.
fn append_word(
    text: &mut Vec<u8>,
    front: &[u8],
    word: &[u8],
    behind: &[u8],
) -> Result<(), OutOfMemory>
    ensures { OnOk result (text.new.items
        ≡ text.old.items ++ (front.now ++ word.now ++ behind.now)) }
{
    append(text, front)?;
    append(text, word)?;
    append(text, behind)
}

/// Puts which power is missing at the end of the text.
#[tactic(auto, unfolding(crate::specs::AnswerLines::powerless_text))]
fn append_powerless(text: &mut Vec<u8>, asked: &Action) -> Result<(), OutOfMemory>
    ensures { OnOk result (text.new.items ≡ text.old.items ++ powerless_text asked.now) }
{
    append_word(text, b"you have not the power `", power_word(asked), b"`")
}

/// Puts why a command was denied at the end of the text.
fn append_reason(
    text: &mut Vec<u8>,
    told: LimitForm,
    asked: &Action,
    code: AnswerCode,
) -> Result<(), OutOfMemory>
    ensures { OnOk result (text.new.items ≡ text.old.items ++ reason_text told asked.now code) }
{
    match code {
        AnswerCode::Done | AnswerCode::PartlyLifted => Ok(()),
        AnswerCode::UnknownName => append_unknown(text, asked),
        AnswerCode::NoPower => append_powerless(text, asked),
        AnswerCode::NotHisAccount => append_foreign(text, asked),
        AnswerCode::NoChange => append_unchanged(text, told, asked),
    }
}

/// Puts that a command was denied, and why, at the end of the text.
#[tactic(auto, unfolding(crate::specs::AnswerLines::denied_text))]
fn append_denied(
    text: &mut Vec<u8>,
    told: LimitForm,
    asked: &Action,
    code: AnswerCode,
) -> Result<(), OutOfMemory>
    ensures { OnOk result (text.new.items ≡ text.old.items ++ denied_text told asked.now code) }
{
    append(text, b"gate: denied ")?;
    append(text, &code.code())?;
    append(text, b": ")?;
    append_reason(text, told, asked, code)
}

/// Puts what an answer says at the end of the text.
#[tactic(auto, unfolding(crate::specs::AnswerLines::answered_text))]
fn append_answered(
    text: &mut Vec<u8>,
    told: LimitForm,
    moment: Moment,
    asked: &Action,
    number: u64,
    code: AnswerCode,
) -> Result<(), OutOfMemory>
    ensures { OnOk result (text.new.items
        ≡ text.old.items ++ answered_text told moment asked.now number code) }
{
    match code {
        AnswerCode::Done => {
            append_done(text, told, asked)?;
            append_record(text, moment, number)
        }
        AnswerCode::PartlyLifted => {
            append_partly(text, told, asked)?;
            append_record(text, moment, number)?;
            append(text, b"; another officer has to lift it too")
        }
        AnswerCode::UnknownName
        | AnswerCode::NoPower
        | AnswerCode::NotHisAccount
        | AnswerCode::NoChange => append_denied(text, told, asked, code),
    }
}

/// Puts what a command names at the end of a JSON line.
#[tactic(auto, unfolding(crate::specs::AnswerLines::named_fields))]
fn append_named_fields(line: &mut Vec<u8>, asked: &Action) -> Result<(), OutOfMemory>
    ensures { OnOk result (line.new.items ≡ line.old.items ++ named_fields asked.now) }
{
    match asked {
        Action::Kill(account) | Action::Lift(account) => {
            append_name_field(line, b"account", &account.bytes)
        }
        Action::SetLimit(rule, limit) => {
            append_name_field(line, b"rule", &rule.bytes)?;
            append_number_field(line, b"limit", *limit)
        }
        Action::Restrict(rule, stock) | Action::Unrestrict(rule, stock) => {
            append_name_field(line, b"rule", &rule.bytes)?;
            append_name_field(line, b"stock", &stock.bytes)
        }
        Action::Grant(reader, account) | Action::Revoke(reader, account) => {
            append_name_field(line, b"reader", &reader.bytes)?;
            append_name_field(line, b"account", &account.bytes)
        }
        Action::CloseDay => Ok(()),
    }
}

/// Puts what an answer says at the end of a JSON line.
#[tactic(auto, unfolding(crate::specs::AnswerLines::answer_fields))]
fn append_answer_fields(
    line: &mut Vec<u8>,
    asked: &Action,
    answer: &Answer,
) -> Result<(), OutOfMemory>
    ensures { OnOk result (line.new.items
        ≡ line.old.items ++ answer_fields asked.now answer.now) }
{
    append_text_field(line, b"command", asked.word())?;
    append_named_fields(line, asked)?;
    append_text_field(line, b"code", &answer.code.code())?;
    append_name_field(line, b"tag", &answer.tag.bytes)?;
    append_number_field(line, b"record", answer.record_number)
}

fn answer_text(
    alloc: Global,
    told: LimitForm,
    moment: Moment,
    asked: &Action,
    answer: &Answer,
) -> Result<Vec<u8>, OutOfMemory>
    ensures { IfOk result
        (λ line. line.items ≡ answer_line Text told moment asked.now answer.now) }
{
    let mut line = Vec::with_capacity(alloc, LINE_ROOM)?;
    append_answered(
        &mut line,
        told,
        moment,
        asked,
        answer.record_number,
        answer.code,
    )?;
    append(&mut line, b"\n")?;
    Ok(line)
}

#[tactic(auto, unfolding(crate::specs::Showing::json_line))]
fn answer_json(
    alloc: Global,
    told: LimitForm,
    moment: Moment,
    asked: &Action,
    answer: &Answer,
) -> Result<Vec<u8>, OutOfMemory>
    ensures { IfOk result
        (λ line. line.items ≡ answer_line Json told moment asked.now answer.now) }
{
    let mut line = Vec::with_capacity(alloc, LINE_ROOM)?;
    append_front(&mut line, moment, b"answer")?;
    append_answer_fields(&mut line, asked, answer)?;
    append(&mut line, b"}\n")?;
    Ok(line)
}

/// The line of an answer of this moment, with the LF at its end. `asked` is what its command asked for, and `told` how a text
/// tells its limit, if that was a Set Limit.
///
/// # Errors
///
/// `OutOfMemory` where memory was refused.
pub fn answer_line(
    alloc: Global,
    form: Form,
    told: LimitForm,
    moment: Moment,
    asked: &Action,
    answer: &Answer,
) -> Result<Vec<u8>, OutOfMemory>
    ensures { IfOk result
        (λ line. line.items ≡ answer_line form told moment asked.now answer.now) }
{
    match form {
        Form::Text => answer_text(alloc, told, moment, asked, answer),
        Form::Json => answer_json(alloc, told, moment, asked, answer),
    }
}
