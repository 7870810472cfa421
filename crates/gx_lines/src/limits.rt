//! Limits and amounts of money in lines.

ghost use Rattle.std.specs.Prelude.{◌≡◌, ◌++◌, ◌*◌, IfOk, OnOk, codes, decimal};
ghost use Rattle.gx_money.specs.Amounts.{dollars_text};
ghost use Rattle.gx_lines.specs.{AnswerLines.{change_text, limit_is_text, limit_set_text, limit_text}, LimitLines.{meanings_line, no_money_line, question_line}};

use crate::answers::append_named;
use gx_money::append_dollars;
use gx_text::{append, append_number};
use gx_units::{OutOfMemory, RuleId};
use std::alloc::Global;

/// How the limit of a Set Limit is told.
#[derive(Clone, Copy, PartialEq, Eq)]
pub enum LimitForm {
    /// As a number.
    Number,
    /// In dollars.
    Dollars,
    /// In dollars, behind the limit that was in force before.
    DollarsFrom(u64),
}

/// Puts a limit at the end of the text.
fn append_limit(text: &mut Vec<u8>, told: LimitForm, limit: u64) -> Result<(), OutOfMemory>
    ensures { OnOk result (text.new.items ≡ text.old.items ++ limit_text told limit) }
{
    match told {
        LimitForm::Number => append_number(text, limit),
        LimitForm::Dollars | LimitForm::DollarsFrom(_) => append_dollars(text, u128::from(limit)),
    }
}

/// Puts an amount of money in the place of another at the end of the text.
fn append_change(text: &mut Vec<u8>, before: u64, limit: u64) -> Result<(), OutOfMemory>
    ensures { OnOk result (text.new.items ≡ text.old.items ++ change_text before limit) }
{
    append_dollars(text, u128::from(before))?;
    append(text, b" -> ")?;
    append_dollars(text, u128::from(limit))
}

/// Puts which limit a rule has at the end of the text.
pub(crate) fn append_limit_is(
    text: &mut Vec<u8>,
    told: LimitForm,
    rule: &[u8],
    limit: u64,
) -> Result<(), OutOfMemory>
    ensures { OnOk result (text.new.items ≡ text.old.items ++ limit_is_text told rule.now limit) }
{
    append_named(text, b"", rule, b" limit is ")?;
    append_limit(text, told, limit)
}

/// Puts which limit a rule has now, and where it is told which it had, at the end of the text.
pub(crate) fn append_limit_set(
    text: &mut Vec<u8>,
    told: LimitForm,
    rule: &[u8],
    limit: u64,
) -> Result<(), OutOfMemory>
    ensures { OnOk result
        (text.new.items ≡ text.old.items ++ limit_set_text told rule.now limit) }
{
    match told {
        LimitForm::DollarsFrom(before) => {
            append_named(text, b"", rule, b" ")?;
            append_change(text, before, limit)
        }
        LimitForm::Number | LimitForm::Dollars => append_limit_is(text, told, rule, limit),
    }
}

/// Puts a number, and the two amounts of money that it may mean, at the end of the text.
fn append_meanings(text: &mut Vec<u8>, number: u64) -> Result<(), OutOfMemory>
    ensures { OnOk result (text.new.items ≡ text.old.items
        ++ (decimal number ++ codes ": " ++ dollars_text (number * 10000) ++ codes " or "
        ++ dollars_text number)) }
{
    append_number(text, number)?;
    append(text, b": ")?;
    append_dollars(text, u128::from(number) * 10_000)?;
    append(text, b" or ")?;
    append_dollars(text, u128::from(number))
}

/// The line that asks which of two limits is meant by a number.
///
/// # Errors
///
/// `OutOfMemory` where memory was refused.
#[tactic(auto, unfolding(crate::specs::LimitLines::meanings_line))]
pub fn meanings_line(alloc: Global, rule: &RuleId, number: u64) -> Result<Vec<u8>, OutOfMemory>
    ensures { IfOk result (λ line. line.items ≡ meanings_line rule.now.bytes number) }
{
    let mut line = Vec::new(alloc);
    append_named(&mut line, b"gate: limit ", &rule.bytes, b" ")?;
    append_meanings(&mut line, number)?;
    append(&mut line, b"? write one of them\n")?;
    Ok(line)
}

/// The line that says that the limit of a rule is no amount of money, since it counts this.
///
/// # Errors
///
/// `OutOfMemory` where memory was refused.
#[tactic(auto, unfolding(crate::specs::LimitLines::no_money_line))]
pub fn no_money_line(alloc: Global, rule: &RuleId, counted: &[u8]) -> Result<Vec<u8>, OutOfMemory>
    ensures { IfOk result (λ line. line.items ≡ no_money_line rule.now.bytes counted.now) }
{
    let mut line = Vec::new(alloc);
    append_named(&mut line, b"gate: ", &rule.bytes, b" counts ")?;
    append(&mut line, counted)?;
    append(&mut line, b": its limit is no amount of money\n")?;
    Ok(line)
}

/// The line that asks whether a limit that is far below the one before is to be sent.
///
/// # Errors
///
/// `OutOfMemory` where memory was refused.
#[tactic(auto, unfolding(crate::specs::LimitLines::question_line))]
pub fn question_line(
    alloc: Global,
    rule: &RuleId,
    before: u64,
    limit: u64,
) -> Result<Vec<u8>, OutOfMemory>
    ensures { IfOk result (λ line. line.items ≡ question_line rule.now.bytes before limit) }
{
    let mut line = Vec::new(alloc);
    append_named(&mut line, b"gate: ", &rule.bytes, b" ")?;
    append_change(&mut line, before, limit)?;
    append(&mut line, b": under a tenth. Type yes to send it\n")?;
    Ok(line)
}
