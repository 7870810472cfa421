//! A warning in words.

ghost use Rattle.std.specs.Prelude.{◌≡◌, ◌++◌, decimal, OnOk};
ghost use Rattle.gx_events.specs.Words.{of_name};
ghost use Rattle.gx_monitor.specs.Words.{amount_text, is_in_dollars, of_limit, share_text, side_text, used_of_limit, warning_text, whose_of, whose_text};

use gx_events::counts_money;
use gx_history::facts::StockSide;
use gx_money::append_dollars;
use gx_peaks::figure::Figure;
use gx_peaks::key::key_of;
use gx_policy::Policy;
use gx_text::{append, append_name, append_number};
use gx_units::{AccountName, OutOfMemory, RuleId};
use gx_warnings::Warning;
use itoa::Buffer;

/// Puts a sum at the end of the text.
fn append_sum(text: &mut Vec<u8>, sum: u128) -> Result<(), OutOfMemory>
    ensures { OnOk result (text.new.items ≡ text.old.items ++ decimal sum) }
{
    let mut digits = Buffer::new();
    append(text, digits.format(sum).as_bytes())
}

/// Puts a share at the end of the text.
fn append_percent(text: &mut Vec<u8>, share: u8) -> Result<(), OutOfMemory>
    ensures { OnOk result (text.new.items ≡ text.old.items ++ decimal share) }
{
    append_number(text, u64::from(share))
}

/// Puts words and a name at the end of the text.
fn append_of_name(text: &mut Vec<u8>, words: &[u8], name: &[u8]) -> Result<(), OutOfMemory>
    ensures { OnOk result (text.new.items ≡ text.old.items ++ of_name words.now name.now) }
{
    append(text, words)?;
    append_name(text, name)
}

/// Puts words and a number at the end of the text.
pub(crate) fn append_with_number(
    text: &mut Vec<u8>,
    words: &[u8],
    number: u64,
) -> Result<(), OutOfMemory>
    ensures { OnOk result (text.new.items ≡ text.old.items ++ words.now ++ decimal number) }
{
    append(text, words)?;
    append_number(text, number)
}

fn append_whose(text: &mut Vec<u8>, whose: Option<AccountName>) -> Result<(), OutOfMemory>
    ensures { OnOk result (text.new.items ≡ text.old.items ++ whose_text whose) }
{
    match whose {
        Some(account) => append_name(text, &account.bytes),
        None => append(text, b"all its accounts"),
    }
}

/// Puts words and whose figure it is at the end of the text.
#[tactic(auto, unfolding(crate::specs::Words::whose_of))]
fn append_whose_of(
    text: &mut Vec<u8>,
    words: &[u8],
    policy: &Policy,
    figure: Figure,
) -> Result<(), OutOfMemory>
    ensures { OnOk result
        (text.new.items ≡ text.old.items ++ words.now ++ whose_of policy.now figure) }
{
    append(text, words)?;
    append_whose(text, key_of(policy, figure).whose)
}

fn append_side(text: &mut Vec<u8>, side: Option<StockSide>) -> Result<(), OutOfMemory>
    ensures { OnOk result (text.new.items ≡ text.old.items ++ side_text side) }
{
    match side {
        Some(on) if on.buys => append_of_name(text, b" for buys of ", &on.stock.bytes),
        Some(on) => append_of_name(text, b" for sells of ", &on.stock.bytes),
        None => Ok(()),
    }
}

/// Whether the rule of this name counts a value; one that is not there does not.
fn is_in_dollars(policy: &Policy, name: RuleId) -> bool
    ensures { result ≡ is_in_dollars policy.now name }
{
    match policy.rule(name) {
        Some(rule) => counts_money(rule.kind.name()),
        None => false,
    }
}

/// Puts an amount of what a rule counts at the end of the text: money in dollars, anything else as a number.
fn append_amount(text: &mut Vec<u8>, is_money: bool, amount: u128) -> Result<(), OutOfMemory>
    ensures { OnOk result (text.new.items ≡ text.old.items ++ amount_text is_money amount) }
{
    if is_money {
        append_dollars(text, amount)
    } else {
        append_sum(text, amount)
    }
}

fn append_of_limit(
    text: &mut Vec<u8>,
    is_money: bool,
    limit: Option<u64>,
) -> Result<(), OutOfMemory>
    ensures { OnOk result (text.new.items ≡ text.old.items ++ of_limit is_money limit) }
{
    let Some(limit) = limit else {
        return Ok(());
    };
    append(text, b" of ")?;
    append_amount(text, is_money, u128::from(limit))
}

/// Puts what is used, and the limit, at the end of the text.
fn append_used_of_limit(
    text: &mut Vec<u8>,
    is_money: bool,
    used: u128,
    limit: Option<u64>,
) -> Result<(), OutOfMemory>
    ensures { OnOk result
        (text.new.items ≡ text.old.items ++ used_of_limit is_money used limit) }
{
    append(text, b": ")?;
    append_amount(text, is_money, used)?;
    append_of_limit(text, is_money, limit)
}

/// Puts the share, the rule and whose figure it is at the end of the text.
#[tactic(auto, unfolding(crate::specs::Words::share_text))]
fn append_share(text: &mut Vec<u8>, policy: &Policy, warning: &Warning) -> Result<(), OutOfMemory>
    ensures { OnOk result
        (text.new.items ≡ text.old.items ++ share_text policy.now warning.now) }
{
    append_percent(text, warning.share)?;
    append_of_name(text, b" % of the limit of ", &warning.figure.rule.bytes)?;
    append_whose_of(text, b" are used by ", policy, warning.figure)
}

/// Puts the warning in words at the end of the text.
///
/// # Errors
///
/// `OutOfMemory` where memory was refused; then a part of it may stand at the end of the text.
#[tactic(auto, unfolding(crate::specs::Words::warning_text))]
pub(crate) fn append_warning_text(
    text: &mut Vec<u8>,
    policy: &Policy,
    warning: &Warning,
) -> Result<(), OutOfMemory>
    ensures { OnOk result
        (text.new.items ≡ text.old.items ++ warning_text policy.now warning.now) }
{
    append_share(text, policy, warning)?;
    append_side(text, warning.figure.side)?;
    let is_money = is_in_dollars(policy, warning.figure.rule);
    append_used_of_limit(text, is_money, warning.reading.used, warning.reading.limit)
}
