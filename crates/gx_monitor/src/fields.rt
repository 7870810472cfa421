//! A warning as the fields of a JSON object.

ghost use Rattle.std.specs.Prelude.{◌≡◌, ◌++◌, codes, decimal, OnOk, Some};
ghost use Rattle.gx_json.specs.Parts.{member};
ghost use Rattle.gx_events.specs.Fields.{event_field};
ghost use Rattle.gx_monitor.specs.Fields.{account_field, name_or_null, share_fields, side_fields, side_word, used_members, warning_fields};

use gx_history::facts::StockSide;
use gx_json::{
    append_count_member, append_key, append_name_member, append_number_member, append_sum_member,
};
use gx_peaks::figure::Figure;
use gx_peaks::key::key_of;
use gx_policy::Policy;
use gx_text::{append, append_json_name};
use gx_units::{AccountName, OutOfMemory};
use gx_warnings::Warning;

/// Puts a share, behind other members, at the end of the text.
fn append_percent(text: &mut Vec<u8>, share: u8) -> Result<(), OutOfMemory>
    ensures { OnOk result
        (text.new.items ≡ text.old.items ++ member (codes "percent") (decimal share)) }
{
    append_number_member(text, b"percent", u64::from(share))
}

/// Puts the event's word, behind other members, at the end of the text.
fn append_event(text: &mut Vec<u8>, word: &[u8]) -> Result<(), OutOfMemory>
    ensures { OnOk result (text.new.items ≡ text.old.items ++ event_field word.now) }
{
    append(text, b",\"event\":\"")?;
    append(text, word)?;
    append(text, b"\"")
}

/// Puts an account or `null`, behind other members, at the end of the text.
fn append_account(text: &mut Vec<u8>, account: Option<AccountName>) -> Result<(), OutOfMemory>
    ensures { OnOk result
        (text.new.items ≡ text.old.items ++ member (codes "account") (name_or_null account)) }
{
    append_key(text, b"account")?;
    match account {
        Some(account) => append_json_name(text, &account.bytes),
        None => append(text, b"null"),
    }
}

/// Puts the account whose figure it is, or `null`, behind other members, at the end of the text.
#[tactic(auto, unfolding(crate::specs::Fields::account_field))]
fn append_account_of(text: &mut Vec<u8>, policy: &Policy, figure: Figure) -> Result<(), OutOfMemory>
    ensures { OnOk result
        (text.new.items ≡ text.old.items ++ account_field policy.now figure) }
{
    append_account(text, key_of(policy, figure).whose)
}

fn append_side_word(text: &mut Vec<u8>, buys: bool) -> Result<(), OutOfMemory>
    ensures { OnOk result (text.new.items ≡ text.old.items ++ side_word buys) }
{
    if buys {
        append(text, b"\"buys\"")
    } else {
        append(text, b"\"sells\"")
    }
}

fn append_side_fields(text: &mut Vec<u8>, side: Option<StockSide>) -> Result<(), OutOfMemory>
    ensures { OnOk result (text.new.items ≡ text.old.items ++ side_fields side) }
{
    match side {
        Some(on) => {
            append_name_member(text, b"stock", &on.stock.bytes)?;
            append_key(text, b"side")?;
            append_side_word(text, on.buys)
        }
        None => Ok(()),
    }
}

/// Puts the event, the share and the rule at the end of the text.
#[tactic(auto, unfolding(crate::specs::Fields::share_fields))]
fn append_share_fields(text: &mut Vec<u8>, warning: &Warning) -> Result<(), OutOfMemory>
    ensures { OnOk result (text.new.items ≡ text.old.items ++ share_fields warning.now) }
{
    append_event(text, b"limit_used")?;
    append_percent(text, warning.share)?;
    append_name_member(text, b"rule", &warning.figure.rule.bytes)
}

/// Puts what is used, and the limit, at the end of the text.
#[tactic(auto, unfolding(crate::specs::Fields::used_members))]
fn append_used_fields(text: &mut Vec<u8>, used: u128, limit: Option<u64>) -> Result<(), OutOfMemory>
    ensures { OnOk result (text.new.items ≡ text.old.items ++ used_members used limit) }
{
    append_sum_member(text, b"used", Some(used))?;
    append_count_member(text, b"limit", limit)
}

/// Puts the warning as the fields of an object, behind others, at the end of the text.
///
/// # Errors
///
/// `OutOfMemory` where memory was refused; then a part of it may stand at the end of the text.
#[tactic(auto, unfolding(crate::specs::Fields::warning_fields))]
pub(crate) fn append_warning_fields(
    text: &mut Vec<u8>,
    policy: &Policy,
    warning: &Warning,
) -> Result<(), OutOfMemory>
    ensures { OnOk result
        (text.new.items ≡ text.old.items ++ warning_fields policy.now warning.now) }
{
    append_share_fields(text, warning)?;
    append_account_of(text, policy, warning.figure)?;
    append_side_fields(text, warning.figure.side)?;
    append_used_fields(text, warning.reading.used, warning.reading.limit)
}
