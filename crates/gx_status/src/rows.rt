//! Each row of a view as a JSON object.

ghost use Rattle.std.specs.Prelude.{◌≡◌, ◌++◌, OnOk};
ghost use Rattle.gx_history.specs.declared.record.Step.TheVariants as steps;
ghost use Rattle.gx_json.specs.Rows.{user_json};
ghost use Rattle.gx_status.specs.Rows.{account_json, asked_json, denied_by_json, denied_json, first_members, gross_json, last_member, limit_json, named_by, named_by_action, net_json, record_json, request_word, unit_text};

use crate::listing::Row;
use gx_board::{AccountState, DeniedRow, GrossUse, NetUse};
use gx_desk::Action;
use gx_history::record::{Asked, RecordData, Request, Step, Verdict};
use gx_json::{
    append_bool_member, append_command_member, append_count_member, append_first_name,
    append_first_number, append_integer_member, append_key, append_name_member,
    append_number_member, append_sum_member, append_time_member, append_user,
};
use gx_overview::day::UserRow;
use gx_overview::rules::LimitRow;
use gx_policy::{ExposureLimit, KindName, OrderLimit};
use gx_text::{append, append_json_name};
use gx_units::OutOfMemory;

impl Row for AccountState {
    ghost json = { account_json };

    fn append_json(&self, text: &mut Vec<u8>) -> Result<(), OutOfMemory> {
        append_first_name(text, b"account", &self.account.bytes)?;
        append_bool_member(text, b"killed", self.killed.is_killed)?;
        append_command_member(text, b"kill", self.killed.kill)?;
        append_command_member(text, b"lift", self.killed.lift)?;
        append_number_member(text, b"live", self.orders)?;
        append(text, b"}")
    }
}

/// What the limit of a rule of this kind is counted in.
fn unit_text(kind: KindName) -> &'static [u8]
    ensures { result.now ≡ unit_text kind }
{
    match kind {
        KindName::Order(OrderLimit::Shares)
        | KindName::Exposure(ExposureLimit::GrossShares)
        | KindName::Exposure(ExposureLimit::NetShares) => b"\"shares\"",
        KindName::Order(OrderLimit::Value) | KindName::Exposure(ExposureLimit::GrossValue) => {
            b"\"dollars/10000\""
        }
        KindName::Order(OrderLimit::Collar) => b"\"price/10000\"",
        KindName::Listed(_) | KindName::Plain(_) | KindName::Rate | KindName::Repeat => b"null",
    }
}

impl Row for LimitRow {
    ghost json = { limit_json };

    fn append_json(&self, text: &mut Vec<u8>) -> Result<(), OutOfMemory> {
        append_first_name(text, b"rule", &self.rule.bytes)?;
        append_key(text, b"unit")?;
        append(text, unit_text(self.kind))?;
        append_count_member(text, b"limit", self.limit)?;
        append_count_member(text, b"file", self.file)?;
        append(text, b"}")
    }
}

impl Row for GrossUse {
    ghost json = { gross_json };

    fn append_json(&self, text: &mut Vec<u8>) -> Result<(), OutOfMemory> {
        append_first_name(text, b"rule", &self.rule.bytes)?;
        append_name_member(text, b"account", &self.row.account.bytes)?;
        append_sum_member(text, b"used", self.row.used)?;
        append_sum_member(text, b"left", self.row.left)?;
        append(text, b"}")
    }
}

impl Row for NetUse {
    ghost json = { net_json };

    fn append_json(&self, text: &mut Vec<u8>) -> Result<(), OutOfMemory> {
        append_first_name(text, b"rule", &self.rule.bytes)?;
        append_name_member(text, b"account", &self.account.bytes)?;
        append_name_member(text, b"stock", &self.row.stock.bytes)?;
        append_integer_member(text, b"buys", self.row.buys)?;
        append_integer_member(text, b"sells", self.row.sells)?;
        append(text, b"}")
    }
}

impl Row for DeniedRow {
    ghost json = { denied_json };

    fn append_json(&self, text: &mut Vec<u8>) -> Result<(), OutOfMemory> {
        append_first_name(text, b"rule", &self.rule.bytes)?;
        append_number_member(text, b"count", self.count)?;
        append(text, b"}")
    }
}

impl Row for UserRow {
    ghost json = { user_json };

    fn append_json(&self, text: &mut Vec<u8>) -> Result<(), OutOfMemory> {
        append_user(text, self)
    }
}

/// What was asked for, in a word.
fn request_word(request: &Request) -> &'static [u8]
    ensures { result.now ≡ request_word request.now }
{
    match request {
        Request::Login(_) => b"login",
        Request::Logout => b"logout",
        Request::Unreadable(_) => b"unreadable",
        Request::Enter(_) => b"enter",
        Request::Replace(_) => b"replace",
        Request::Cancel(_) => b"cancel",
        Request::Command(command) => command.action.word(),
    }
}

fn named_by_action(action: &Action) -> &[u8]
    ensures { result.now ≡ named_by_action action.now }
{
    match action {
        Action::Kill(account)
        | Action::Lift(account)
        | Action::Grant(_, account)
        | Action::Revoke(_, account) => &account.bytes,
        Action::SetLimit(rule, _) | Action::Restrict(rule, _) | Action::Unrestrict(rule, _) => {
            &rule.bytes
        }
        Action::CloseDay => b"",
    }
}

/// The account, the rule or the stock that is named first.
fn named_by(request: &Request) -> &[u8]
    ensures { result.now ≡ named_by request.now }
{
    match request {
        Request::Enter(order) => &order.stock.bytes,
        Request::Command(command) => named_by_action(&command.action),
        _ => b"",
    }
}

/// The rule that denied the request, or `null`.
fn append_denied_by(text: &mut Vec<u8>, verdict: &Verdict) -> Result<(), OutOfMemory>
    ensures { OnOk result (text.new.items ≡ text.old.items ++ denied_by_json verdict.now) }
{
    match verdict {
        Verdict::Denied(rule) => append_json_name(text, &rule.id().bytes),
        _ => append(text, b"null"),
    }
}

fn append_asked(text: &mut Vec<u8>, asked: &Asked) -> Result<(), OutOfMemory>
    ensures { OnOk result
        (text.new.items ≡ text.old.items ++ asked_json (steps.Asked asked.now)) }
{
    append_name_member(text, b"user", &asked.user.bytes)?;
    append_name_member(text, b"asked", request_word(&asked.request))?;
    append_name_member(text, b"about", named_by(&asked.request))
}

/// Who asked for what, if somebody did.
fn append_step(text: &mut Vec<u8>, step: &Step) -> Result<(), OutOfMemory>
    ensures { OnOk result (text.new.items ≡ text.old.items ++ asked_json step.now) }
{
    match step {
        Step::Asked(asked) => append_asked(text, asked),
        Step::Matching(_) => Ok(()),
    }
}

/// The rule that denied the request, or `null`, as the last member of an object.
#[tactic(auto, unfolding(crate::specs::Rows::last_member))]
fn append_last(text: &mut Vec<u8>, verdict: &Verdict) -> Result<(), OutOfMemory>
    ensures { OnOk result (text.new.items ≡ text.old.items ++ last_member verdict.now) }
{
    append_key(text, b"denied_by")?;
    append_denied_by(text, verdict)?;
    append(text, b"}")
}

/// Which record it is, and when it was made.
#[tactic(auto, unfolding(crate::specs::Rows::first_members))]
fn append_front(text: &mut Vec<u8>, left: &RecordData) -> Result<(), OutOfMemory>
    ensures { OnOk result
        (text.new.items ≡ text.old.items ++ first_members left.now.number left.now.moment) }
{
    append_first_number(text, b"record", left.number)?;
    append_time_member(text, b"at", left.moment)
}

impl Row for RecordData {
    ghost json = { record_json };

    fn append_json(&self, text: &mut Vec<u8>) -> Result<(), OutOfMemory> {
        append_front(text, self)?;
        append_step(text, &self.step)?;
        append_last(text, &self.verdict)
    }
}
