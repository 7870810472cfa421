//! The commands that were granted, and the last of them about an account, a limit or a stock.

ghost use Rattle.std.specs.Prelude.{◌≡◌, ◌++◌, is_some, option_and_then, option_copied, option_to_list, slice_get, IfOk, OnOk};
ghost use Rattle.gx_overview.specs.Commands.{command_by, granted_command, granted_commands, is_about, is_grant, is_officers, last_of, last_with};

use gx_desk::Action;
use gx_history::record::{Asked, RecordData, Request, Step, Verdict, VerdictKind};
use gx_history::records::Records;
use gx_units::{AccountName, Moment, OutOfMemory, RuleId, Symbol, UserName};
use std::alloc::Global;

/// A command that was granted: by which record, when, to whom, and what it asked for.
#[derive(Clone, Copy, PartialEq, Eq)]
pub struct GrantedCommand {
    /// The number of its record; the first of the day is 1.
    pub number: u64,
    /// In nanoseconds past midnight.
    pub moment: Moment,
    /// Who gave it.
    pub officer: UserName,
    /// What was done.
    pub action: Action,
}

/// What a command may be about.
#[derive(Clone, Copy, PartialEq, Eq)]
pub enum Subject {
    /// It kills the account.
    KillOf(AccountName),
    /// It lifts the account.
    LiftOf(AccountName),
    /// It sets the limit of the rule.
    LimitOf(RuleId),
    /// It puts the stock on the list of the rule.
    StockOn(RuleId, Symbol),
}

/// The command of a granted request.
fn command_of(shown: &RecordData, asked: &Asked) -> Option<GrantedCommand>
    ensures { result ≡ command_by shown.now asked.now }
{
    match &asked.request {
        Request::Command(command) => Some(GrantedCommand {
            number: shown.number,
            moment: shown.moment,
            officer: asked.user,
            action: command.action,
        }),
        _ => None,
    }
}

/// The command that the record grants, if it grants one.
fn granted_command(shown: &RecordData) -> Option<GrantedCommand>
    ensures { result ≡ granted_command shown.now }
{
    match (&shown.verdict, &shown.step) {
        (Verdict::Granted, Step::Asked(asked)) => command_of(shown, asked),
        _ => None,
    }
}

/// Whether a record of this kind grants its request.
#[inline(always)]
pub fn is_grant(kind: Option<VerdictKind>) -> bool
    ensures { result ≡ is_grant kind }
{
    matches!(kind, Some(VerdictKind::Granted))
}

/// Whether the request is an officer's command; a matching step has no request.
#[inline(always)]
pub fn is_command(asked: Option<&Asked>) -> bool
    ensures { result ≡ is_officers (option_copied asked.entry) }
{
    match asked {
        Some(asked) => matches!(asked.request, Request::Command(_)),
        None => false,
    }
}

/// Whether the record at this place grants a command. No record is made.
#[inline(always)]
#[tactic(auto, using(crate::proofs::Commands_call::grants_where))]
fn grants_command(records: &Records<'_>, place: usize) -> bool
    ensures { result ≡ is_some (option_and_then granted_command (slice_get records.now place)) }
{
    is_grant(records.kind_at(place)) && is_command(records.asked_at(place))
}

/// The command of the record at this place, if it grants one.
#[inline(always)]
fn command_at(records: &Records<'_>, place: usize) -> Option<GrantedCommand>
    ensures { result ≡ option_and_then granted_command (slice_get records.now place) }
{
    if !grants_command(records, place) {
        return None;
    }
    granted_command(&records.get(place)?.content())
}

/// Puts the command behind the others, if there is one.
#[inline(always)]
fn note(
    commands: &mut Vec<GrantedCommand>,
    found: Option<GrantedCommand>,
) -> Result<(), OutOfMemory>
    ensures noted { OnOk result
        (commands.new.items ≡ commands.old.items ++ option_to_list found) }
{
    match found {
        Some(command) => Ok(commands.push(command)?),
        None => Ok(()),
    }
}

/// The commands that these records grant, in their order. It is one pass over them, and makes no other record.
///
/// # Errors
///
/// `OutOfMemory` where the list was refused its memory.
pub fn granted_commands(
    alloc: Global,
    records: &Records<'_>,
) -> Result<Vec<GrantedCommand>, OutOfMemory>
    ensures commands { IfOk result (λ commands. commands.items ≡ granted_commands records.now) }
{
    let mut commands = Vec::new(alloc);
    for place in 0..records.len() {
        note(&mut commands, command_at(records, place))?;
    }
    Ok(commands)
}

/// Whether the command is about the subject.
fn is_about(subject: &Subject, action: &Action) -> bool
    ensures { result ≡ is_about subject.now action.now }
{
    match (*subject, *action) {
        (Subject::KillOf(account), Action::Kill(named)) => named == account,
        (Subject::LiftOf(account), Action::Lift(named)) => named == account,
        (Subject::LimitOf(rule), Action::SetLimit(named, _)) => named == rule,
        (Subject::StockOn(rule, stock), Action::Restrict(named, listed)) => {
            named == rule && listed == stock
        }
        _ => false,
    }
}

/// The last about the subject, once this one has come.
fn last_with(
    last: Option<GrantedCommand>,
    subject: &Subject,
    command: &GrantedCommand,
) -> Option<GrantedCommand>
    ensures { result ≡ last_with last subject.now command.now }
{
    if is_about(subject, &command.action) {
        Some(*command)
    } else {
        last
    }
}

/// The last of these commands that is about the subject.
pub fn last_about(commands: &[GrantedCommand], subject: Subject) -> Option<GrantedCommand>
    ensures last { result ≡ last_of commands.now subject }
{
    let mut last = None;
    for command in commands {
        last = last_with(last, &subject, command);
    }
    last
}
