//! What officers asked for, and what stood in front of it.

ghost use Rattle.std.specs.Prelude.{◌≡◌};
ghost use Rattle.gx_history.specs.Requests.{denied_by};
ghost use Rattle.gx_endings.specs.Commands.{command_asked, command_by, command_row, limit_before, was_killed};

use crate::lists::put_last;
use gx_desk::Action;
use gx_history::record::{Asked, RecordData, Request, Step, Verdict};
use gx_policy::RuleName;
use gx_records::{ShowsState, Watches};
use gx_units::{Moment, OutOfMemory, UserName};
use std::alloc::Global;

/// A command that was asked for, granted or denied, and what stood in front of it.
#[derive(Clone, Copy, PartialEq, Eq)]
pub struct CommandRow {
    /// The number of its record; the first of the day is 1.
    pub number: u64,
    /// In nanoseconds past midnight.
    pub moment: Moment,
    /// Who asked for it: an officer, unless it was denied since he is none.
    pub officer: UserName,
    /// What was to be done.
    pub action: Action,
    /// The rule that denied it; None where it was granted.
    pub denied_by: Option<RuleName>,
    /// Of a Set Limit, the limit of its rule that was in force in front of it. None of any other action, and where the
    /// policy has no rule of this name, or it has no limit that Set Limit may change.
    pub limit_before: Option<u64>,
    /// Of a Kill or a Lift, whether its account was killed in front of it. None of any other action.
    pub was_killed: Option<bool>,
}

/// All commands that were asked for, in their order: whoever shows it the gate in front of each record has all of them
/// here.
#[derive(Drop)]
pub struct Commands {
    /// A row for each command.
    pub list: Vec<CommandRow>,
}

fn limit_before<G: ShowsState>(gate: &G, action: &Action) -> Option<u64>
    ensures { result
        ≡ limit_before (G.state gate.now).policy (G.state gate.now).records action.now }
{
    match action {
        Action::SetLimit(rule, _) => gate.limit(*rule),
        _ => None,
    }
}

fn was_killed<G: ShowsState>(gate: &G, action: &Action) -> Option<bool>
    ensures { result
        ≡ was_killed (G.state gate.now).policy (G.state gate.now).records action.now }
{
    match action {
        Action::Kill(account) => Some(gate.is_killed(*account)),
        Action::Lift(account) => Some(gate.is_killed(*account)),
        _ => None,
    }
}

/// The command that the record which comes next shows.
fn command_row<G: ShowsState>(
    gate: &G,
    next: &RecordData,
    officer: UserName,
    action: &Action,
) -> CommandRow
    ensures { result ≡ command_row (G.state gate.now).policy (G.state gate.now).records
        next.now officer action.now }
{
    CommandRow {
        number: next.number,
        moment: next.moment,
        officer,
        action: *action,
        denied_by: next.verdict.denied_by(),
        limit_before: limit_before(gate, action),
        was_killed: was_killed(gate, action),
    }
}

fn command_asked<G: ShowsState>(gate: &G, next: &RecordData, asked: &Asked) -> Option<CommandRow>
    ensures { result ≡ command_asked (G.state gate.now).policy (G.state gate.now).records
        next.now asked.now }
{
    match &asked.request {
        Request::Command(command) => { Some(command_row(gate, next, asked.user, &command.action)) }
        _ => None,
    }
}

/// The command that the record which comes next shows, if it shows one.
fn command_by<G: ShowsState>(gate: &G, next: &RecordData) -> Option<CommandRow>
    ensures { result
        ≡ command_by (G.state gate.now).policy (G.state gate.now).records next.now }
{
    match &next.step {
        Step::Asked(asked) => command_asked(gate, next, asked),
        Step::Matching(_) => None,
    }
}

impl Commands {
    ghost use Rattle.gx_endings.specs.Commands.{command_rows};
    ghost use Rattle.gx_policy.specs.declared.policy.PolicyData.{PolicyData};
    ghost use Rattle.std.specs.Prelude.{[]};

    /// Before any record.
    pub fn new(alloc: Global) -> Commands
        ensures none { (policy : PolicyData) → result.list.items ≡ command_rows policy [] }
    {
        Commands {
            list: Vec::new(alloc),
        }
    }
}

impl<G: ShowsState> Watches<G> for Commands {
    ghost use Rattle.gx_endings.specs.Commands.{command_rows};
    ghost use Rattle.std.specs.Prelude.{[], ◌∷◌, ◌++◌};

    ghost asked = { λ _. tt };

    ghost saw = { λ watcher policy records. watcher.list.items ≡ command_rows policy records };

    ghost expects = { λ watcher policy records next.
        watcher.list.items ≡ command_rows policy (records ++ next ∷ []) };

    #[tactic(auto, using(crate::proofs::Endings_next::one_more_command))]
    fn before(&mut self, gate: &G, next: &RecordData) -> Result<(), OutOfMemory> {
        put_last(&mut self.list, command_by(gate, next))
    }

    #[tactic(auto, using(crate::proofs::Endings_next::stands_behind))]
    fn after(&mut self, _gate: &G, _left: &RecordData) -> Result<(), OutOfMemory> {
        Ok(())
    }
}
