//! What a line of a script does.

ghost use Rattle.std.specs.Prelude.{◌≡◌, ◌+◌, ◌<◌, ◌⊎◌, ◌++◌, [], Some, IsTrue, IsFalse, IfOk, IfErr, OnOk, OnErr};
ghost use Rattle.gx_access_gate.specs.Matches.{matches_left};
ghost use Rattle.gx_history.specs.{Showing.{has_its_first, is_askable}, Streams.stream};
ghost use Rattle.gx_script_text.specs.{Printing.report_lines, declared.line.ScriptLine.TheVariants.Stream, ScriptLines.{IsAskable, IsAskableLine}};
ghost use Rattle.gx_script_run.specs.{Scripting.{request_of_step, step_of, match_of, makes_none, settle_of, effect_of, line_effect}, Leaving.{IsHalf, Leaves}};

use crate::script_fault::LineFault;
use gx_access_gate::{AccessGate, StepFault, asked, count_of};
use gx_history::record::{Asked, Request};
use gx_script_text::{
    ExpectedWord, ScriptLine, ScriptStep, Wrong, append_idle, append_outcome, append_refused,
    append_reports,
};
use gx_units::{OutOfMemory, SessionName, UserName};

/// A blank session name means the day's session.
const BLANK_SESSION: SessionName = SessionName {
    bytes: *b"          ",
};

fn request_of<G: AccessGate>(gate: &G, user: UserName, step: &ScriptStep) -> Request
    requires { IsAskable step.now }
    ensures request { result ≡ request_of_step (G.state gate.now) user step.now }
    ensures first { IsTrue (has_its_first result) }
{
    match step {
        ScriptStep::Login(password, wanted) => {
            gate.login_request(user, *password, BLANK_SESSION, *wanted)
        }
        ScriptStep::Logout => Request::Logout,
        ScriptStep::Enter(order) => Request::Enter(*order),
        ScriptStep::Replace(order) => Request::Replace(*order),
        ScriptStep::Cancel(order) => Request::Cancel(*order),
        ScriptStep::Command(command) => Request::Command(*command),
        ScriptStep::Raw(request) => *request,
    }
}

/// Makes a step, and puts its line into the text.
#[tactic(auto, unfolding(crate::specs::Scripting::step_of))]
fn step_and_print<G: AccessGate>(
    gate: &mut G,
    a: Asked,
    text: &mut Vec<u8>,
) -> Result<(), OutOfMemory>
    requires askable { IsTrue (is_askable a) }
    requires empty { text.old.items ≡ [] }
    ensures ok { OnOk result (step_of (G.state gate.old) a
        ≡ record { gate = G.state gate.new; text = text.new.items }) }
    ensures err { OnErr result
        (IsHalf (G.state gate.old) (Some (step_of (G.state gate.old) a)) (G.state gate.new)) }
{
    match gate.step(a) {
        Ok(outcome) => append_outcome(text, outcome.number, &outcome.verdict),
        Err(StepFault::DayFull) => append_refused(text),
        Err(StepFault::OutOfMemory) => Err(OutOfMemory),
    }
}

/// Makes a matching step, and puts its line last. Answers whether none was made: no order waits, or the day is full.
///
/// Without memory the step may be made or not.
#[tactic(auto, unfolding(crate::specs::Scripting::match_of))]
fn add_match<G: AccessGate>(
    gate: &mut G,
    moment: u64,
    text: &mut Vec<u8>,
) -> Result<bool, OutOfMemory>
    ensures over { IfOk result (λ over. over ≡ makes_none (G.state gate.old) moment) }
    ensures gate { OnOk result (G.state gate.new ≡ (match_of (G.state gate.old) moment).gate) }
    ensures text { OnOk result (text.new.items
        ≡ text.old.items ++ (match_of (G.state gate.old) moment).text) }
    ensures fewer { IfOk result (λ over.
        IsFalse over → matches_left (G.state gate.new) < matches_left (G.state gate.old)) }
    ensures err { OnErr result ((G.state gate.new ≡ G.state gate.old)
        ⊎ (G.state gate.new ≡ (match_of (G.state gate.old) moment).gate)) }
{
    match gate.match_one(moment) {
        Ok(Some(outcome)) => {
            append_outcome(text, outcome.number, &outcome.verdict)?;
            Ok(false)
        }
        Ok(None) => {
            append_idle(text)?;
            Ok(true)
        }
        Err(StepFault::DayFull) => {
            append_refused(text)?;
            Ok(true)
        }
        Err(StepFault::OutOfMemory) => Err(OutOfMemory),
    }
}

/// Makes a matching step, and puts its line into the text.
fn match_line<G: AccessGate>(
    gate: &mut G,
    moment: u64,
    text: &mut Vec<u8>,
) -> Result<(), OutOfMemory>
    requires empty { text.old.items ≡ [] }
    ensures ok { OnOk result (match_of (G.state gate.old) moment
        ≡ record { gate = G.state gate.new; text = text.new.items }) }
    ensures err { OnErr result
        (IsHalf (G.state gate.old) (Some (match_of (G.state gate.old) moment)) (G.state gate.new)) }
{
    add_match(gate, moment, text)?;
    Ok(())
}

/// Makes matching steps until no order waits, and puts their lines into the text.
fn settle_lines<G: AccessGate>(
    gate: &mut G,
    moment: u64,
    text: &mut Vec<u8>,
) -> Result<(), OutOfMemory>
    requires empty { text.old.items ≡ [] }
    ensures ok { OnOk result (settle_of (G.state gate.old) moment
        ≡ record { gate = G.state gate.new; text = text.new.items }) }
    ensures err { OnErr result
        (IsHalf (G.state gate.old) (Some (settle_of (G.state gate.old) moment))
        (G.state gate.new)) }
{
    loop {
        // What this ensures: the records are those of a legal day, on which what settles rests.
        gate.is_legal();
        if add_match(gate, moment, text)? {
            return Ok(());
        }
    }
}

/// Puts the lines of the user's stream at the end of the text.
fn append_stream<G: AccessGate>(
    gate: &G,
    user: UserName,
    text: &mut Vec<u8>,
) -> Result<(), OutOfMemory>
    ensures { OnOk result (text.new.items ≡ text.old.items
        ++ report_lines user 1 (stream (G.state gate.now).policy (G.state gate.now).records user)) }
{
    let pulled = gate.reports(user, 1, u64::MAX)?;
    let reports = pulled.reports.as_slice();
    let _within = count_of(reports);
    append_reports(text, user, reports)
}

/// Puts the lines of the user's stream into the text. The user has to be one of the policy.
#[tactic(auto, unfolding(crate::specs::Scripting::effect_of))]
fn add_stream<G: AccessGate>(gate: &G, user: UserName, text: &mut Vec<u8>) -> Result<(), LineFault>
    requires empty { text.old.items ≡ [] }
    ensures ok { OnOk result (effect_of (G.state gate.now) (Stream user)
        ≡ Some (record { gate = G.state gate.now; text = text.new.items })) }
    ensures err { IfErr result
        (Leaves (G.state gate.now) (effect_of (G.state gate.now) (Stream user))
        (G.state gate.now)) }
{
    if !gate.knows(user) {
        return Err(LineFault::Bad(Wrong::new(2, ExpectedWord::KnownUser)));
    }
    append_stream(gate, user, text)?;
    Ok(())
}

/// Does what a line asks for, and puts what it prints into the text.
#[tactic(auto, unfolding(crate::specs::Scripting::effect_of))]
fn run_line<G: AccessGate>(
    gate: &mut G,
    line: &ScriptLine,
    text: &mut Vec<u8>,
) -> Result<(), LineFault>
    requires askable { IsAskableLine line.now }
    requires empty { text.old.items ≡ [] }
    ensures ok { OnOk result (effect_of (G.state gate.old) line.now
        ≡ Some (record { gate = G.state gate.new; text = text.new.items })) }
    ensures err { IfErr result
        (Leaves (G.state gate.old) (effect_of (G.state gate.old) line.now) (G.state gate.new)) }
{
    match line {
        ScriptLine::Skipped => Ok(()),
        ScriptLine::Step(moment, user, asks) => {
            let request = request_of(gate, *user, asks);
            Ok(step_and_print(gate, asked(*user, request, *moment), text)?)
        }
        ScriptLine::Match(moment) => Ok(match_line(gate, *moment, text)?),
        ScriptLine::Settle(moment) => Ok(settle_lines(gate, *moment, text)?),
        ScriptLine::Stream(user) => add_stream(gate, *user, text),
    }
}

/// Does what the bytes of a line ask for, and puts what they print into the text.
#[tactic(auto, unfolding(crate::specs::Scripting::line_effect))]
pub(crate) fn take_line<G: AccessGate>(
    gate: &mut G,
    line: &[u8],
    text: &mut Vec<u8>,
) -> Result<(), LineFault>
    requires empty { text.old.items ≡ [] }
    ensures ok { OnOk result (line_effect (G.state gate.old) line.now
        ≡ Some (record { gate = G.state gate.new; text = text.new.items })) }
    ensures err { IfErr result
        (Leaves (G.state gate.old) (line_effect (G.state gate.old) line.now) (G.state gate.new)) }
{
    let mut said = ScriptLine::Skipped;
    said.read_from(line)?;
    run_line(gate, &said, text)
}
