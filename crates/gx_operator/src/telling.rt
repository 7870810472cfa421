//! The lines that are shown of the gate's messages.

ghost use Rattle.std.specs.Prelude.{◌≡◌, ℕ, IfOk, IfSome, Some, None, option_map, if◌then◌else◌};
ghost use Rattle.gx_history.specs.ReportBytes.{message_bytes, report_bytes};
ghost use Rattle.gx_client.specs.Reports.{report_bytes as told_bytes};
ghost use Rattle.gx_operator.specs.Hearing.{message_token, is_own_token, shown_answer};
ghost use Rattle.gx_lines.specs.{AnswerLines.earlier_answer_line, OrderLines.{order_line, copy_line}};

use crate::asked::ClientRequest;
use crate::serial::serial;
use gx_client::{Report as ServerReport, Stamped, read_report};
use gx_desk::{Answer, DropCopy};
use gx_history::report::{Message, Report};
use gx_lines::{LimitForm, answer_line, copy_line, earlier_answer_line, order_line};
use gx_ouch::Outbound;
use gx_text::Form;
use gx_units::{Moment, OutOfMemory, Token};
use std::alloc::Global;

fn message_of(told: ServerReport) -> Message
    ensures { (timestamp : ℕ) → message_bytes timestamp result ≡ told_bytes timestamp told }
{
    match told {
        ServerReport::Order(message) => Message::Order(message),
        ServerReport::Answer(answer) => Message::Answer(answer),
        ServerReport::DropCopy(copy) => Message::DropCopy(copy),
    }
}

/// The report whose bytes these are, if they are one's.
#[tactic(auto, unfolding(gx_history::specs::ReportBytes::report_bytes))]
pub fn read_message(bytes: &[u8]) -> Option<Report>
    ensures { IfSome result (λ report. report_bytes report ≡ bytes.now) }
{
    let Stamped { timestamp, message } = read_report(bytes)?;
    Some(Report {
        timestamp,
        message: message_of(message),
    })
}

fn token_of(message: &Outbound) -> Option<Token>
    ensures { result ≡ message_token message.now }
{
    match message {
        Outbound::SystemEvent(_) => None,
        Outbound::Accepted(accepted) => Some(accepted.token),
        Outbound::Replaced(replaced) => Some(replaced.token),
        Outbound::Canceled(canceled) => Some(canceled.token),
        Outbound::Executed(executed) => Some(executed.token),
        Outbound::Rejected(rejected) => Some(rejected.token),
    }
}

fn is_own_token(first: u64, token: Option<Token>) -> bool
    ensures { result ≡ is_own_token first token }
{
    match token {
        None => false,
        Some(token) => token.bytes[..8] == serial(first)[..8],
    }
}

/// Whether the message is on an order of the run with this first serial.
pub(crate) fn is_of_run(first: u64, message: &Outbound) -> bool
    ensures { result ≡ is_own_token first (message_token message.now) }
{
    is_own_token(first, token_of(message))
}

fn watched_answer(
    alloc: Global,
    form: Form,
    moment: Moment,
    is_watching: bool,
    answer: &Answer,
) -> Result<Option<Vec<u8>>, OutOfMemory>
    ensures { IfOk result (λ line. option_map (λ l. l.items) line
        ≡ (if is_watching then Some (earlier_answer_line form moment answer.now) else None)) }
{
    if !is_watching {
        return Ok(None);
    }
    Ok(Some(earlier_answer_line(alloc, form, moment, answer)?))
}

/// The line of an answer to this; `told` is how it tells a limit.
pub(crate) fn shown_answer(
    alloc: Global,
    form: Form,
    told: LimitForm,
    moment: Moment,
    is_watching: bool,
    answer: &Answer,
    asked: Option<ClientRequest>,
) -> Result<Option<Vec<u8>>, OutOfMemory>
    ensures { IfOk result (λ line. option_map (λ l. l.items) line
        ≡ shown_answer form told moment is_watching answer.now asked) }
{
    match asked {
        Some(ClientRequest::Command(command)) => Ok(Some(answer_line(
            alloc,
            form,
            told,
            moment,
            &command.action,
            answer,
        )?)),
        _ => watched_answer(alloc, form, moment, is_watching, answer),
    }
}

/// The line of a message on an order, where it is shown.
pub(crate) fn shown_order(
    alloc: Global,
    form: Form,
    moment: Moment,
    is_shown: bool,
    message: &Outbound,
) -> Result<Option<Vec<u8>>, OutOfMemory>
    ensures { IfOk result (λ line. option_map (λ l. l.items) line
        ≡ (if is_shown then Some (order_line form moment message.now) else None)) }
{
    if !is_shown {
        return Ok(None);
    }
    Ok(Some(order_line(alloc, form, moment, message)?))
}

/// The line of a drop copy, where it is shown.
pub(crate) fn shown_copy(
    alloc: Global,
    form: Form,
    moment: Moment,
    is_shown: bool,
    copy: &DropCopy,
) -> Result<Option<Vec<u8>>, OutOfMemory>
    ensures { IfOk result (λ line. option_map (λ l. l.items) line
        ≡ (if is_shown then Some (copy_line form moment copy.now) else None)) }
{
    if !is_shown {
        return Ok(None);
    }
    Ok(Some(copy_line(alloc, form, moment, copy)?))
}
