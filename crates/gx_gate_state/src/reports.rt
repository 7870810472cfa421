//! What users are told: the messages of OUCH, from orders, fills and denials, and the answers to
//! officers.

ghost use Rattle.std.specs.Prelude.{◌≡◌, ◌<◌, [], ◌∷◌, option_to_list, IfSome};
ghost use Rattle.gx_history.specs.{Reasons.{denial_code, reject_reason}, Streams.{canceled_of, rejected_of, replaced_of, reports_of_denial}, World.accepted_of};
ghost use Rattle.gx_streams.specs.{Kept.reserved_in, Telling.end_message};
ghost use Rattle.gx_gate_state.specs.{State.with_message, Ends.{answer_message, day_end_message}};

use gx_desk::{Answer, AnswerCode, Command};
use gx_history::live_order::LiveOrder;
use gx_history::record::{RecordData, Request};
use gx_history::report::{Message, Report};
use gx_orders::request_tokens::new_token;
use gx_ouch::{
    Accepted, CancelReason, Canceled, EventCode, OrderTerms, Outbound, RejectReason, Rejected,
    Replaced,
};
use gx_policy::{Policy, RuleName};
use gx_streams::Streams;
use gx_units::{Moment, RuleId, UserName};

fn reason_of_rule(policy: &Policy, name: RuleId) -> Option<RejectReason>
    ensures { result ≡ reject_reason policy.now (RuleName.File name) }
{
    match policy.rule(name) {
        Some(rule) => Some(rule.kind.name().reject_reason()),
        None => None,
    }
}

/// The reason given for a denial that is answered Rejected, by a rule P or a rule of the file; None
/// for others.
fn reject_reason(policy: &Policy, rule: RuleName) -> Option<RejectReason>
    ensures { result ≡ reject_reason policy.now rule }
{
    match rule {
        RuleName::P1 => Some(RejectReason::Closed),
        RuleName::P2 => Some(RejectReason::RejectAll),
        RuleName::P3 => Some(RejectReason::FirmNotAuthorized),
        RuleName::P4 => Some(RejectReason::InvalidStock),
        RuleName::P5 => Some(RejectReason::SharesExceedSafety),
        RuleName::P6 => Some(RejectReason::InvalidPrice),
        RuleName::P7 => Some(RejectReason::InvalidDisplay),
        RuleName::P8 => Some(RejectReason::Other),
        RuleName::P9 => Some(RejectReason::InvalidMinimumQuantity),
        RuleName::P10 => Some(RejectReason::NotAllowedInCross),
        RuleName::P11 => Some(RejectReason::Other),
        RuleName::P12 => Some(RejectReason::Other),
        RuleName::File(name) => reason_of_rule(policy, name),
        _ => None,
    }
}

/// Rejected: to who asked for an order that a rule denies, if the rule is one whose denial is
/// answered.
fn rejected(policy: &Policy, rule: RuleName, request: &Request) -> Option<Message>
    ensures { option_to_list result ≡ rejected_of policy.now request.now rule }
{
    let token = new_token(request)?;
    let reason = reject_reason(policy, rule)?;
    Some(Message::Order(Outbound::Rejected(Rejected { token, reason })))
}

/// Answer: to the officer whose command the record grants, or denies by a rule of this code.
pub fn answer(left: &RecordData, c: &Command, code: AnswerCode) -> Message
    ensures { result ≡ answer_message left.now c.now code }
{
    Message::Answer(Answer {
        tag: c.tag,
        command_type: c.action.command_type(),
        code,
        record_number: left.number,
    })
}

/// The code of the answer to a command that this rule denies; None for a rule whose denial is told
/// nobody.
fn denial_code(rule: RuleName) -> Option<AnswerCode>
    ensures { result ≡ denial_code rule }
{
    match rule {
        RuleName::Q1 => Some(AnswerCode::UnknownName),
        RuleName::Q2 => Some(AnswerCode::NoPower),
        RuleName::Q3 => Some(AnswerCode::NotHisAccount),
        RuleName::Q4 => Some(AnswerCode::NoChange),
        _ => None,
    }
}

/// What a denial tells who asked: Answer of a command, and Rejected of an order, if the rule is one
/// whose denial is told.
pub fn reports_of_denial(
    policy: &Policy,
    left: &RecordData,
    rule: RuleName,
    request: &Request,
) -> Option<Message>
    ensures { option_to_list result ≡ reports_of_denial policy.now left.now rule request.now }
{
    match request {
        Request::Command(c) => {
            let code = denial_code(rule)?;
            Some(answer(left, c, code))
        }
        _ => rejected(policy, rule, request),
    }
}

/// System Event: to a trader, at the end of the day.
pub fn day_end() -> Message
    ensures { result ≡ day_end_message }
{
    Message::Order(Outbound::SystemEvent(EventCode::EndOfDay))
}

/// Accepted: to who asked for the order.
pub fn accepted(order: &LiveOrder) -> Message
    ensures { result ∷ [] ≡ accepted_of order.now }
{
    Message::Order(Outbound::Accepted(Accepted {
        token: order.token,
        terms: order.terms,
        order_reference: order.number,
    }))
}

/// Replaced: to who asked for the new order in the place of the old one.
pub fn replaced(old: &LiveOrder, new: &LiveOrder) -> Message
    ensures { result ∷ [] ≡ replaced_of old.now new.now }
{
    Message::Order(Outbound::Replaced(Replaced {
        token: new.token,
        terms: OrderTerms {
            shares: new.open(),
            ..new.terms
        },
        order_reference: new.number,
        previous_token: old.token,
    }))
}

/// Canceled: to the user of an order that has so many shares less, and why.
pub fn canceled(order: &LiveOrder, decrement: u32, reason: CancelReason) -> Message
    ensures { result ∷ [] ≡ canceled_of reason decrement order.now }
{
    Message::Order(Outbound::Canceled(Canceled {
        token: order.token,
        decrement,
        reason,
    }))
}

/// Canceled: to the user of an order that an officer's command ends, with the shares that were
/// open.
pub fn ended(order: &LiveOrder) -> Message
    ensures { result ≡ (end_message order.now).1 }
{
    canceled(order, order.open(), CancelReason::Supervisory)
}

/// Tells the user, who is looked for at this place of the policy's users first, if there is something to tell.
#[inline(always)]
pub fn tell(
    streams: &mut Streams,
    user: UserName,
    near: usize,
    moment: Moment,
    found: Option<Message>,
)
    requires { IfSome found (λ message. 0 < reserved_in streams.old.lists user) }
    ensures { streams.new ≡ with_message user moment found streams.old }
{
    if let Some(message) = found {
        streams.append_reserved(
            user,
            near,
            Report {
                timestamp: moment,
                message,
            },
        );
    }
}
