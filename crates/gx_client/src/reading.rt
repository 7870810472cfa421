//! The gate's messages, read from bytes.

ghost use Rattle.std.specs.{Prelude.{◌≡◌, ◌<◌, ◌≤◌, ◌^◌, length, IfNone, IfSome}, Int.{w32, w64, from_be_bytes}};
ghost use Rattle.gx_ouch.specs.declared.outbound.Outbound.TheVariants as outbounds;
ghost use Rattle.gx_ouch.specs.{Layout.field_bytes, Messages.{system_event, accepted_layout, replaced_layout, canceled_layout, executed_layout, rejected_layout}, Writing.outbound_bytes};
ghost use Rattle.gx_desk.specs.Writing.{answer_bytes, drop_copy_bytes};
ghost use Rattle.gx_client.specs.{Messages.{IsOutbound, IsAnswer, IsDropCopy, NumbersFit, TermsFit, HasNone, ReadsBack}, Reading.{message_in, terms_of, executed_in, event_in_parts, accepted_in_parts, replaced_in_parts, canceled_in_parts, rejected_in_parts, outbound_shown, answer_shown, drop_copy_shown}};

use crate::letters::{answer_code, cancel_reason, event_code, liquidity, reject_reason};
use gx_desk::{Answer, DropCopy, Tag};
use gx_ouch::{
    Accepted, Canceled, Executed, MESSAGE_ROOM, OrderTerms, Outbound, Rejected, Replaced, text,
};
use gx_units::{AccountName, Firm, Symbol, Token};

/// A message, with its moment in nanoseconds past midnight.
#[derive(Clone, Copy)]
pub struct Stamped<M> {
    /// Timestamp, in nanoseconds past midnight.
    pub timestamp: u64,
    /// All else of the message.
    pub message: M,
}

/// The message to a trader whose bytes these are, with its moment: the very one that the gate writes so. None where it
/// writes no message so.
pub fn read_outbound(bytes: &[u8]) -> Option<Stamped<Outbound>>
    ensures written { IfSome result (λ read.
        outbound_bytes read.timestamp read.message ≡ bytes.now) }
    ensures held { IfSome result (λ read. IsOutbound read.timestamp read.message) }
    ensures none { IfNone result (HasNone IsOutbound outbound_bytes bytes.now) }
    ensures read_back { ReadsBack IsOutbound outbound_bytes bytes.now result }
{
    outbound_in(bytes)
}

/// The answer to a command whose bytes these are, with its moment: the very one that the gate writes so. None where it
/// writes no answer so.
pub fn read_answer(bytes: &[u8]) -> Option<Stamped<Answer>>
    ensures written { IfSome result (λ read.
        answer_bytes read.timestamp read.message ≡ bytes.now) }
    ensures held { IfSome result (λ read. IsAnswer read.timestamp read.message) }
    ensures none { IfNone result (HasNone IsAnswer answer_bytes bytes.now) }
    ensures read_back { ReadsBack IsAnswer answer_bytes bytes.now result }
{
    answer_in(bytes)
}

/// The drop copy whose bytes these are, with its moment: the very one that the gate writes so. None where it writes no
/// drop copy so. A trader's own Executed has the same type, and less bytes: it is none.
pub fn read_drop_copy(bytes: &[u8]) -> Option<Stamped<DropCopy>>
    ensures written { IfSome result (λ read.
        drop_copy_bytes read.timestamp read.message ≡ bytes.now) }
    ensures held { IfSome result (λ read. IsDropCopy read.timestamp read.message) }
    ensures none { IfNone result (HasNone IsDropCopy drop_copy_bytes bytes.now) }
    ensures read_back { ReadsBack IsDropCopy drop_copy_bytes bytes.now result }
{
    drop_copy_in(bytes)
}

/// The message that stands at its places, where its bytes are all of these.
fn outbound_in(bytes: &[u8]) -> Option<Stamped<Outbound>>
    ensures read { result ≡ message_in outbound_shown outbound_bytes bytes.now }
    ensures held { IfSome result (λ read. IsOutbound read.timestamp read.message) }
{
    let message = outbound_shown(bytes)?;
    let timestamp = long(&bytes[1..9]);
    let mut room = [0; MESSAGE_ROOM];
    let length = message.write(timestamp, &mut room);
    if &room[..length] == bytes {
        Some(Stamped { timestamp, message })
    } else {
        None
    }
}

fn answer_in(bytes: &[u8]) -> Option<Stamped<Answer>>
    ensures read { result ≡ message_in answer_shown answer_bytes bytes.now }
    ensures held { IfSome result (λ read. IsAnswer read.timestamp read.message) }
{
    let message = answer_shown(bytes)?;
    let timestamp = long(&bytes[1..9]);
    let mut room = [0; MESSAGE_ROOM];
    let length = message.write(timestamp, &mut room);
    if &room[..length] == bytes {
        Some(Stamped { timestamp, message })
    } else {
        None
    }
}

fn drop_copy_in(bytes: &[u8]) -> Option<Stamped<DropCopy>>
    ensures read { result ≡ message_in drop_copy_shown drop_copy_bytes bytes.now }
    ensures held { IfSome result (λ read. IsDropCopy read.timestamp read.message) }
{
    let message = drop_copy_shown(bytes)?;
    let timestamp = long(&bytes[1..9]);
    let mut room = [0; MESSAGE_ROOM];
    let length = message.write(timestamp, &mut room);
    if &room[..length] == bytes {
        Some(Stamped { timestamp, message })
    } else {
        None
    }
}

/// The message at the places that the bytes' type and length give. Some bytes of it stay unread.
#[tactic(auto, unfolding(crate::specs::Reading::outbound_shown))]
fn outbound_shown(bytes: &[u8]) -> Option<Outbound>
    ensures shown { result ≡ outbound_shown bytes.now }
    ensures fits { IfSome result NumbersFit }
    ensures enough { IfSome result (λ _. 9 ≤ length bytes.now) }
{
    match (bytes.first()?, bytes.len()) {
        (b'S', 10) => event_shown(bytes),
        (b'A', 66) => Some(accepted_shown(bytes)),
        (b'U', 80) => Some(replaced_shown(bytes)),
        (b'C', 28) => canceled_shown(bytes),
        (b'E', 40) => Some(Outbound::Executed(executed_shown(bytes)?)),
        (b'J', 24) => rejected_shown(bytes),
        _ => None,
    }
}

fn event_shown(bytes: &[u8]) -> Option<Outbound>
    requires { length bytes.now ≡ 10 }
    ensures shown { result ≡ event_in_parts (field_bytes system_event bytes.now) }
    ensures fits { IfSome result NumbersFit }
{
    let event = event_code(bytes[9])?;
    Some(Outbound::SystemEvent(event))
}

fn accepted_shown(bytes: &[u8]) -> Outbound
    requires { length bytes.now ≡ 66 }
    ensures shown { result ≡ accepted_in_parts (field_bytes accepted_layout bytes.now) }
    ensures fits { NumbersFit result }
{
    Outbound::Accepted(Accepted {
        token: token(&bytes[9..23]),
        terms: terms_shown(bytes),
        order_reference: long(&bytes[49..57]),
    })
}

fn replaced_shown(bytes: &[u8]) -> Outbound
    requires { length bytes.now ≡ 80 }
    ensures shown { result ≡ replaced_in_parts (field_bytes replaced_layout bytes.now) }
    ensures fits { NumbersFit result }
{
    Outbound::Replaced(Replaced {
        token: token(&bytes[9..23]),
        terms: terms_shown(bytes),
        order_reference: long(&bytes[49..57]),
        previous_token: token(&bytes[65..79]),
    })
}

/// The terms in an Accepted or a Replaced, which both have them at the same places.
fn terms_shown(bytes: &[u8]) -> OrderTerms
    requires { 65 ≤ length bytes.now }
    ensures accepted { result ≡ terms_of (field_bytes accepted_layout bytes.now) }
    ensures replaced { result ≡ terms_of (field_bytes replaced_layout bytes.now) }
    ensures fits { TermsFit result }
{
    OrderTerms {
        side: bytes[23],
        shares: number(&bytes[24..28]),
        stock: Symbol {
            bytes: text(&bytes[28..36]),
        },
        price: number(&bytes[36..40]),
        time_in_force: number(&bytes[40..44]),
        firm: Firm {
            bytes: text(&bytes[44..48]),
        },
        display: bytes[48],
        capacity: bytes[57],
        intermarket_sweep: bytes[58],
        minimum_quantity: number(&bytes[59..63]),
        cross_type: bytes[63],
    }
}

fn canceled_shown(bytes: &[u8]) -> Option<Outbound>
    requires { length bytes.now ≡ 28 }
    ensures shown { result ≡ canceled_in_parts (field_bytes canceled_layout bytes.now) }
    ensures fits { IfSome result NumbersFit }
{
    let reason = cancel_reason(bytes[27])?;
    Some(Outbound::Canceled(Canceled {
        token: token(&bytes[9..23]),
        decrement: number(&bytes[23..27]),
        reason,
    }))
}

/// The Executed in a message of its own, or at the front of a drop copy.
fn executed_shown(bytes: &[u8]) -> Option<Executed>
    requires { 40 ≤ length bytes.now }
    ensures shown { result ≡ executed_in (field_bytes executed_layout bytes.now) }
    ensures fits { IfSome result (λ m. NumbersFit (outbounds.Executed m)) }
{
    let liquidity = liquidity(bytes[31])?;
    Some(Executed {
        token: token(&bytes[9..23]),
        shares: number(&bytes[23..27]),
        price: number(&bytes[27..31]),
        liquidity,
        match_number: long(&bytes[32..40]),
    })
}

fn rejected_shown(bytes: &[u8]) -> Option<Outbound>
    requires { length bytes.now ≡ 24 }
    ensures shown { result ≡ rejected_in_parts (field_bytes rejected_layout bytes.now) }
    ensures fits { IfSome result NumbersFit }
{
    let reason = reject_reason(bytes[23])?;
    Some(Outbound::Rejected(Rejected {
        token: token(&bytes[9..23]),
        reason,
    }))
}

fn answer_shown(bytes: &[u8]) -> Option<Answer>
    ensures shown { result ≡ answer_shown bytes.now }
    ensures fits { IfSome result (λ m. m.record_number < 2 ^ 64) }
    ensures enough { IfSome result (λ _. 9 ≤ length bytes.now) }
{
    if bytes.len() != 34 {
        return None;
    }
    let code = answer_code(text(&bytes[24..26]))?;
    Some(Answer {
        tag: Tag {
            bytes: text(&bytes[9..23]),
        },
        command_type: bytes[23],
        code,
        record_number: long(&bytes[26..34]),
    })
}

fn drop_copy_shown(bytes: &[u8]) -> Option<DropCopy>
    ensures shown { result ≡ drop_copy_shown bytes.now }
    ensures fits { IfSome result (λ m. NumbersFit (outbounds.Executed m.executed)) }
    ensures enough { IfSome result (λ _. 9 ≤ length bytes.now) }
{
    if bytes.len() != 49 {
        return None;
    }
    let executed = executed_shown(bytes)?;
    Some(DropCopy {
        executed,
        account: AccountName {
            bytes: text(&bytes[40..48]),
        },
        side: bytes[48],
    })
}

fn token(field: &[u8]) -> Token
    requires { length field.now ≡ 14 }
    ensures { result ≡ record { bytes = field.now } }
{
    Token { bytes: text(field) }
}

/// The number in a field of four bytes.
fn number(field: &[u8]) -> u32
    requires { length field.now ≡ 4 }
    ensures { result ≡ from_be_bytes w32 field.now }
{
    u32::from_be_bytes(text(field))
}

/// The number in a field of eight bytes.
fn long(field: &[u8]) -> u64
    requires { length field.now ≡ 8 }
    ensures { result ≡ from_be_bytes w64 field.now }
{
    u64::from_be_bytes(text(field))
}
