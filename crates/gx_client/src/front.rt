//! What stands first in a server's text.

ghost use Rattle.std.specs.{Prelude.{◌≡◌, ◌<◌, length, slice_index, slice_range, IfOk}, Char.is_ascii_digit, List.list_all};
ghost use Rattle.gx_soup.specs.Login.{number_of};
ghost use Rattle.gx_client.specs.ServerPackets.{server_front, server_typed_front, server_whole_front, accepted_front, rejected_front, plain_server_packet, is_server_type, has_its_length, rejection_of};

use gx_ouch::text;
use gx_soup::{Payload, ServerPacket, spelled_value};
use gx_units::{LoginRejection, OutOfMemory, SessionName, trimmed};
use std::alloc::Global;

/// Why a text is no row of a server's packets.
#[derive(Clone, Copy, PartialEq, Eq)]
pub enum ServerFault {
    /// A packet's length is 0, so that it has no type. Told at the length's second byte.
    ZeroLength,
    /// A packet has a type that no server sends. Told at the type.
    UnknownType,
    /// A packet's length is not that of its type: 31 of a Login Accepted, 2 of a Login Rejected, 1 of a Server Heartbeat
    /// and of an End of Session. Told at the type.
    WrongLength,
    /// A Login Accepted whose number is not made of digits, or a Login Rejected whose reason is none. Told once all of
    /// it is there.
    BadAnswer,
}

/// What stands first in some bytes.
#[derive(Drop)]
pub(crate) enum ServerFront {
    /// Less than a packet.
    Short,
    Faulty(ServerFault),
    /// A packet, or none where it is passed over, and how many bytes it takes.
    Whole(Option<ServerPacket>, usize),
}

/// What stands first in the bytes. It looks at no more than the bytes of one packet, and at three while they are
/// not all there.
#[tactic(auto, unfolding(crate::specs::ServerPackets::server_front))]
pub(crate) fn read_front(alloc: Global, bytes: &[u8]) -> Result<ServerFront, OutOfMemory>
    ensures { IfOk result (λ f. f ≡ server_front bytes.now) }
{
    let [high, low, body @ ..] = bytes else {
        return Ok(ServerFront::Short);
    };
    let count = 256 * (*high as usize) + *low as usize;
    if count == 0 {
        return Ok(ServerFront::Faulty(ServerFault::ZeroLength));
    }
    typed_front(alloc, count, body)
}

fn typed_front(alloc: Global, count: usize, body: &[u8]) -> Result<ServerFront, OutOfMemory>
    requires above { 0 < count }
    requires below { count < 65536 }
    ensures { IfOk result (λ f. f ≡ server_typed_front count body.now) }
{
    let [kind, body @ ..] = body else {
        return Ok(ServerFront::Short);
    };
    let kind = *kind;
    if !is_server_type(kind) {
        return Ok(ServerFront::Faulty(ServerFault::UnknownType));
    }
    if !has_its_length(kind, count) {
        return Ok(ServerFront::Faulty(ServerFault::WrongLength));
    }
    if body.len() < count - 1 {
        return Ok(ServerFront::Short);
    }
    whole_front(alloc, kind, &body[..count - 1])
}

fn is_server_type(kind: u8) -> bool
    ensures { result ≡ is_server_type kind }
{
    matches!(kind, b'A' | b'J' | b'S' | b'H' | b'Z' | b'+' | b'U')
}

/// Whether a packet of the type may have the length: any, but for the types that have but one.
fn has_its_length(kind: u8, count: usize) -> bool
    ensures { result ≡ has_its_length kind count }
{
    match kind {
        b'A' => count == 31,
        b'J' => count == 2,
        b'H' | b'Z' => count == 1,
        _ => true,
    }
}

fn whole_front(alloc: Global, kind: u8, payload: &[u8]) -> Result<ServerFront, OutOfMemory>
    requires accepted { kind ≡ 65 → length payload.now ≡ 30 }
    requires rejected { kind ≡ 74 → length payload.now ≡ 1 }
    requires below { length payload.now < 65535 }
    ensures { IfOk result (λ f. f ≡ server_whole_front kind payload.now) }
{
    if kind == b'A' {
        return Ok(accepted_front(payload));
    }
    if kind == b'J' {
        return Ok(rejected_front(payload));
    }
    let packet = plain_packet(alloc, kind, payload)?;
    Ok(ServerFront::Whole(packet, payload.len() + 3))
}

/// A packet of a type that answers no login. Debug and Unsequenced Data are passed over.
fn plain_packet(
    alloc: Global,
    kind: u8,
    payload: &[u8],
) -> Result<Option<ServerPacket>, OutOfMemory>
    ensures { IfOk result (λ packet. packet ≡ plain_server_packet kind payload.now) }
{
    Ok(match kind {
        b'S' => Some(ServerPacket::Sequenced(Payload::new(alloc, payload)?)),
        b'H' => Some(ServerPacket::Heartbeat),
        b'Z' => Some(ServerPacket::EndOfSession),
        _ => None,
    })
}

fn accepted_front(payload: &[u8]) -> ServerFront
    requires { length payload.now ≡ 30 }
    ensures { result ≡ accepted_front payload.now (number_of (slice_range payload.now 10 30)) }
{
    let Some(next) = number_of(&payload[10..30]) else {
        return ServerFront::Faulty(ServerFault::BadAnswer);
    };
    let session = SessionName {
        bytes: text(&payload[..10]),
    };
    let packet = ServerPacket::Accepted(session.folded(), next);
    ServerFront::Whole(Some(packet), payload.len() + 3)
}

fn rejected_front(payload: &[u8]) -> ServerFront
    requires { length payload.now ≡ 1 }
    ensures { result ≡ rejected_front payload.now (rejection_of (slice_index payload.now 0)) }
{
    let Some(why) = rejection(payload[0]) else {
        return ServerFront::Faulty(ServerFault::BadAnswer);
    };
    ServerFront::Whole(Some(ServerPacket::Rejected(why)), payload.len() + 3)
}

/// The reason that has this code.
fn rejection(code: u8) -> Option<LoginRejection>
    ensures { result ≡ rejection_of code }
{
    match code {
        b'A' => Some(LoginRejection::NotAuthorized),
        b'S' => Some(LoginRejection::SessionNotAvailable),
        _ => None,
    }
}

/// The number that a field spells, as in a Login Request.
fn number_of(field: &[u8]) -> Option<u64>
    ensures { result ≡ number_of field.now }
{
    let digits = trimmed(field);
    if !are_digits(digits) {
        return None;
    }
    Some(spelled_value(digits).unwrap_or(u64::MAX))
}

fn are_digits(text: &[u8]) -> bool
    ensures { result ≡ list_all is_ascii_digit text.now }
{
    text.iter().all(|byte| byte.is_ascii_digit())
}
