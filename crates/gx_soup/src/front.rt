//! What stands first in a text.

ghost use Rattle.std.specs.Prelude.{◌≡◌, ◌<◌, ◌++◌, ◌∷◌, [], length, slice_range, IfOk, OnOk};
ghost use Rattle.gx_soup.specs.{Fronts.{first_of_front, with_front}, Login.number_of, Packets.{front, login_front, plain_packet, is_client_type, typed_front}};

use crate::fields::{fixed, number_of};
use crate::packet::{ClientPacket, LoginRequest, SoupFault};
use crate::payload::Payload;
use gx_units::{OutOfMemory, Password, SessionName, UserName};
use std::alloc::Global;

/// What stands first in some bytes; a packet is put into a list.
#[derive(Clone, Copy)]
pub(crate) enum First {
    /// Less than a packet.
    Short,
    Faulty(SoupFault),
    /// A packet that takes so many bytes.
    Whole(usize),
}

/// The length that a Login Request gives.
const LOGIN_LENGTH: usize = 47;

/// What stands first in the bytes; a packet is put last in the list. It looks at no more than the bytes of one packet, and
/// at three while they are not all there.
#[tactic(auto, unfolding(crate::specs::Packets::front))]
pub(crate) fn put_front(
    alloc: Global,
    bytes: &[u8],
    packets: &mut Vec<ClientPacket>,
) -> Result<First, OutOfMemory>
    ensures told { IfOk result (λ f. f ≡ first_of_front (front bytes.now)) }
    ensures put { OnOk result
        (packets.new.items ≡ with_front packets.old.items (front bytes.now)) }
{
    let [high, low, body @ ..] = bytes else {
        return Ok(First::Short);
    };
    let count = 256 * (*high as usize) + *low as usize;
    if count == 0 {
        return Ok(First::Faulty(SoupFault::ZeroLength));
    }
    put_typed(alloc, count, body, packets)
}

fn put_typed(
    alloc: Global,
    count: usize,
    body: &[u8],
    packets: &mut Vec<ClientPacket>,
) -> Result<First, OutOfMemory>
    requires above { 0 < count }
    requires below { count < 65536 }
    ensures told { IfOk result (λ f. f ≡ first_of_front (typed_front count body.now)) }
    ensures put { OnOk result
        (packets.new.items ≡ with_front packets.old.items (typed_front count body.now)) }
{
    let [kind, body @ ..] = body else {
        return Ok(First::Short);
    };
    let kind = *kind;
    if !is_client_type(kind) {
        return Ok(First::Faulty(SoupFault::UnknownType));
    }
    if kind == b'L' && count != LOGIN_LENGTH {
        return Ok(First::Faulty(SoupFault::BadLogin));
    }
    if body.len() < count - 1 {
        return Ok(First::Short);
    }
    let payload = &body[..count - 1];
    if kind == b'L' {
        return put_login(payload, packets);
    }
    put_plain(alloc, kind, payload, packets)?;
    Ok(First::Whole(payload.len() + 3))
}

fn is_client_type(kind: u8) -> bool
    ensures { result ≡ is_client_type kind }
{
    matches!(kind, b'L' | b'U' | b'R' | b'O' | b'+')
}

/// Puts a packet of a type that is not a login's last in the list.
fn put_plain(
    alloc: Global,
    kind: u8,
    payload: &[u8],
    packets: &mut Vec<ClientPacket>,
) -> Result<(), OutOfMemory>
    ensures { OnOk result
        (packets.new.items ≡ packets.old.items ++ plain_packet kind payload.now ∷ []) }
{
    if kind == b'U' {
        packets.push(ClientPacket::Data(Payload::new(alloc, payload)?))?;
        return Ok(());
    }
    packets.push(match kind {
        b'R' => ClientPacket::Heartbeat,
        b'O' => ClientPacket::Logout,
        _ => ClientPacket::Debug,
    })?;
    Ok(())
}

/// Puts a login last in the list, where its number is one.
fn put_login(payload: &[u8], packets: &mut Vec<ClientPacket>) -> Result<First, OutOfMemory>
    requires { length payload.now ≡ 46 }
    ensures told { IfOk result (λ f. f
        ≡ first_of_front (login_front payload.now (number_of (slice_range payload.now 26 46)))) }
    ensures put { OnOk result (packets.new.items ≡ with_front packets.old.items
        (login_front payload.now (number_of (slice_range payload.now 26 46)))) }
{
    let Some(wanted) = number_of(&payload[26..46]) else {
        return Ok(First::Faulty(SoupFault::BadLogin));
    };
    let login = LoginRequest {
        user: UserName {
            bytes: fixed(&payload[0..6]),
        },
        password: Password {
            bytes: fixed(&payload[6..16]),
        },
        session: SessionName {
            bytes: fixed(&payload[16..26]),
        },
        wanted,
    };
    packets.push(ClientPacket::Login(login))?;
    Ok(First::Whole(LOGIN_LENGTH + 2))
}
