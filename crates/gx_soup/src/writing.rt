//! Packets as bytes.

ghost use Rattle.std.specs.Prelude.{◌≡◌, ◌≤◌, ◌++◌, length, IfOk, OnOk};
ghost use Rattle.gx_soup.specs.{declared.packet.ServerPacket.TheVariants.Sequenced, Standard.longest_payload, Writing.{framed_packet, server_bytes, HasRoom, client_bytes, ClientHasRoom, number_field, session_field, login_payload, reason_code}};

use crate::fields::padded_left;
use crate::packet::{ClientPacket, LoginRequest, ServerPacket};
use gx_units::{LoginRejection, OutOfMemory, SessionName, trimmed};
use std::alloc::Global;

/// The bytes of a server's packet: its length, its type, and what it carries. The session of a Login Accepted and
/// its number stand on the right of their fields. A payload has to be 65,534 bytes at most, which the length can
/// count.
///
/// # Errors
///
/// `OutOfMemory` where memory was refused.
#[tactic(auto, unfolding(crate::specs::Writing::server_bytes))]
pub fn encode(alloc: Global, packet: &ServerPacket) -> Result<Vec<u8>, OutOfMemory>
    requires { HasRoom packet.now }
    ensures { IfOk result (λ bytes. bytes.items ≡ server_bytes packet.now) }
{
    match packet {
        ServerPacket::Accepted(session, next) => {
            let mut payload = session_field(alloc, session)?;
            let number = number_field(alloc, *next)?;
            payload.extend_from_slice(number.as_slice())?;
            framed(alloc, b'A', payload.as_slice())
        }
        ServerPacket::Rejected(why) => framed(alloc, b'J', &[reason_code(*why)]),
        ServerPacket::Sequenced(payload) => framed(alloc, b'S', payload.as_slice()),
        ServerPacket::Heartbeat => framed(alloc, b'H', &[]),
        ServerPacket::EndOfSession => framed(alloc, b'Z', &[]),
    }
}

/// The bytes of a client's packet: its length, its type, and what it carries. A login's texts are written as they
/// are, its number on the right of its field; a heartbeat, a logout and a debug packet carry nothing. A payload has
/// to be 65,534 bytes at most.
///
/// # Errors
///
/// `OutOfMemory` where memory was refused.
#[tactic(auto, unfolding(crate::specs::Writing::client_bytes))]
pub fn encode_client(alloc: Global, packet: &ClientPacket) -> Result<Vec<u8>, OutOfMemory>
    requires { ClientHasRoom packet.now }
    ensures { IfOk result (λ bytes. bytes.items ≡ client_bytes packet.now) }
{
    match packet {
        ClientPacket::Login(login) => {
            let payload = login_payload(alloc, login)?;
            framed(alloc, b'L', payload.as_slice())
        }
        ClientPacket::Data(payload) => framed(alloc, b'U', payload.as_slice()),
        ClientPacket::Heartbeat => framed(alloc, b'R', &[]),
        ClientPacket::Logout => framed(alloc, b'O', &[]),
        ClientPacket::Debug => framed(alloc, b'+', &[]),
    }
}

/// A length, a type, and what the packet carries.
fn framed(alloc: Global, kind: u8, payload: &[u8]) -> Result<Vec<u8>, OutOfMemory>
    requires { length payload.now ≤ longest_payload }
    ensures { IfOk result (λ bytes. bytes.items ≡ framed_packet kind payload.now) }
{
    let mut bytes = Vec::with_capacity(alloc, payload.len() + 3)?;
    append_framed(&mut bytes, kind, payload)?;
    Ok(bytes)
}

/// Puts a length, a type, and what the packet carries at the end of the text.
fn append_framed(text: &mut Vec<u8>, kind: u8, payload: &[u8]) -> Result<(), OutOfMemory>
    requires { length payload.now ≤ longest_payload }
    ensures { OnOk result (text.new.items ≡ text.old.items ++ framed_packet kind payload.now) }
{
    let count = payload.len() + 1;
    text.extend_from_slice(&[(count / 256) as u8, (count % 256) as u8, kind])?;
    text.extend_from_slice(payload)?;
    Ok(())
}

/// Puts a Sequenced Data packet that carries these bytes at the end of the text: 65,534 bytes at most.
///
/// # Errors
///
/// `OutOfMemory` where memory was refused; then a part of it may stand at the end of the text.
#[tactic(auto, unfolding(crate::specs::Writing::server_bytes))]
pub fn append_sequenced(text: &mut Vec<u8>, payload: &[u8]) -> Result<(), OutOfMemory>
    requires { length payload.now ≤ longest_payload }
    ensures { OnOk result (text.new.items
        ≡ text.old.items ++ server_bytes (Sequenced payload.now)) }
{
    append_framed(text, b'S', payload)
}

fn login_payload(alloc: Global, login: &LoginRequest) -> Result<Vec<u8>, OutOfMemory>
    ensures text { IfOk result (λ bytes. bytes.items ≡ login_payload login.now) }
    ensures length { IfOk result (λ bytes. length bytes.items ≡ 46) }
{
    let number = number_field(alloc, login.wanted)?;
    let mut payload = Vec::from_slice(alloc, &login.user.bytes)?;
    payload.extend_from_slice(&login.password.bytes)?;
    payload.extend_from_slice(&login.session.bytes)?;
    payload.extend_from_slice(number.as_slice())?;
    Ok(payload)
}

fn reason_code(why: LoginRejection) -> u8
    ensures { result ≡ reason_code why }
{
    match why {
        LoginRejection::NotAuthorized => b'A',
        LoginRejection::SessionNotAvailable => b'S',
    }
}

fn session_field(alloc: Global, session: &SessionName) -> Result<Vec<u8>, OutOfMemory>
    ensures text { IfOk result (λ bytes. bytes.items ≡ session_field session.now) }
    ensures width { IfOk result (λ bytes. length bytes.items ≡ 10) }
{
    padded_left(alloc, 10, trimmed(&session.bytes))
}

fn number_field(alloc: Global, number: u64) -> Result<Vec<u8>, OutOfMemory>
    ensures text { IfOk result (λ bytes. bytes.items ≡ number_field number) }
    ensures width { IfOk result (λ bytes. length bytes.items ≡ 20) }
{
    let digits = number.to_string(alloc)?;
    padded_left(alloc, 20, digits.as_bytes())
}
