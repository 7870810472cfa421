//! What a client sends, as the bytes of packets.

ghost use Rattle.std.specs.Prelude.{◌≡◌, ◌≤◌, length, IfOk};
ghost use Rattle.gx_soup.specs.declared.packet.ClientPacket.TheVariants as packets;
ghost use Rattle.gx_soup.specs.{Standard.longest_payload, Writing.client_bytes};
ghost use Rattle.gx_client.specs.Sending.{CarriesCommand, CarriesInbound};

use crate::session::ClientSession;
use crate::writing::{write_command, write_inbound};
use gx_desk::Command;
use gx_ouch::Inbound;
use gx_soup::{ClientPacket, Payload, encode_client};
use gx_units::OutOfMemory;
use std::alloc::Global;

impl ClientSession {
    /// The Login Request that begins the session, or takes it up again: it asks for the next report and all behind it.
    ///
    /// # Errors
    ///
    /// `OutOfMemory` where memory was refused.
    pub fn login_packet(&self, alloc: Global) -> Result<Vec<u8>, OutOfMemory>
        ensures { IfOk result (λ bytes. bytes.items
            ≡ client_bytes (packets.Login (record self.now.login { wanted = self.now.next }))) }
    {
        encode_client(alloc, &ClientPacket::Login(self.login_request()))
    }
}

/// The packet that carries a command of an officer.
///
/// # Errors
///
/// `OutOfMemory` where memory was refused.
pub fn command_packet(alloc: Global, command: &Command) -> Result<Vec<u8>, OutOfMemory>
    ensures { IfOk result (λ bytes. CarriesCommand bytes.items command.now) }
{
    let message = write_command(alloc, command)?;
    data_packet(alloc, message.as_slice())
}

/// The packet that carries a message of a trader.
///
/// # Errors
///
/// `OutOfMemory` where memory was refused.
pub fn inbound_packet(alloc: Global, message: &Inbound) -> Result<Vec<u8>, OutOfMemory>
    ensures { IfOk result (λ bytes. CarriesInbound bytes.items message.now) }
{
    let message = write_inbound(alloc, message)?;
    data_packet(alloc, message.as_slice())
}

fn data_packet(alloc: Global, message: &[u8]) -> Result<Vec<u8>, OutOfMemory>
    requires { length message.now ≤ longest_payload }
    ensures { IfOk result (λ bytes. bytes.items ≡ client_bytes (packets.Data message.now)) }
{
    let payload = Payload::new(alloc, message)?;
    encode_client(alloc, &ClientPacket::Data(payload))
}

/// The Client Heartbeat, which says that the client is there.
///
/// # Errors
///
/// `OutOfMemory` where memory was refused.
pub fn heartbeat_packet(alloc: Global) -> Result<Vec<u8>, OutOfMemory>
    ensures { IfOk result (λ bytes. bytes.items ≡ client_bytes packets.Heartbeat) }
{
    encode_client(alloc, &ClientPacket::Heartbeat)
}

/// The Logout Request, which ends the session.
///
/// # Errors
///
/// `OutOfMemory` where memory was refused.
pub fn logout_packet(alloc: Global) -> Result<Vec<u8>, OutOfMemory>
    ensures { IfOk result (λ bytes. bytes.items ≡ client_bytes packets.Logout) }
{
    encode_client(alloc, &ClientPacket::Logout)
}
