//! The packets of either side.

use crate::payload::Payload;
use gx_units::{LoginRejection, Password, SessionName, UserName};

/// Why a text is no row of packets.
#[derive(Clone, Copy, PartialEq, Eq)]
pub enum SoupFault {
    /// A packet's length is 0, so that it has no type. Told at the length's second byte.
    ZeroLength,
    /// A packet has a type that no client sends. Told at the type.
    UnknownType,
    /// A Login Request whose length is not 47, told at its type; or whose requested number is not made of digits,
    /// told once all of it is there.
    BadLogin,
}

/// The fields of a Login Request, as they came: padded, and in either case.
#[derive(Clone, Copy)]
pub struct LoginRequest {
    /// Username.
    pub user: UserName,
    /// Password.
    pub password: Password,
    /// Requested Session. Blank: the current one.
    pub session: SessionName,
    /// Requested Sequence Number: the first report wanted. 0 asks for the last one; a number past 64 bits came as
    /// the greatest of 64 bits.
    pub wanted: u64,
}

/// A packet from a client.
#[derive(Drop)]
pub enum ClientPacket {
    /// Login Request, `L`.
    Login(LoginRequest),
    /// Unsequenced Data, `U`: one message.
    Data(Payload),
    /// Client Heartbeat, `R`. What it carries is ignored.
    Heartbeat,
    /// Logout Request, `O`. What it carries is ignored.
    Logout,
    /// Debug, `+`. What it carries is ignored.
    Debug,
}

/// A packet from the server.
#[derive(Drop)]
pub enum ServerPacket {
    /// Login Accepted, `A`: the session, and the number of the next report.
    Accepted(SessionName, u64),
    /// Login Rejected, `J`.
    Rejected(LoginRejection),
    /// Sequenced Data, `S`: one report.
    Sequenced(Payload),
    /// Server Heartbeat, `H`.
    Heartbeat,
    /// End of Session, `Z`.
    EndOfSession,
}
