//! What a connection's first packets come to.

ghost use Rattle.std.specs.Prelude.{◌≡◌};

use gx_soup::{ClientPacket, Feeder, LoginRequest, SoupFault};
use std::marker::Model;

/// A connection that begins with a login: what was read of it so far. Heartbeats and Debug packets before the login change
/// nothing, and are gone.
#[derive(Drop)]
pub struct Opening {
    pub(crate) login: LoginRequest,
    pub(crate) packets: Vec<ClientPacket>,
    /// The place of the login among the packets.
    pub(crate) at: usize,
    pub(crate) fault: Option<SoupFault>,
    pub(crate) feeder: Feeder,
}

impl Model for Opening {
    ghost use Rattle.std.specs.Prelude.{◌≡◌, ◌≤◌, drop, length, Some, slice_get};
    ghost use Rattle.gx_soup.specs.declared.packet.ClientPacket.TheVariants as client;
    ghost use Rattle.gx_reception.specs.Openings.{OpeningData};

    ghost Value = { OpeningData };

    ghost view = { λ o. record {
      login = o.login;
      packets = drop o.at o.packets.items;
      fault = o.fault;
      feeder = o.feeder;
    } };

    ghost invariant = { λ o. slice_get o.packets.items o.at ≡ Some (client.Login o.login) };
}

impl Opening {
    /// The login.
    pub fn login(&self) -> LoginRequest
        ensures { result ≡ self.now.login }
    {
        self.login
    }

    /// The packets that came, from the login on.
    pub fn packets(&self) -> &[ClientPacket]
        ensures { result.now ≡ self.now.packets }
    {
        &self.packets[self.at..]
    }

    /// What is wrong with the bytes behind them.
    pub fn fault(&self) -> Option<SoupFault>
        ensures { result ≡ self.now.fault }
    {
        self.fault
    }

    /// What has read them.
    pub fn into_feeder(self) -> Feeder
        ensures { result ≡ self.feeder }
    {
        self.feeder
    }
}

/// What a connection's first packets come to, from the first on that is no heartbeat and no Debug packet.
#[derive(Drop)]
pub enum Knock {
    /// It is a Login Request.
    Login(Opening),
    /// It is another one, which ends the session.
    Other,
    /// There is none, and behind them come bytes that are no packets.
    Broken(SoupFault),
    /// There was no memory for what came.
    Refused,
    /// There is none: the input has ended, or failed.
    Ended,
}
