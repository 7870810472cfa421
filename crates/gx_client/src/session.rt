//! A client's session as a machine: it is told packet by packet what the server sends.

ghost use Rattle.std.specs.Prelude.{◌≡◌, [], ◌∷◌, ◌++◌, List};
ghost use Rattle.gx_soup.specs.declared.packet.{LoginRequest.LoginRequest, ServerPacket.ServerPacket};
ghost use Rattle.gx_client.specs.Session.{HasHeard, heard_after, heard_as, standing_after};

use crate::heard::{Heard, Stage};
use gx_soup::{LoginRequest, ServerPacket};
use std::marker::Model;

/// A client's session, from its login to its end. It numbers the reports: the first behind a Login Accepted has the
/// number that this tells, and each further one the next.
#[derive(Drop)]
pub struct ClientSession {
    login: LoginRequest,
    stage: Stage,
    next: u64,
}

impl Model for ClientSession {
    ghost use Rattle.gx_client.specs.Session.{SessionView};

    ghost Value = { SessionView };

    ghost view = { λ s. record { login = s.login; stage = s.stage; next = s.next } };
}

impl ClientSession {
    /// A session that logs in so, and has heard nothing.
    pub fn new(login: LoginRequest) -> ClientSession
        ensures { HasHeard result login [] }
    {
        ClientSession {
            login,
            stage: Stage::LoggingIn,
            next: login.wanted,
        }
    }

    /// Hears the next packet, and tells what it is. What is told, the stage and the next number are those that all
    /// packets heard so far give.
    pub fn hear(&mut self, packet: &ServerPacket) -> Heard
        ensures heard { (login : LoginRequest) (packets : List ServerPacket)
            → HasHeard self.old login packets
            → HasHeard self.new login (packets ++ packet.now ∷ []) }
        ensures told { (login : LoginRequest) (packets : List ServerPacket)
            → HasHeard self.old login packets
            → result ≡ heard_after login.wanted packets packet.now }
    {
        let heard = self.heard_as(packet);
        self.note(heard);
        heard
    }

    /// Where the session stands.
    /// Part of the interface: what its contracts say of the stage can be looked up.
    pub fn stage(&self) -> Stage
        ensures { result ≡ self.now.stage }
    {
        self.stage
    }

    /// The number of the next report: the one to ask for when the client connects again.
    /// Part of the interface: the program has the number in `login_request`.
    pub fn next(&self) -> u64
        ensures { result ≡ self.now.next }
    {
        self.next
    }

    /// The login, which asks for the next report and all behind it.
    pub fn login_request(&self) -> LoginRequest
        ensures { result ≡ record self.now.login { wanted = self.now.next } }
    {
        LoginRequest {
            wanted: self.next,
            ..self.login
        }
    }

    fn heard_as(&self, packet: &ServerPacket) -> Heard
        ensures { result ≡ heard_as self.now.stage self.now.next packet.now }
    {
        match (self.stage, packet) {
            (Stage::LoggingIn, ServerPacket::Accepted(name, first)) => {
                Heard::LoggedIn(*name, *first)
            }
            (Stage::LoggingIn, ServerPacket::Rejected(why)) => Heard::Refused(*why),
            (Stage::On, ServerPacket::Sequenced(_)) if self.next < u64::MAX => {
                Heard::Report(self.next)
            }
            (Stage::LoggingIn | Stage::On, ServerPacket::Heartbeat) => Heard::Heartbeat,
            (Stage::LoggingIn | Stage::On, ServerPacket::EndOfSession) => Heard::Ended,
            _ => Heard::Unexpected,
        }
    }

    fn note(&mut self, heard: Heard)
        ensures { self.new ≡ standing_after self.old heard }
    {
        match heard {
            Heard::LoggedIn(_, first) => {
                self.stage = Stage::On;
                self.next = first;
            }
            Heard::Report(number) => self.next = number.saturating_add(1),
            Heard::Refused(_) | Heard::Ended => self.stage = Stage::Over,
            Heard::Heartbeat | Heard::Unexpected => {}
        }
    }
}
