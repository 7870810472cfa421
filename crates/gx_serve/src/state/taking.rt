//! What becomes of a packet.

ghost use Rattle.std.specs.Prelude.{◌≡◌, length};
ghost use Rattle.gx_door.specs.Acts.{history_met};
ghost use Rattle.gx_serve.specs.{Conducts.WasJudged, Takings.{IsTakenByConduct, IsTakenIn}};

use crate::conduct::Exclusion;
use crate::state::{Break, BrokenOff, ConnectionState, TakenPacket};
use gx_door::{Dial, Door};
use gx_soup::ClientPacket;
use gx_units::Moment;
use std::sync::Wait;

/// What became of a packet. A connection's state alone makes one.
#[derive(Drop)]
pub enum Taken<'a> {
    /// The session was told of it.
    Packet(TakenPacket<'a>),
    /// Its user was put out, and the session was told that it ends.
    Excluded(Exclusion, BrokenOff),
}

impl<T: Drop> ConnectionState<T> {
    /// Why the user is put out, if he is, by his conduct and by how many records there are.
    fn exclusion<D: Door<Pass = T>>(&mut self, door: &D) -> Option<Exclusion>
        ensures judged { WasJudged self.old.conduct
            (length (history_met D.observed self.old.pass).front) result }
        ensures conduct { self.new.conduct ≡ self.old.conduct }
        ensures user { self.new.user ≡ self.old.user }
        ensures session { self.new.session ≡ self.old.session }
        ensures outbox { self.new.outbox ≡ self.old.outbox }
        ensures cursor { self.new.cursor ≡ self.old.cursor }
    {
        let length = self.length(door);
        self.conduct.exclusion(length)
    }

    /// Takes a packet, unless its user is put out: nothing more is taken of him then, and the session is told that it ends.
    pub fn take_in<'a, D: Door<Pass = T>, R: Wait + Dial>(
        &mut self,
        rt: &R,
        door: &D,
        packet: &'a ClientPacket,
        moment: Moment,
    ) -> Taken<'a>
        requires clock { R.shown moment }
        ensures taken { IsTakenIn packet.now result }
        ensures judged { IsTakenByConduct self.old.conduct
            (length (history_met D.observed self.old.pass).front) result }
    {
        match self.exclusion(door) {
            Some(why) => {
                let told = self.break_off(rt, door, Break::Fault, moment);
                Taken::Excluded(why, told)
            }
            None => Taken::Packet(self.take(rt, door, packet, moment)),
        }
    }
}
