//! A message that is being written.

ghost use Rattle.std.specs.Prelude.{◌≡◌, ◌+◌, ◌≤◌, [], ◌++◌, length, take, drop};

use crate::outbound::MESSAGE_ROOM;
use std::marker::Model;

/// A message as far as it is written, at most `MESSAGE_ROOM` bytes. Contracts see the list of these bytes.
#[derive(Drop)]
pub struct MessageDraft {
    room: [u8; MESSAGE_ROOM],
    used: usize,
}

impl Model for MessageDraft {
    ghost use Rattle.std.specs.Prelude.{ℕ, List, take, ◌≤◌};
    ghost use Rattle.gx_ouch.specs.declared.outbound.TheConstants.{MESSAGE_ROOM};

    ghost Value = { List ℕ };

    ghost view = { λ draft. take draft.used draft.room };

    ghost invariant = { λ draft. draft.used ≤ MESSAGE_ROOM };
}

impl MessageDraft {
    /// A message of which nothing is written yet.
    pub fn new() -> MessageDraft
        ensures { result ≡ [] }
    {
        MessageDraft {
            room: [0; MESSAGE_ROOM],
            used: 0,
        }
    }

    /// Writes these bytes behind the others.
    #[inline(always)]
    pub fn put(&mut self, bytes: &[u8])
        requires { length self.old + length bytes.now ≤ MESSAGE_ROOM }
        ensures bytes { self.new ≡ self.old ++ bytes.now }
        ensures len { length self.new ≡ length self.old + length bytes.now }
    {
        let end = self.used + bytes.len();
        self.room[self.used..end].copy_from_slice(bytes);
        self.used = end;
    }

    /// Copies the message to the front of the room, and answers its length.
    pub fn copy_to(&self, room: &mut [u8; MESSAGE_ROOM]) -> usize
        ensures len { result ≡ length self.now }
        ensures within { result ≤ MESSAGE_ROOM }
        ensures bytes { take result room.new ≡ self.now }
        ensures rest { drop result room.new ≡ drop result room.old }
    {
        room[..self.used].copy_from_slice(&self.room[..self.used]);
        self.used
    }
}
