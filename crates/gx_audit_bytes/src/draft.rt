//! A record that is being written.

ghost use Rattle.std.specs.Prelude.{◌≡◌, ◌+◌, ◌≤◌, ◌≢◌, [], ◌++◌, length, IsTrue, IsFalse, bytes_eq};
ghost use Rattle.gx_audit_bytes.specs.Bodies.{zero_padded};

use std::marker::Model;

/// How many bytes a record has.
pub const RECORD_SIZE: usize = 128;

/// A record as far as it is written. Contracts see the list of these bytes.
#[derive(Drop)]
pub(crate) struct RecordDraft {
    room: [u8; RECORD_SIZE],
    used: usize,
}

impl Model for RecordDraft {
    ghost use Rattle.std.specs.Prelude.{ℕ, List, take, ◌≤◌};
    ghost use Rattle.gx_audit_bytes.specs.declared.draft.TheConstants.{RECORD_SIZE};

    ghost Value = { List ℕ };

    ghost view = { λ draft. take draft.used draft.room };

    ghost invariant = { λ draft. draft.used ≤ RECORD_SIZE };
}

impl RecordDraft {
    /// A record of which nothing is written yet.
    pub(crate) fn new() -> RecordDraft
        ensures { result ≡ [] }
    {
        RecordDraft {
            room: [0; RECORD_SIZE],
            used: 0,
        }
    }

    /// Writes these bytes behind the others.
    pub(crate) fn put(&mut self, bytes: &[u8])
        requires { length self.old + length bytes.now ≤ RECORD_SIZE }
        ensures bytes { self.new ≡ self.old ++ bytes.now }
        ensures len { length self.new ≡ length self.old + length bytes.now }
    {
        let end = self.used + bytes.len();
        self.room[self.used..end].copy_from_slice(bytes);
        self.used = end;
    }

    /// The bytes of a whole record.
    pub(crate) fn into_whole(self) -> [u8; RECORD_SIZE]
        requires { length self ≡ RECORD_SIZE }
        ensures { result ≡ self }
    {
        let RecordDraft { room, used: _ } = self;
        room
    }

    /// The bytes that are written.
    pub(crate) fn as_slice(&self) -> &[u8]
        ensures { result.now ≡ self.now }
    {
        &self.room[..self.used]
    }
}

/// The bytes, all of the field.
pub fn whole<const N: usize>(field: &[u8]) -> [u8; N]
    requires { length field.now ≡ N }
    ensures { result ≡ field.now }
{
    let mut bytes = [0; N];
    bytes.copy_from_slice(field);
    bytes
}

/// The bytes, and zero bytes behind them up to the field's end.
pub(crate) fn zero_padded<const N: usize>(bytes: &[u8]) -> [u8; N]
    requires { length bytes.now ≤ N }
    ensures { result ≡ zero_padded N bytes.now }
{
    let mut field = [0; N];
    field[..bytes.len()].copy_from_slice(bytes);
    field
}

/// Whether the bytes are the same.
pub fn same_bytes(bytes: &[u8; RECORD_SIZE], others: &[u8; RECORD_SIZE]) -> bool
    ensures same { IsTrue result → bytes.now ≡ others.now }
    ensures other { IsFalse result → bytes.now ≢ others.now }
    ensures test { result ≡ bytes_eq bytes.now others.now }
{
    *bytes == *others
}
