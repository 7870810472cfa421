//! What a packet carries.

ghost use Rattle.std.specs.Prelude.{◌≡◌, ◌≤◌, length, IfOk, IsOk};

use gx_units::OutOfMemory;
use smallvec::SmallVec;
use std::alloc::Global;
use std::marker::Model;

/// So many bytes lie in their packet. More take memory.
const NEAR: usize = 64;

/// The bytes that a packet carries behind its type. Contracts see them as a list.
#[derive(Drop)]
pub struct Payload {
    bytes: SmallVec<u8, NEAR>,
}

impl Model for Payload {
    ghost use Rattle.std.specs.Prelude.{List, ℕ};

    ghost Value = { List ℕ };

    ghost view = { λ p. p.bytes.items };
}

impl Payload {
    /// A payload of these bytes. 64 bytes and fewer take no memory, which is room for each message of a client.
    ///
    /// # Errors
    ///
    /// `OutOfMemory` where memory was refused.
    pub fn new(alloc: Global, bytes: &[u8]) -> Result<Payload, OutOfMemory>
        ensures bytes { IfOk result (λ payload. payload ≡ bytes.now) }
        ensures near { length bytes.now ≤ 64 → IsOk result }
    {
        let bytes = SmallVec::from_slice(alloc, bytes)?;
        Ok(Payload { bytes })
    }

    /// Its bytes.
    pub fn as_slice(&self) -> &[u8]
        ensures { result.now ≡ self.now }
    {
        self.bytes.as_slice()
    }
}
