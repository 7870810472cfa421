//! What the used tokens are hashed by.

ghost use Rattle.std.specs.Prelude.{◌≡◌, ◌+◌, ◌≤◌, length};
ghost use Rattle.gx_orders.specs.Seeds.{few_bytes, folded_halves, first_word, half_at, last_word, short_word, word_at};

use gx_policy::Policy;
use std::hash::{BuildHasher, DefaultHasher, Hasher};

/// What a table is hashed by whose keys a trader chooses: two words that he doesn't know, for else he could choose keys
/// that all have one hash, and each look-up would go through them.
///
/// Time alone depends on it: no answer does, and no record.
#[derive(Clone, Copy)]
pub struct Seed {
    state: u64,
    factor: u64,
}

impl Seed {
    /// The seed of all days under the policy. It is made of the passwords of all its users, of whom each knows his own: so
    /// whoever makes a day's steps again, as a check or a restart does, has it too, and needs to be given nothing.
    pub fn of(policy: &Policy) -> Seed {
        let mut secret = DefaultHasher::new();
        for user in policy.users() {
            secret.write(&user.password.bytes);
        }
        let state = secret.finish();
        secret.write_u64(state);
        Seed {
            state,
            factor: secret.finish(),
        }
    }
}

impl BuildHasher for Seed {
    type Hasher = Seed;

    ghost build_hasher = { λ seed. seed };

    fn build_hasher(&self) -> Seed {
        *self
    }
}

/// The two halves of the product, joined.
fn folded(a: u64, b: u64) -> u64
    ensures { result ≡ folded_halves a b }
{
    let product = u128::from(a) * u128::from(b);
    (product & 0xFFFF_FFFF_FFFF_FFFF) as u64 ^ (product >> 64) as u64
}

/// The eight bytes from this place on.
fn word_at(bytes: &[u8], at: usize) -> u64
    requires { at + 8 ≤ length bytes.now }
    ensures { result ≡ word_at bytes.now at }
{
    u64::from_le_bytes([
        bytes[at],
        bytes[at + 1],
        bytes[at + 2],
        bytes[at + 3],
        bytes[at + 4],
        bytes[at + 5],
        bytes[at + 6],
        bytes[at + 7],
    ])
}

/// The four bytes from this place on.
fn half_at(bytes: &[u8], at: usize) -> u32
    requires { at + 4 ≤ length bytes.now }
    ensures { result ≡ half_at bytes.now at }
{
    u32::from_le_bytes([bytes[at], bytes[at + 1], bytes[at + 2], bytes[at + 3]])
}

/// Fewer than four bytes.
fn few_bytes(bytes: &[u8]) -> u64
    ensures { result ≡ few_bytes bytes.now }
{
    bytes
        .iter()
        .fold(0, |word, byte| word << 8 | u64::from(*byte))
}

/// Fewer than eight bytes: of four and more the first four and the last four, which may overlap.
fn short_word(bytes: &[u8]) -> u64
    ensures { result ≡ short_word bytes.now }
{
    if bytes.len() < 4 {
        few_bytes(bytes)
    } else {
        u64::from(half_at(bytes, 0)) << 32 | u64::from(half_at(bytes, bytes.len() - 4))
    }
}

/// The first eight bytes, or all of fewer.
fn first_word(bytes: &[u8]) -> u64
    ensures { result ≡ first_word bytes.now }
{
    if bytes.len() < 8 {
        short_word(bytes)
    } else {
        word_at(bytes, 0)
    }
}

/// The last eight bytes, or nothing of fewer.
fn last_word(bytes: &[u8]) -> u64
    ensures { result ≡ last_word bytes.now }
{
    if bytes.len() < 8 {
        0
    } else {
        word_at(bytes, bytes.len() - 8)
    }
}

impl Hasher for Seed {
    ghost use Rattle.gx_orders.specs.Seeds.{seed_after};

    ghost write = { seed_after };

    ghost finish = { λ seed. seed.state };

    fn finish(&self) -> u64 {
        self.state
    }

    #[tactic(auto, unfolding(crate::specs::Seeds::seed_after))]
    fn write(&mut self, bytes: &[u8]) {
        self.state = folded(
            first_word(bytes) ^ self.state,
            last_word(bytes) ^ self.factor,
        );
    }
}
