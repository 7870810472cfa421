//! Names, each in a fixed field of bytes, and two small answers that every layer gives.

ghost use Rattle.std.proofs.Common.{rules};
ghost use Rattle.std.specs.{Cmp.Rules.{hashing, comparing}, Prelude.{◌≡◌, ◌∷◌, [], IsTrue, bytes_eq}};
ghost use Rattle.gx_units.specs.{Names.has_no_lower_case, Spelling.{folded_user, folded_password, folded_session}};

use crate::comparing::{are_same, first_eight, last_eight, widened};
use crate::spelling::rejustified;
use std::alloc::{AllocError, AllocFailed};
use std::error::Error;
use std::fmt;
use std::hash::{Hash, Hasher};

/// The allocator refused what was asked of it.
#[derive(Clone, Copy, Debug, PartialEq, Eq)]
pub struct OutOfMemory;

impl fmt::Display for OutOfMemory {
    fn fmt<W: fmt::Write>(&self, f: &mut fmt::Formatter<W>) -> fmt::Result {
        write!(f, "out of memory")
    }
}

impl Error for OutOfMemory {}

impl From<AllocError> for OutOfMemory {
    fn from(_refused: AllocError) -> OutOfMemory {
        OutOfMemory
    }
}

impl<T: Drop> From<AllocFailed<T>> for OutOfMemory {
    fn from(_refused: AllocFailed<T>) -> OutOfMemory {
        OutOfMemory
    }
}

/// An order token: 14 bytes that a trader chooses, compared as bytes.
#[derive(Clone, Copy)]
pub struct Token {
    /// As the trader sent them.
    pub bytes: [u8; 14],
}

impl PartialEq for Token {
    ghost eq = { λ one other. bytes_eq one.bytes other.bytes };

    ghost laws = { Prim.search (comparing, rules) };

    #[tactic(auto, using(crate::proofs::Names_compared::as_overlapping))]
    fn eq(&self, other: &Self) -> bool {
        let (one, other) = (self.bytes, other.bytes);
        are_same(first_eight(one), first_eight(other))
            & are_same(last_eight(one), last_eight(other))
    }
}

impl Eq for Token {
    ghost laws = { Prim.search (comparing, rules) };
}

impl Hash for Token {
    ghost hash_input = { λ name. name.bytes ∷ [] };

    ghost respects_eq = { Prim.search (hashing, rules) };

    fn hash<H: Hasher>(&self, state: &mut H) {
        state.write(&self.bytes);
    }
}

/// The name of a stock, padded with spaces.
#[derive(Clone, Copy)]
pub struct Symbol {
    /// The name, with spaces behind a shorter one.
    pub bytes: [u8; 8],
}

impl PartialEq for Symbol {
    ghost eq = { λ one other. bytes_eq one.bytes other.bytes };

    ghost laws = { Prim.search (comparing, rules) };

    fn eq(&self, other: &Self) -> bool {
        are_same(self.bytes, other.bytes)
    }
}

impl Eq for Symbol {
    ghost laws = { Prim.search (comparing, rules) };
}

impl Hash for Symbol {
    ghost hash_input = { λ name. name.bytes ∷ [] };

    ghost respects_eq = { Prim.search (hashing, rules) };

    fn hash<H: Hasher>(&self, state: &mut H) {
        state.write(&self.bytes);
    }
}

/// The name of an account, padded with spaces.
#[derive(Clone, Copy)]
pub struct AccountName {
    /// The name, with spaces behind a shorter one.
    pub bytes: [u8; 8],
}

impl PartialEq for AccountName {
    ghost eq = { λ one other. bytes_eq one.bytes other.bytes };

    ghost laws = { Prim.search (comparing, rules) };

    fn eq(&self, other: &Self) -> bool {
        are_same(self.bytes, other.bytes)
    }
}

impl Eq for AccountName {
    ghost laws = { Prim.search (comparing, rules) };
}

impl Hash for AccountName {
    ghost hash_input = { λ name. name.bytes ∷ [] };

    ghost respects_eq = { Prim.search (hashing, rules) };

    fn hash<H: Hasher>(&self, state: &mut H) {
        state.write(&self.bytes);
    }
}

/// The name of a rule, padded with spaces.
#[derive(Clone, Copy)]
pub struct RuleId {
    /// The name, with spaces behind a shorter one.
    pub bytes: [u8; 8],
}

impl PartialEq for RuleId {
    ghost eq = { λ one other. bytes_eq one.bytes other.bytes };

    ghost laws = { Prim.search (comparing, rules) };

    fn eq(&self, other: &Self) -> bool {
        are_same(self.bytes, other.bytes)
    }
}

impl Eq for RuleId {
    ghost laws = { Prim.search (comparing, rules) };
}

impl Hash for RuleId {
    ghost hash_input = { λ name. name.bytes ∷ [] };

    ghost respects_eq = { Prim.search (hashing, rules) };

    fn hash<H: Hasher>(&self, state: &mut H) {
        state.write(&self.bytes);
    }
}

/// A firm, padded with spaces.
#[derive(Clone, Copy, PartialEq, Eq)]
pub struct Firm {
    /// The name, with spaces behind a shorter one.
    pub bytes: [u8; 4],
}

/// The name of a user, padded with spaces. It is compared in upper case: `folded` gives the form in which the gate
/// keeps it.
#[derive(Clone, Copy)]
pub struct UserName {
    /// The name, with spaces behind a shorter one.
    pub bytes: [u8; 6],
}

impl PartialEq for UserName {
    ghost eq = { λ one other. bytes_eq one.bytes other.bytes };

    ghost laws = { Prim.search (comparing, rules) };

    #[tactic(auto, using(crate::proofs::Names_compared::as_widened))]
    fn eq(&self, other: &Self) -> bool {
        are_same(widened(self.bytes), widened(other.bytes))
    }
}

impl Eq for UserName {
    ghost laws = { Prim.search (comparing, rules) };
}

impl Hash for UserName {
    ghost hash_input = { λ name. name.bytes ∷ [] };

    ghost respects_eq = { Prim.search (hashing, rules) };

    fn hash<H: Hasher>(&self, state: &mut H) {
        state.write(&self.bytes);
    }
}

impl UserName {
    /// The name in upper case.
    #[tactic(auto, using(crate::proofs::Text_folded::folded_has_no_lower_case))]
    pub fn folded(self) -> UserName
        ensures folded { result ≡ folded_user self }
        ensures upper_case { IsTrue (has_no_lower_case result.bytes) }
    {
        let mut bytes = self.bytes;
        bytes.make_ascii_uppercase();
        UserName { bytes }
    }
}

/// A password, padded with spaces. It is compared in upper case, as `folded` gives it, and never printed.
#[derive(Clone, Copy, PartialEq, Eq)]
pub struct Password {
    /// The password, with spaces behind a shorter one.
    pub bytes: [u8; 10],
}

impl Password {
    /// The password in upper case.
    pub fn folded(self) -> Password
        ensures { result ≡ folded_password self }
    {
        let mut bytes = self.bytes;
        bytes.make_ascii_uppercase();
        Password { bytes }
    }
}

/// The name of a session, padded with spaces on either side. It is compared without them, as `folded` gives it.
#[derive(Clone, Copy, PartialEq, Eq)]
pub struct SessionName {
    /// The name, with spaces on either side of a shorter one.
    pub bytes: [u8; 10],
}

impl SessionName {
    /// The name on the left of its field.
    pub fn folded(self) -> SessionName
        ensures { result ≡ folded_session self }
    {
        SessionName {
            bytes: rejustified(self.bytes),
        }
    }
}

/// Why a login is rejected: the reject reason code of SoupBinTCP's Login Rejected.
#[derive(Clone, Copy, PartialEq, Eq)]
pub enum LoginRejection {
    /// `A`: the user is unknown or logged in already, or the password is wrong.
    NotAuthorized,
    /// `S`: there is no such session, or it has no report of that number.
    SessionNotAvailable,
}
