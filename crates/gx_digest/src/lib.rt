//! What stands for a policy in a few bytes: the SHA-256 of its text, in which all stands that it says but passwords.
//!
//! - `writing`: what is hashed, piece by piece;
//! - `lists`: names and numbers, and lists of them;
//! - `people`: accounts and users;
//! - `rules`: the file's rules;
//! - `digest`: the digest of a policy.
#![tactic(auto)]

mod digest;
mod lists;
mod people;
mod rules;
mod writing;

pub use digest::policy_digest;
