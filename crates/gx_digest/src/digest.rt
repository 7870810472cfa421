//! The digest of a policy.

ghost use Rattle.std.specs.Prelude.{◌≡◌};
ghost use Rattle.sha2.specs.Sha256.{sha256};
ghost use Rattle.gx_digest.specs.{Hashing.TakesIn, PolicyText.{policy_text, lifters_text}, PoliciesApart.{HasNoPasswords, IsToldApart}};

use crate::writing::{put, write_list};
use gx_policy::{Lifters, Policy};
use sha2::{Digest, Sha256};

fn put_lifters(hasher: &mut Sha256, asked: Lifters)
    ensures { TakesIn hasher.old hasher.new (lifters_text asked) }
{
    match asked {
        Lifters::One => put(hasher, b"1"),
        Lifters::Two => put(hasher, b"2"),
    }
}

/// Takes the policy's text in.
fn put_policy(hasher: &mut Sha256, policy: &Policy)
    ensures { TakesIn hasher.old hasher.new (policy_text policy.now) }
{
    put(hasher, b"GXP1");
    put(hasher, &policy.session().bytes);
    put_lifters(hasher, policy.lifters());
    write_list(hasher, policy.accounts());
    write_list(hasher, policy.stocks());
    write_list(hasher, policy.users());
    write_list(hasher, policy.rules());
}

/// The SHA-256 of the policy's text, in which all stands that the policy says but passwords. Takes no memory.
#[tactic(auto, using(crate::proofs::Policies_apart::told_apart, crate::proofs::Policies_apart::no_passwords))]
pub fn policy_digest(policy: &Policy) -> [u8; 32]
    ensures digest { result ≡ sha256 (policy_text policy.now) }
    ensures apart { IsToldApart policy.now }
    ensures no_passwords { HasNoPasswords policy.now }
{
    let mut hasher = Sha256::new();
    put_policy(&mut hasher, policy);
    hasher.finalize()
}
