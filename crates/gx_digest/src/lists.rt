//! Names and numbers.

ghost use Rattle.gx_digest.specs.{Hashing.TakesIn, PolicyText.{account_name_text, symbol_text, number_text}};

use crate::writing::{Written, put};
use gx_units::{AccountName, Symbol};
use sha2::Sha256;

/// Takes a number in, in eight bytes.
#[tactic(auto, unfolding(crate::specs::PolicyText::number_text))]
pub(crate) fn put_number(hasher: &mut Sha256, number: u64)
    ensures { TakesIn hasher.old hasher.new (number_text number) }
{
    put(hasher, &number.to_be_bytes());
}

impl Written for AccountName {
    ghost text = { account_name_text };

    fn write(&self, hasher: &mut Sha256) {
        put(hasher, &self.bytes);
    }
}

impl Written for Symbol {
    ghost text = { symbol_text };

    fn write(&self, hasher: &mut Sha256) {
        put(hasher, &self.bytes);
    }
}
