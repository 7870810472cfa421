//! What is hashed, piece by piece.

ghost use Rattle.std.specs.Prelude.{ℕ, List, [], ◌∷◌};
ghost use Rattle.gx_digest.specs.{Hashing.TakesIn, PolicyText.{list_text, items_text}};

use sha2::{Digest, Sha256};

/// Takes these bytes in, behind all others.
pub(crate) fn put(hasher: &mut Sha256, bytes: &[u8])
    ensures { TakesIn hasher.old hasher.new bytes.now }
{
    hasher.update(bytes);
}

/// What stands in a policy's text as some bytes.
pub(crate) trait Written {
    ghost text: { Self → List ℕ };

    /// Takes its bytes in.
    fn write(&self, hasher: &mut Sha256)
        ensures { TakesIn hasher.old hasher.new (text self.now) };
}

/// Takes an item of a list in, behind a comma.
fn write_item<T: Written>(hasher: &mut Sha256, item: &T)
    ensures { TakesIn hasher.old hasher.new (items_text T.text (item.now ∷ [])) }
{
    put(hasher, b",");
    item.write(hasher);
}

/// Takes the items of a list in, each behind a comma.
fn write_items<T: Written>(hasher: &mut Sha256, items: &[T])
    ensures { TakesIn hasher.old hasher.new (items_text T.text items.now) }
{
    for item in items {
        write_item(hasher, item);
    }
}

/// Takes a list in: its items, and a semicolon.
#[tactic(auto, using(crate::proofs::Digest_next::two))]
pub(crate) fn write_list<T: Written>(hasher: &mut Sha256, items: &[T])
    ensures { TakesIn hasher.old hasher.new (list_text T.text items.now) }
{
    write_items(hasher, items);
    put(hasher, b";");
}
