//! What holds of each policy that is read, as functions that do nothing.

ghost use Rattle.std.specs.Prelude.{◌≡◌, ℕ, List, Ok, IsTrue};
ghost use Rattle.toml.specs.Data.{Members};
ghost use Rattle.gx_policy.specs.{declared.policy.PolicyData.PolicyData, Soundness.{is_sound, names_differ}};
ghost use Rattle.gx_policyvalues.specs.Parsing.{tree};
ghost use Rattle.gx_policyfile.specs.{Policies.means, Reads.{are_keys_known, are_places_short, IsInFileOrder}};

/// No policy is read from a tree that has a key that is unknown where it stands.
pub fn keys_are_known()
    ensures { (bytes : List ℕ) (top : Members) (policy : PolicyData) → tree bytes ≡ Ok top
        → means bytes ≡ Ok policy → IsTrue (are_keys_known top) }
{}

/// No policy is read from a tree with more accounts, stocks, users or rules than there may be.
pub fn places_are_short()
    ensures { (bytes : List ℕ) (top : Members) (policy : PolicyData) → tree bytes ≡ Ok top
        → means bytes ≡ Ok policy → IsTrue (are_places_short top) }
{}

/// No two accounts, stocks, users or rules of a policy that is read have one name.
pub fn names_in_places_differ()
    ensures { (bytes : List ℕ) (policy : PolicyData) → means bytes ≡ Ok policy
        → IsTrue (names_differ policy) }
{}

/// Each policy that is read keeps the limits, ranges, spelling and names that every policy keeps.
pub fn each_is_sound()
    ensures { (bytes : List ℕ) (policy : PolicyData) → means bytes ≡ Ok policy
        → IsTrue (is_sound policy) }
{}

/// The accounts, stocks, users and rules of a policy that is read are those of the file, in its order.
pub fn order_is_kept()
    ensures { (bytes : List ℕ) (top : Members) (policy : PolicyData) → tree bytes ≡ Ok top
        → means bytes ≡ Ok policy → IsInFileOrder top policy }
{}
