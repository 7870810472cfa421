//! Which rules each account is under.

ghost use Rattle.std.specs.Prelude.{◌≡◌, ◌∷◌, ◌++◌, [], IfOk, OnOk, IsTrue, if◌then◌else◌};
ghost use Rattle.gx_policy.specs.Soundness.{accounts_differ};
ghost use Rattle.gx_rules.specs.Places.{places_covering, places_of};

use gx_policy::{Account, FileRule};
use gx_units::{AccountName, OutOfMemory};
use indexmap::IndexMap;
use std::alloc::Global;
use std::marker::Model;

/// Places of rules in the file, the lowest first.
#[derive(Drop)]
pub struct RulePlaces {
    items: Vec<usize>,
}

impl Model for RulePlaces {
    ghost use Rattle.std.specs.Prelude.{List, ℕ};

    ghost Value = { List ℕ };

    ghost view = { λ places. places.items.items };
}

/// Puts the place last, if it is wanted.
fn put_if(places: &mut Vec<usize>, place: usize, wanted: bool) -> Result<(), OutOfMemory>
    ensures { OnOk result (places.new.items
        ≡ (if wanted then places.old.items ++ place ∷ [] else places.old.items)) }
{
    if !wanted {
        return Ok(());
    }
    places.push(place)?;
    Ok(())
}

impl RulePlaces {
    /// The places of the rules that the account is under.
    fn of(
        alloc: Global,
        rules: &[FileRule],
        account: AccountName,
    ) -> Result<RulePlaces, OutOfMemory>
        ensures { IfOk result (λ places. places ≡ places_covering rules.now account) }
    {
        let mut items = Vec::new(alloc);
        for place in 0..rules.len() {
            put_if(&mut items, place, rules[place].scope.covers(account))?;
        }
        Ok(RulePlaces { items })
    }

    /// The places, the lowest first.
    pub fn as_slice(&self) -> &[usize]
        ensures { result.now ≡ self.now }
    {
        self.items.as_slice()
    }
}

/// Each account with the places of the rules that it is under.
///
/// # Errors
///
/// `OutOfMemory` where memory was refused.
pub fn places_by_account(
    alloc: Global,
    rules: &[FileRule],
    accounts: &[Account],
) -> Result<IndexMap<AccountName, RulePlaces>, OutOfMemory>
    requires { IsTrue (accounts_differ accounts.now) }
    ensures { IfOk result (λ table. table.entries ≡ places_of rules.now accounts.now) }
{
    let mut table = IndexMap::new(alloc);
    for account in accounts {
        table.insert(account.name, RulePlaces::of(alloc, rules, account.name)?)?;
    }
    Ok(table)
}
