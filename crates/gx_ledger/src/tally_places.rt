//! Where an account's orders are counted.

ghost use Rattle.std.specs.Prelude.{◌≡◌, ◌∷◌, ◌++◌, [], map, IfOk, OnOk, if◌then◌else◌};
ghost use Rattle.gx_ledger.specs.{Counts.{places_counting, counting_from}, Accounts.account_names};

use crate::tally::Tally;
use gx_policy::Account;
use gx_units::{AccountName, OutOfMemory};
use indexmap::IndexSet;
use std::alloc::Global;
use std::marker::Model;

/// Where a tally counts the orders of an account.
#[derive(Clone, Copy)]
pub struct CountedAt {
    /// The place of the tally.
    pub tally: usize,
    /// The place of the account's group in it.
    pub group: usize,
}

/// Where the tallies stand that count an account's orders, the lowest place first.
#[derive(Drop)]
pub struct TallyPlaces {
    items: Vec<CountedAt>,
}

impl Model for TallyPlaces {
    ghost use Rattle.std.specs.Prelude.{List};
    ghost use Rattle.gx_ledger.specs.declared.tally_places.CountedAt.{CountedAt};

    ghost Value = { List CountedAt };

    ghost view = { λ places. places.items.items };
}

/// Puts the place last, if it is wanted.
fn put_if(places: &mut Vec<CountedAt>, place: CountedAt, wanted: bool) -> Result<(), OutOfMemory>
    ensures { OnOk result (places.new.items
        ≡ (if wanted then places.old.items ++ place ∷ [] else places.old.items)) }
{
    if !wanted {
        return Ok(());
    }
    places.push(place)?;
    Ok(())
}

impl TallyPlaces {
    /// Where the orders of the account are counted, which has this place in the policy.
    fn of(
        alloc: Global,
        tallies: &[Tally],
        account: AccountName,
        own: Option<usize>,
    ) -> Result<TallyPlaces, OutOfMemory>
        ensures { IfOk result (λ places. places ≡ counting_from account own 0 tallies.now) }
    {
        let mut items = Vec::new(alloc);
        for place in 0..tallies.len() {
            let tally = &tallies[place];
            let counted = CountedAt {
                tally: place,
                group: tally.group_place(own),
            };
            put_if(&mut items, counted, tally.counts(account))?;
        }
        Ok(TallyPlaces { items })
    }

    /// The places, the lowest first.
    pub fn as_slice(&self) -> &[CountedAt]
        ensures { result.now ≡ self.now }
    {
        self.items.as_slice()
    }
}

/// For each account, in the policy's order, where its orders are counted; these are the names of the accounts.
///
/// # Errors
///
/// `OutOfMemory` where memory was refused.
pub fn counting_by_account(
    alloc: Global,
    names: &IndexSet<AccountName>,
    tallies: &[Tally],
    accounts: &[Account],
) -> Result<Vec<TallyPlaces>, OutOfMemory>
    requires { names.now.keys ≡ account_names accounts.now }
    ensures { IfOk result (λ places. places.items
        ≡ map (places_counting (account_names accounts.now) tallies.now)
        (account_names accounts.now)) }
{
    let mut places = Vec::new(alloc);
    for account in accounts {
        let own = names.get_index_of(&account.name);
        places.push(TallyPlaces::of(alloc, tallies, account.name, own)?)?;
    }
    Ok(places)
}
