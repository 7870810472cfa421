//! How many live orders each user has.

ghost use Rattle.std.specs.Prelude.{◌≡◌, ◌<◌, ◌^◌, IfOk, IsOk, OnOk};
ghost use Rattle.indexmap.specs.IndexMap.{spare};
ghost use Rattle.gx_orders.specs.Tables.{counted_of, CountsNone, CountsOneLess, CountsOneMore};

use gx_index::{get_mut_near, get_near};
use gx_policy::User;
use gx_units::{OutOfMemory, UserName};
use indexmap::IndexMap;
use std::alloc::Global;

/// No order of any of these users, in their order, so that each is found in his place.
pub(crate) fn no_counts(
    alloc: Global,
    users: &[User],
) -> Result<IndexMap<UserName, usize>, OutOfMemory>
    ensures { IfOk result (λ counts. CountsNone counts.entries) }
{
    let mut counts = IndexMap::with_capacity(alloc, users.len())?;
    for user in users {
        counts.insert(user.name, 0)?;
    }
    Ok(counts)
}

/// How many orders of the user are counted, who is looked for at this place first.
#[inline(always)]
pub(crate) fn count_in(counts: &IndexMap<UserName, usize>, near: usize, user: UserName) -> usize
    ensures { result ≡ counted_of counts.now.entries user }
{
    get_near(counts, near, user).copied().unwrap_or(0)
}

/// Counts one order more of the user. Where there is a place to spare it takes no memory.
#[inline(always)]
pub(crate) fn count_one_more(
    counts: &mut IndexMap<UserName, usize>,
    near: usize,
    user: UserName,
) -> Result<(), OutOfMemory>
    requires few { counted_of counts.old.entries user < 2 ^ 63 }
    ensures more { OnOk result (CountsOneMore user counts.old.entries counts.new.entries) }
    ensures sure { 0 < spare counts.old → IsOk result }
{
    if let Some(count) = get_mut_near(counts, near, user) {
        *count += 1;
        return Ok(());
    }
    counts.insert(user, 1)?;
    Ok(())
}

/// Counts one order less of the user, where any is counted; he is looked for at this place first. It takes no memory.
pub(crate) fn count_one_less(counts: &mut IndexMap<UserName, usize>, near: usize, user: UserName)
    ensures { CountsOneLess user counts.old.entries counts.new.entries }
{
    let Some(count) = get_mut_near(counts, near, user) else {
        return;
    };
    *count = count.saturating_sub(1);
}
