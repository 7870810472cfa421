//! How the orders of an account end.

ghost use Rattle.std.specs.Prelude.{◌≡◌};
ghost use Rattle.gx_slab.specs.Slabs.{numbered_of};
ghost use Rattle.gx_orders.specs.{LiveOrders.{of_account, of_others}, Tables.{CanEnd, without_of}};

use crate::counts::count_one_less;
use gx_history::live_order::LiveOrder;
use gx_slab::table::Table;
use gx_units::{AccountName, UserName};
use indexmap::IndexMap;

/// Ends the order of this number, where it is one of the account, and counts it no more. Its user is looked for at this
/// place first, as those are below.
fn end_one(
    table: &mut Table,
    counts: &mut IndexMap<UserName, usize>,
    near: usize,
    account: AccountName,
    number: u64,
)
    requires can { CanEnd table.old counts.old.entries }
    ensures can { CanEnd table.new counts.new.entries }
    ensures ended { table.new ≡ without_of account number table.old }
{
    let Some(order) = table.get_of(account, number) else {
        return;
    };
    let ended = LiveOrder {
        total: order.done,
        ..*order
    };
    table.write(ended);
    count_one_less(counts, near, ended.user);
}

/// Ends the orders of the account, whose numbers these are, and counts them no more. It looks at no other.
pub(crate) fn end_each(
    table: &mut Table,
    counts: &mut IndexMap<UserName, usize>,
    near: usize,
    account: AccountName,
    numbers: &[u64],
)
    requires can { CanEnd table.old counts.old.entries }
    requires listed { numbered_of account table.old numbers.now ≡ of_account account table.old }
    ensures can { CanEnd table.new counts.new.entries }
    ensures ended { table.new ≡ of_others account table.old }
{
    for i in 0..numbers.len() {
        end_one(table, counts, near, account, numbers[i]);
    }
}
