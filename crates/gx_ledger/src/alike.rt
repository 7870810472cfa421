//! Enters that are alike.

ghost use Rattle.std.specs.{Prelude.{◌≡◌, ◌≤◌, count_by, length}, List.list_any};
ghost use Rattle.gx_ledger.specs.Running.{are_alike, are_sized_alike};

use crate::group::RepeatKey;

fn are_alike(asked: &RepeatKey, entered: &RepeatKey) -> bool
    ensures { result ≡ are_alike asked.now entered.now }
{
    // the price differs most often
    entered.price == asked.price
        && entered.shares == asked.shares
        && entered.side == asked.side
        && entered.stock == asked.stock
}

/// Whether one of the Enters has this one's price and size.
fn is_one_sized_alike(enters: &[RepeatKey], asked: &RepeatKey) -> bool
    ensures { result ≡ list_any (are_sized_alike asked.now) enters.now }
{
    let price = asked.price;
    let shares = asked.shares;
    enters
        .iter()
        .any(|e| e.price == price && e.shares == shares)
}

/// How many of the Enters are such as this one: none where none has its price and size.
fn alike_by_size(enters: &[RepeatKey], asked: &RepeatKey) -> usize
    ensures { result ≡ count_by (are_alike asked.now) enters.now }
{
    if is_one_sized_alike(enters, asked) {
        enters.iter().filter(|e| are_alike(asked, e)).count()
    } else {
        0
    }
}

/// How many of the Enters are such as this one. Eight of them are passed by at once where none has
/// its price and size.
pub fn alike_among(enters: &[RepeatKey], asked: &RepeatKey) -> usize
    ensures counted { result ≡ count_by (are_alike asked.now) enters.now }
    ensures few { result ≤ length enters.now }
{
    let mut count = 0;
    let mut left = enters;
    while left.len() >= 8 {
        let (eight, behind) = left.split_at(8);
        count += alike_by_size(eight, asked);
        left = behind;
    }
    count + alike_by_size(left, asked)
}
