//! The orders of a day, found by number and by token.

ghost use Rattle.std.specs.Prelude.{◌≡◌, ◌<◌, [], ◌∷◌, ◌++◌, IsOk, OnOk, OnErr};
ghost use Rattle.indexmap.specs.IndexMap.{spare};
ghost use Rattle.gx_show.specs.{Known.{known_numbered, known_order_under}, Tables.{FindsNumber, FindsToken}};

use crate::known_order::KnownOrder;
use gx_history::live_order::UserToken;
use gx_units::{OutOfMemory, Token, UserName};
use indexmap::IndexMap;
use std::alloc::Global;
use std::marker::Model;

/// Orders in the order in which they were made. Contracts see their list.
#[derive(Drop)]
pub struct KnownOrders {
    orders: Vec<KnownOrder>,
    /// The first of each number.
    by_number: IndexMap<u64, KnownOrder>,
    /// The last under each token of a user.
    by_token: IndexMap<UserToken, KnownOrder>,
}

impl Model for KnownOrders {
    ghost use Rattle.std.specs.Prelude.{List};
    ghost use Rattle.gx_show.specs.declared.known_order.KnownOrder.{KnownOrder};
    ghost use Rattle.gx_show.specs.Tables.{AreFound};

    ghost Value = { List KnownOrder };

    ghost view = { λ known. known.orders.items };

    ghost invariant = { λ known. AreFound known.orders.items known.by_number.entries known.by_token.entries };
}

impl KnownOrders {
    /// No order. Takes no memory.
    pub fn new(alloc: Global) -> KnownOrders
        ensures { result ≡ [] }
    {
        KnownOrders {
            orders: Vec::new(alloc),
            by_number: IndexMap::new(alloc),
            by_token: IndexMap::new(alloc),
        }
    }

    /// The order of this number, the first where there are more.
    pub fn numbered(&self, number: u64) -> Option<KnownOrder>
        ensures { result ≡ known_numbered self.now number }
    {
        self.by_number.get(&number).copied()
    }

    /// The user's last order under the token.
    pub fn under(&self, user: UserName, token: Token) -> Option<KnownOrder>
        ensures { result ≡ known_order_under self.now user token }
    {
        self.by_token.get(&UserToken { user, token }).copied()
    }

    /// Puts an order last.
    ///
    /// `OutOfMemory`: a table could not grow, and nothing has changed.
    pub fn push(&mut self, order: KnownOrder) -> Result<(), OutOfMemory>
        ensures ok { OnOk result (self.new ≡ self.old ++ order ∷ []) }
        ensures err { OnErr result (self.new ≡ self.old) }
    {
        self.orders.reserve(1)?;
        self.by_number.reserve(1)?;
        self.by_token.reserve(1)?;
        note_number(&mut self.by_number, order)?;
        note_token(&mut self.by_token, order)?;
        self.orders.push(order)?;
        Ok(())
    }
}

/// The order is found by its number, unless another is.
fn note_number(
    by_number: &mut IndexMap<u64, KnownOrder>,
    order: KnownOrder,
) -> Result<(), OutOfMemory>
    ensures found { OnOk result (FindsNumber order by_number.old.entries by_number.new.entries) }
    ensures sure { 0 < spare by_number.old → IsOk result }
{
    if by_number.contains_key(&order.number) {
        return Ok(());
    }
    by_number.insert(order.number, order)?;
    Ok(())
}

/// The order is found by its token, and another under the token no more.
fn note_token(
    by_token: &mut IndexMap<UserToken, KnownOrder>,
    order: KnownOrder,
) -> Result<(), OutOfMemory>
    ensures found { OnOk result (FindsToken order by_token.old.entries by_token.new.entries) }
    ensures sure { 0 < spare by_token.old → IsOk result }
{
    let token = UserToken {
        user: order.user,
        token: order.token,
    };
    by_token.insert(token, order)?;
    Ok(())
}
