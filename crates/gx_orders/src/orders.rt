//! The live orders, and the tokens that are used.

ghost use Rattle.std.specs.{Prelude.{◌≡◌, ◌<◌, length, [], ◌∷◌, ◌++◌, Some, OnOk, OnErr, IfOk, IfSome, IsTrue, IsFalse}, List.filter};
ghost use Rattle.gx_history.specs.{LiveOrders.{key, token_of, is_of_user}, Live.live_under};
ghost use Rattle.gx_orders.specs.{Changes.{IsUnused, marked_by}, LiveOrders.{AreBelow, AreOrdersSound, HasOpen, at_rest, with_order_changed, cut_at, filled_at, first_waiting, is_used, of_account, of_others, live_numbered, resized_at, without_number}};

use crate::counts::{count_in, count_one_less, count_one_more, no_counts};
use crate::ending::end_each;
use crate::numbers::{Numbers, list_number, no_lists, numbers_in};
use crate::request_tokens::denied_token;
use crate::seed::Seed;
use gx_history::live_order::{LiveOrder, UserToken};
use gx_history::record::Asked;
use gx_index::Near;
use gx_policy::{Policy, RuleName};
use gx_slab::live::LiveOrders;
use gx_slab::table::Table;
use gx_units::{AccountName, OutOfMemory, Token, UserName};
use indexmap::IndexMap;
use std::alloc::Global;
use std::marker::Model;

/// So many tokens have room from the first on: a table that grows puts all that it holds anew.
const FIRST_TOKENS: usize = 16_384;

/// The live orders by number, and the tokens that are used. Contracts see the list of the orders and the list of the
/// tokens. Only `enter` and `deny` take memory.
#[derive(Drop)]
pub struct Orders {
    table: Table,
    /// Each used token, with the number of the order that was entered under it. Where none was, it says nothing.
    tokens: IndexMap<UserToken, u64, Seed>,
    /// How many live orders each user has; one who never had any has no entry.
    counts: IndexMap<UserName, usize>,
    /// The numbers of each account's orders; one who never had any has no entry.
    lists: IndexMap<AccountName, Numbers>,
}

impl Model for Orders {
    ghost use Rattle.gx_orders.specs.LiveOrders.{OrdersData};
    ghost use Rattle.gx_orders.specs.Tables.{AreHeld, orders_shown};

    ghost Value = { OrdersData };

    ghost view = { λ o. orders_shown o.table o.tokens.entries };

    ghost invariant = { λ o. AreHeld o.table o.tokens.entries o.counts.entries o.lists.entries };
}

impl Orders {
    /// No order of the policy's users, and no used token: tokens are hashed by the policy's seed.
    ///
    /// # Errors
    ///
    /// `OutOfMemory` where there is no memory for the names of the users and the accounts, and for the first orders and
    /// their tokens.
    pub fn new(alloc: Global, policy: &Policy) -> Result<Orders, OutOfMemory>
        ensures live { IfOk result (λ orders. orders.live ≡ []) }
        ensures used { IfOk result (λ orders. orders.used ≡ []) }
    {
        let counts = no_counts(alloc, policy.users())?;
        let lists = no_lists(alloc, policy.accounts())?;
        let tokens = IndexMap::with_capacity_and_hasher(alloc, FIRST_TOKENS, Seed::of(policy))?;
        let table = Table::new(alloc)?;
        Ok(Orders {
            table,
            tokens,
            counts,
            lists,
        })
    }

    /// The live orders, by number: the lowest, which is the oldest, comes first.
    pub fn live(&self) -> LiveOrders<'_>
        ensures live { result ≡ self.now.live }
        ensures sound { AreOrdersSound self.now }
    {
        self.table.live()
    }

    /// The live orders of the account, by number.
    pub fn live_of(&self, account: AccountName) -> LiveOrders<'_>
        ensures { result ≡ of_account account self.now.live }
    {
        self.table
            .numbered_of(account, numbers_in(&self.lists, account))
    }

    /// Whether the user has used the token, so that he can enter no more orders under it.
    #[tactic(auto, using(crate::proofs::Tokens_table::used_found))]
    pub fn is_used(&self, user: UserName, token: Token) -> bool
        ensures { result ≡ is_used self.now.used user token }
    {
        self.tokens.contains_key(&UserToken { user, token })
    }

    /// The live order of this number.
    pub fn numbered(&self, number: u64) -> Option<LiveOrder>
        ensures found { result ≡ live_numbered self.now.live number }
        ensures sound { AreOrdersSound self.now }
    {
        self.table.get(number).copied()
    }

    /// The user's live order under the token.
    pub fn under(&self, user: UserName, token: Token) -> Option<LiveOrder>
        ensures { result ≡ live_under self.now.live user token }
    {
        let number = *self.tokens.get(&UserToken { user, token })?;
        let order = self.table.get(number)?;
        if order.is_under(user, token) {
            Some(*order)
        } else {
            None
        }
    }

    /// The first that waits to be matched: the oldest of those that have not come to rest.
    pub fn first_waiting(&self) -> Option<LiveOrder>
        ensures { result ≡ first_waiting self.now.live }
    {
        self.table.first_waiting().copied()
    }

    /// How many live orders the user has, who is looked for at this place of the policy's users first. It looks at no order.
    #[inline(always)]
    pub fn count_of(&self, user: UserName, near: usize) -> usize
        ensures { result ≡ length (filter (is_of_user user) self.now.live) }
    {
        count_in(&self.counts, near, user)
    }

    /// Takes in an order, which waits to be matched behind all others and uses its token. Its names are looked for at these
    /// places first. It takes memory for one more.
    ///
    /// # Errors
    ///
    /// `OutOfMemory` where there is no memory for one more; then nothing has changed.
    pub fn enter(&mut self, order: LiveOrder, near: Near) -> Result<(), OutOfMemory>
        requires has_shares { order.done < order.total }
        requires waits { IsTrue order.waits }
        requires last { AreBelow order.number self.old.live }
        requires new { IsFalse (is_used self.old.used order.user order.token) }
        ensures live { OnOk result (self.new.live ≡ self.old.live ++ order ∷ []) }
        ensures used { OnOk result (self.new.used ≡ self.old.used ++ token_of order ∷ []) }
        ensures unchanged { OnErr result (self.new ≡ self.old) }
    {
        // Fewer orders than 2^63: their count can grow by one.
        let _ = self.table.count();
        self.tokens.reserve(1)?;
        self.counts.reserve(1)?;
        // A number whose order is not put after all is of none that lives.
        list_number(&mut self.lists, near.account, &order, &self.table)?;
        self.table.push(order)?;
        self.tokens.insert(order.user_token(), order.number)?;
        count_one_more(&mut self.counts, near.user, order.user)?;
        Ok(())
    }

    fn mark_used(&mut self, user: UserName, token: Token) -> Result<(), OutOfMemory>
        requires new { IsFalse (is_used self.old.used user token) }
        ensures live { OnOk result (self.new.live ≡ self.old.live) }
        ensures used { OnOk result (self.new.used ≡ self.old.used ++ key user token ∷ []) }
        ensures unchanged { OnErr result (self.new ≡ self.old) }
    {
        self.tokens.insert(UserToken { user, token }, 0)?;
        Ok(())
    }

    /// The request was denied by this rule: where its denials are answered, the token that the request asks for an order
    /// under is used now, with no order under it. It takes memory for one more.
    ///
    /// # Errors
    ///
    /// `OutOfMemory` where there is no memory for one more; then nothing has changed.
    pub fn deny(&mut self, a: &Asked, rule: RuleName) -> Result<(), OutOfMemory>
        requires new { IsUnused self.old.used a.now rule }
        ensures ok { OnOk result (self.new ≡ marked_by a.now rule self.old) }
        ensures unchanged { OnErr result (self.new ≡ self.old) }
    {
        match denied_token(rule, &a.request) {
            Some(token) => self.mark_used(a.user, token),
            None => Ok(()),
        }
    }

    /// The order of this number has come to rest: it waits no more. Nothing changes where none has the number.
    pub fn rest(&mut self, number: u64)
        ensures live { self.new.live ≡ with_order_changed at_rest number self.old.live }
        ensures used { self.new.used ≡ self.old.used }
    {
        self.table.rest(number);
    }

    /// Writes the order with this size, and so many shares executed. Here and below, the order's user is looked for at
    /// this place of the policy's users first.
    fn resize(&mut self, order: LiveOrder, near: usize, total: u32, done: u32)
        requires there { live_numbered self.old.live order.number ≡ Some order }
        requires sound { AreOrdersSound self.old }
        ensures live { self.new.live ≡ resized_at order.number total done self.old.live }
        ensures used { self.new.used ≡ self.old.used }
    {
        self.table.write(LiveOrder {
            total,
            done,
            ..order
        });
        if done < total {
            return;
        }
        count_one_less(&mut self.counts, near, order.user);
    }

    /// So many shares of the order of this number are executed; it is gone where none is open then. It takes no memory.
    pub fn fill(&mut self, number: u64, near: usize, shares: u32)
        requires { IfSome (live_numbered self.old.live number) (HasOpen shares) }
        ensures live { self.new.live ≡ filled_at number shares self.old.live }
        ensures used { self.new.used ≡ self.old.used }
    {
        if let Some(order) = self.numbered(number) {
            self.resize(order, near, order.total, order.done + shares);
        }
    }

    /// Sets the size of the order of this number, in shares; it is gone where none is open then. It takes no memory.
    pub fn cut(&mut self, number: u64, near: usize, total: u32)
        ensures live { self.new.live ≡ cut_at number total self.old.live }
        ensures used { self.new.used ≡ self.old.used }
    {
        if let Some(order) = self.numbered(number) {
            self.resize(order, near, total, order.done);
        }
    }

    /// The order of this number has ended. Nothing changes where none has the number. It takes no memory.
    pub fn end(&mut self, number: u64, near: usize)
        ensures live { self.new.live ≡ without_number number self.old.live }
        ensures used { self.new.used ≡ self.old.used }
    {
        if let Some(order) = self.numbered(number) {
            self.resize(order, near, order.done, order.done);
        }
    }

    /// All orders of the account have ended. It looks at no other, and takes no memory. Each order's user is looked for at
    /// this place first.
    pub fn end_account(&mut self, account: AccountName, near: usize)
        ensures live { self.new.live ≡ of_others account self.old.live }
        ensures used { self.new.used ≡ self.old.used }
    {
        if let Some(numbers) = self.lists.swap_remove(&account) {
            end_each(
                &mut self.table,
                &mut self.counts,
                near,
                account,
                numbers.as_slice(),
            );
        }
    }

    /// All orders have ended. It takes no memory.
    pub fn end_all(&mut self)
        ensures live { self.new.live ≡ [] }
        ensures used { self.new.used ≡ self.old.used }
    {
        self.table.end_all();
        self.counts.clear();
        self.lists.clear();
    }

    /// Lets it go. Its drop is proved here once, and not in each crate that owns one.
    pub fn release(self) {}
}
