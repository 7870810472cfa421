//! Whose orders there were: by number, and by token.

ghost use Rattle.std.specs.{Prelude.{◌≡◌, [], nat_eq, OnOk}, Map.lookup};
ghost use Rattle.gx_history.specs.Orders.{orders_made};
ghost use Rattle.gx_history.specs.declared.record.Request.TheVariants as requests;
ghost use Rattle.gx_policy.specs.declared.policy.PolicyData.{PolicyData};
ghost use Rattle.gx_overview.specs.{Executed.{is_key, KnowOrders}, Owning.{IsOwnerNumbered, IsOneMore, Learn}};

use gx_history::live_order::UserToken;
use gx_history::record::{Asked, RecordData, Request};
use gx_ouch::{EnterOrder, ReplaceOrder};
use gx_people::People;
use gx_policy::Policy;
use gx_units::{AccountName, OutOfMemory, Symbol, Token, UserName};
use indexmap::IndexMap;
use std::alloc::Global;

/// Whose order it is, in which stock and on which side.
#[derive(Clone, Copy, PartialEq, Eq)]
pub struct Owner {
    /// The account that the order is for.
    pub account: AccountName,
    /// The stock of the order.
    pub stock: Symbol,
    /// It is a buy.
    pub buys: bool,
}

/// The owner of each order, by the number of the order and by the token that it was asked for under.
#[derive(Drop)]
pub struct Owners {
    /// By the number of the record that granted the order.
    pub by_number: IndexMap<u64, Owner>,
    /// By the user who asked for the order, and the token that he gave it.
    pub by_token: IndexMap<UserToken, Owner>,
}

/// Notes the owner under the number, unless one is there.
fn note_number(
    by_number: &mut IndexMap<u64, Owner>,
    number: u64,
    owner: Owner,
) -> Result<(), OutOfMemory>
    ensures noted { OnOk result
        (IsOwnerNumbered number owner by_number.old.entries by_number.new.entries) }
{
    if by_number.contains_key(&number) {
        return Ok(());
    }
    by_number.insert(number, owner)?;
    Ok(())
}

impl Owners {
    /// Of no order.
    pub fn new(alloc: Global) -> Owners
        ensures none { KnowOrders result [] }
    {
        Owners {
            by_number: IndexMap::new(alloc),
            by_token: IndexMap::new(alloc),
        }
    }

    /// The owner of the order of this number.
    pub fn numbered(&self, number: u64) -> Option<Owner>
        ensures { result ≡ lookup (nat_eq number) self.now.by_number.entries }
    {
        self.by_number.get(&number).copied()
    }

    fn under(&self, user: UserName, token: Token) -> Option<Owner>
        ensures { result ≡ lookup (is_key user token) self.now.by_token.entries }
    {
        self.by_token.get(&UserToken { user, token }).copied()
    }

    /// Takes in an order: its number, who asked for it under which token, and its owner.
    fn take_in(&mut self, number: u64, key: UserToken, owner: Owner) -> Result<(), OutOfMemory>
        ensures taken { OnOk result (IsOneMore number key owner self.old self.new) }
    {
        note_number(&mut self.by_number, number, owner)?;
        self.by_token.insert(key, owner)?;
        Ok(())
    }

    /// Notes the order that a granted Enter makes.
    fn note_entered(
        &mut self,
        policy: &Policy,
        people: &People,
        shown: &RecordData,
        user: UserName,
        m: &EnterOrder,
    ) -> Result<(), OutOfMemory>
        requires people { people.now ≡ policy.now.users }
        ensures noted { OnOk result (Learn self.old self.new (λ known.
            orders_made policy.now known shown.now user (requests.Enter m.now))) }
    {
        let Some(account) = people.account_of(user) else {
            return Ok(());
        };
        let token = m.token;
        let owner = Owner {
            account,
            stock: m.stock,
            buys: m.side == b'B',
        };
        self.take_in(shown.number, UserToken { user, token }, owner)
    }

    /// Notes the order that a granted Replace makes.
    fn note_replacing(
        &mut self,
        shown: &RecordData,
        user: UserName,
        m: &ReplaceOrder,
    ) -> Result<(), OutOfMemory>
        ensures noted { (policy : PolicyData) → OnOk result (Learn self.old self.new (λ known.
            orders_made policy known shown.now user (requests.Replace m.now))) }
    {
        let Some(owner) = self.under(user, m.existing_token) else {
            return Ok(());
        };
        let token = m.replacement_token;
        self.take_in(shown.number, UserToken { user, token }, owner)
    }

    /// Notes the order that a granted request makes, if it makes one; whose it is, the policy's people tell.
    ///
    /// # Errors
    ///
    /// `OutOfMemory` where the owners were refused their memory.
    pub fn note(
        &mut self,
        policy: &Policy,
        people: &People,
        shown: &RecordData,
        asked: &Asked,
    ) -> Result<(), OutOfMemory>
        requires people { people.now ≡ policy.now.users }
        ensures noted { OnOk result (Learn self.old self.new (λ known.
            orders_made policy.now known shown.now asked.now.user asked.now.request)) }
    {
        match &asked.request {
            Request::Enter(m) => self.note_entered(policy, people, shown, asked.user, m),
            Request::Replace(m) => self.note_replacing(shown, asked.user, m),
            _ => Ok(()),
        }
    }
}
