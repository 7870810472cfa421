//! What stands after a gate's records.

ghost use Rattle.std.specs.Prelude.{◌≡◌, length};
ghost use Rattle.gx_history.specs.{Asking.{has_stock, rule_in_force}, InForce.{is_closed, is_entitled}, Live.{live, live_numbered}, Verdicts.last_moment};
ghost use Rattle.gx_records.specs.State.{gross_used, limit_in_force, net_used, of_user};
ghost use Rattle.gx_slab.specs.Slabs.{of_account};

use gx_access_gate::AccessGate;
use gx_history::facts::StockSide;
use gx_history::live_order::LiveOrder;
use gx_slab::live::LiveOrders;
use gx_units::{AccountName, Moment, RuleId, Symbol, UserName};

/// A gate that shows what stands after its records: which orders are live, what is in force, and how much of the limits is
/// used. Its contract is that of [`AccessGate`]'s definitions over the same records.
///
/// No call takes memory, and none walks the records.
pub trait ShowsState: AccessGate {
    /// The live orders, the oldest first.
    fn live_orders(&self) -> LiveOrders<'_>
        ensures { result ≡ live (Self.state self.now).policy (Self.state self.now).records };

    /// The live orders of the account, the oldest first.
    fn live_orders_of(&self, account: AccountName) -> LiveOrders<'_>
        ensures { result ≡ of_account account
            (live (Self.state self.now).policy (Self.state self.now).records) };

    /// How many live orders the user has. It looks at none of them.
    fn live_count_of(&self, user: UserName) -> usize
        ensures { result ≡ length (of_user user
            (live (Self.state self.now).policy (Self.state self.now).records)) };

    /// The live order of this number.
    fn live_order(&self, number: u64) -> Option<LiveOrder>
        ensures { result ≡ live_numbered
            (live (Self.state self.now).policy (Self.state self.now).records) number };

    /// Whether some Close Day was granted.
    fn is_day_closed(&self) -> bool
        ensures { result ≡ is_closed (Self.state self.now).records };

    /// The moment of the last record, in nanoseconds behind midnight; 0 where there is none.
    fn moment_of_last(&self) -> Moment
        ensures { result ≡ last_moment (Self.state self.now).records };

    /// The limit of the rule in force; None where the policy has no rule of this name, or it has no limit that Set Limit may
    /// change.
    fn limit(&self, rule: RuleId) -> Option<u64>
        ensures { result
            ≡ limit_in_force (Self.state self.now).policy (Self.state self.now).records rule };

    /// Whether the rule lists the stock now, as halted or as restricted; not where it lists no stocks, or there is no such
    /// rule.
    fn lists(&self, rule: RuleId, stock: Symbol) -> bool
        ensures { result ≡ has_stock
            (rule_in_force (Self.state self.now).policy (Self.state self.now).records rule) stock };

    /// Whether the reader is entitled to the account from now on: each fill of it from here on is told to him. Nobody else
    /// but a reader ever is.
    fn is_entitled(&self, reader: UserName, account: AccountName) -> bool
        ensures { result ≡ is_entitled
            (Self.state self.now).policy (Self.state self.now).records reader account };

    /// What is used of the limit of a rule on gross shares or on gross value: the open and the executed shares of the account,
    /// or of all accounts of the rule's scope where it counts them together, or their value in ten-thousandths of a dollar.
    /// None where the policy has no such rule of this name, or has no such account in the rule's scope.
    fn gross_used(&self, rule: RuleId, account: AccountName) -> Option<u128>
        ensures { result ≡ gross_used
            (Self.state self.now).policy (Self.state self.now).records rule account };

    /// What is used of the limit of a rule on net shares, on this side of the stock: the shares executed there, less those
    /// executed on the other side, and those open there. None as of [`ShowsState::gross_used`].
    fn net_used(&self, rule: RuleId, account: AccountName, side: StockSide) -> Option<i128>
        ensures { result ≡ net_used
            (Self.state self.now).policy (Self.state self.now).records rule account side };
}
