//! What stands after the gate's records, as its state has it.

ghost use Rattle.std.specs.Prelude.{◌≡◌, length, option_map, position, unwrap_or, IfSome};
ghost use Rattle.gx_units.specs.Names.{same_rule};
ghost use Rattle.gx_core.specs.Used.{gross_in, net_in, AreNetSmall, AreSmall};

use crate::gate::Gate;
use gx_history::facts::StockSide;
use gx_history::live_order::LiveOrder;
use gx_ledger::sums::{NetSums, Sums};
use gx_policy::FileRule;
use gx_records::ShowsState;
use gx_slab::live::LiveOrders;
use gx_units::{AccountName, Moment, RuleId, Symbol, UserName};

fn find_rule(rules: &[FileRule], name: RuleId) -> Option<usize>
    ensures { result ≡ position (λ r. same_rule r.name name) rules.now }
{
    rules.iter().position(|rule| rule.name == name)
}

/// The rule's place in the file, from 0; the number of rules where it is not there.
fn rule_place(rules: &[FileRule], name: RuleId) -> usize
    ensures { result ≡ unwrap_or
        (position (λ r. same_rule r.name name) rules.now) (length rules.now) }
{
    match find_rule(rules, name) {
        Some(place) => place,
        None => rules.len(),
    }
}

/// What a gross rule compares with its limit.
fn gross_in(sums: Sums) -> u128
    requires { AreSmall sums }
    ensures { result ≡ gross_in sums }
{
    sums.live + sums.done
}

fn gross_of(sums: Option<Sums>) -> Option<u128>
    requires { IfSome sums AreSmall }
    ensures { result ≡ option_map gross_in sums }
{
    match sums {
        Some(sums) => Some(gross_in(sums)),
        None => None,
    }
}

/// What a net rule compares with its limit on a side of a stock.
fn net_in(sums: NetSums) -> i128
    requires { AreNetSmall sums }
    ensures { result ≡ net_in sums }
{
    sums.done + sums.live as i128
}

fn net_of(sums: Option<NetSums>) -> Option<i128>
    requires { IfSome sums AreNetSmall }
    ensures { result ≡ option_map net_in sums }
{
    match sums {
        Some(sums) => Some(net_in(sums)),
        None => None,
    }
}

impl ShowsState for Gate {
    #[tactic(auto, using(crate::proofs::Figures_call::live_is_known))]
    fn live_orders(&self) -> LiveOrders<'_> {
        self.state.orders.live()
    }

    #[tactic(auto, using(crate::proofs::Figures_call::orders_of_account_are_known))]
    fn live_orders_of(&self, account: AccountName) -> LiveOrders<'_> {
        self.state.orders.live_of(account)
    }

    #[tactic(auto, using(crate::proofs::Figures_call::count_is_known))]
    fn live_count_of(&self, user: UserName) -> usize {
        self.state.orders.count_of(user, 0)
    }

    #[tactic(auto, using(crate::proofs::Figures_call::order_is_known))]
    fn live_order(&self, number: u64) -> Option<LiveOrder> {
        self.state.orders.numbered(number)
    }

    fn is_day_closed(&self) -> bool {
        self.is_closed()
    }

    fn moment_of_last(&self) -> Moment {
        self.last_moment()
    }

    #[tactic(auto, using(crate::proofs::Figures_call::limit_is_known))]
    fn limit(&self, rule: RuleId) -> Option<u64> {
        self.state.rules.limit(rule)
    }

    #[tactic(auto, using(crate::proofs::Command_call::stock_is_listed))]
    fn lists(&self, rule: RuleId, stock: Symbol) -> bool {
        self.state.rules.lists(rule, stock)
    }

    #[tactic(auto, using(crate::proofs::Figures_call::sight_is_known))]
    fn is_entitled(&self, reader: UserName, account: AccountName) -> bool {
        // that the policy is sound, which what readers see rests on
        let _ = self.policy.rules();
        self.state.people.sees(reader, account)
    }

    fn gross_used(&self, rule: RuleId, account: AccountName) -> Option<u128> {
        let place = rule_place(self.policy.rules(), rule);
        gross_of(self.state.ledger.gross(place, account))
    }

    fn net_used(&self, rule: RuleId, account: AccountName, side: StockSide) -> Option<i128> {
        let place = rule_place(self.policy.rules(), rule);
        net_of(self.state.ledger.net(place, account, side))
    }
}
