//! What a command ends, counted in front of its step.

ghost use Rattle.std.specs.Prelude.{◌≡◌, ◌≤◌, [], length, if◌then◌else◌};
ghost use Rattle.gx_history.specs.{Live.live, Requests.is_granted, Verdicts.day_limit};
ghost use Rattle.gx_door.specs.Endings.{ended_among, sums_of};
ghost use Rattle.gx_shared.specs.Endings.{ends_of};

use gx_desk::Action;
use gx_door::{EndedTotals, is_officer};
use gx_history::record::{Asked, Request, Verdict};
use gx_records::ShowsState;
use gx_slab::live::LiveOrders;

/// How many these orders are, and how many of their shares are open.
fn counted(live: LiveOrders<'_>) -> EndedTotals
    requires few { length live ≤ day_limit }
    ensures { result ≡ sums_of live.entry }
{
    let mut ended = EndedTotals::none();
    for order in live {
        ended.orders += 1;
        ended.shares += u64::from(order.open());
    }
    ended
}

/// What the command ends. Live orders are looked at for a Kill, those of its account, and for a Close Day alone.
#[tactic(auto, using(crate::proofs::Command_call::few_live, crate::proofs::Command_call::few_of_account, crate::proofs::Command_call::close_ends_all, crate::proofs::Command_call::others_end_none))]
fn ended_by<G: ShowsState>(gate: &G, action: &Action) -> EndedTotals
    ensures { result ≡ sums_of (ended_among
        (live (G.state gate.now).policy (G.state gate.now).records) action.now) }
{
    gate.is_legal();
    match action {
        Action::Kill(account) => counted(gate.live_orders_of(*account)),
        Action::CloseDay => counted(gate.live_orders()),
        Action::Lift(_)
        | Action::SetLimit(_, _)
        | Action::Restrict(_, _)
        | Action::Unrestrict(_, _)
        | Action::Grant(_, _)
        | Action::Revoke(_, _) => EndedTotals::none(),
    }
}

/// What the request ends, if it is granted. Nobody but an officer has live orders looked at.
pub fn ends_of<G: ShowsState>(gate: &G, asked: &Asked) -> EndedTotals
    ensures { result ≡ sums_of (ends_of
        (G.state gate.now).policy (G.state gate.now).records asked.now) }
{
    let Request::Command(command) = &asked.request else {
        return EndedTotals::none();
    };
    if !is_officer(gate.policy(), asked.user) {
        return EndedTotals::none();
    }
    ended_by(gate, &command.action)
}

/// This, where the request was granted; nothing has ended else.
pub fn if_granted(ends: EndedTotals, verdict: &Verdict) -> EndedTotals
    ensures { result ≡ if is_granted verdict.now then ends else sums_of [] }
{
    match verdict {
        Verdict::Granted => ends,
        Verdict::Denied(_) | Verdict::Filled(_) | Verdict::Rested(_) | Verdict::Expired(_) => {
            EndedTotals::none()
        }
    }
}
