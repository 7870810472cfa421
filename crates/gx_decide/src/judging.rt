//! The verdict on a request.

ghost use Rattle.std.specs.Prelude.{◌≡◌};
ghost use Rattle.gx_history.specs.{Verdicts.verdict_by, Asking.of_command};
ghost use Rattle.gx_people.specs.Entitled.{has, power_of};
ghost use Rattle.gx_decide.specs.Deciding.{Decides, Judges};

use gx_history::facts::{Facts, NoFigures};
use gx_history::record::{Asked, Request, Verdict};
use gx_index::Near;
use gx_ledger::Ledger;
use gx_people::People;
use gx_people::power::Power;
use gx_policy::RuleName;
use gx_rules::RuleBook;

/// Whether the people give the asker the power that a command asks for; true for any other request.
fn has_power(people: &People, a: &Asked) -> bool
    ensures { result ≡ of_command
        (λ action. has people.now a.now.user (power_of action)) a.now.request }
{
    match &a.request {
        Request::Command(c) => people.has(a.user, Power::of(&c.action)),
        _ => true,
    }
}

fn verdict_by(found: Option<RuleName>) -> Verdict
    ensures { result ≡ verdict_by found }
{
    match found {
        Some(rule) => Verdict::Denied(rule),
        None => Verdict::Granted,
    }
}

/// The verdict on the request, on these facts and the figures of the ledger: denied by the first rule of the written
/// order that forbids it, and else granted.
fn judged(rules: &RuleBook, ledger: &Ledger, facts: &Facts, near: Near, a: &Asked) -> Verdict
    ensures judged { Judges rules.now ledger.now facts.now a.now result }
{
    let Some(account) = facts.account else {
        return verdict_by(rules.first_forbidding(facts, &NoFigures, near.account, &a.request));
    };
    let figures = ledger.after(account, &a.request, near, facts.target_order, facts.moment);
    verdict_by(rules.first_forbidding(facts, &figures, near.account, &a.request))
}

/// The verdict on the request, on these facts, the powers that the people have and the figures of the ledger: denied by
/// the first rule of the written order that forbids it, and else granted. The names of the request and of the order that
/// it names are looked for at these places first.
pub fn decide(
    people: &People,
    rules: &RuleBook,
    ledger: &Ledger,
    given: &Facts,
    near: Near,
    a: &Asked,
) -> Verdict
    ensures decided { Decides people.now rules.now ledger.now given.now a.now result }
{
    let has_power = has_power(people, a);
    if has_power == given.has_power {
        return judged(rules, ledger, given, near, a);
    }
    let facts = Facts {
        has_power,
        ..*given
    };
    judged(rules, ledger, &facts, near, a)
}
