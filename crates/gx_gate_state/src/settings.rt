//! Limits, lists of stocks and entitlements, as officers change them.

ghost use Rattle.std.specs.Prelude.{◌≡◌, IsFalse, IsOk, OnOk, OnErr};
ghost use Rattle.gx_desk.specs.declared.Action.TheVariants as actions;
ghost use Rattle.gx_history.specs.InForce.{rules_after};
ghost use Rattle.gx_people.specs.Entitled.{users_after};
ghost use Rattle.gx_gate_state.specs.Settings.{grows, sent_on, HasRoomForReader, HasSetting};

use gx_desk::{Action, WrittenName};
use gx_people::People;
use gx_policy::Policy;
use gx_rules::RuleBook;
use gx_streams::Streams;
use gx_units::{AccountName, OutOfMemory};

/// Gives the account to the reader whom the officer names, who gets its later fills.
fn grant(
    people: &mut People,
    streams: &mut Streams,
    policy: &Policy,
    written: WrittenName,
    account: AccountName,
) -> Result<(), OutOfMemory>
    requires room { HasRoomForReader people.old (actions.Grant written account) }
    ensures people { OnOk result
        (people.new ≡ users_after people.old (actions.Grant written account)) }
    ensures streams { OnOk result (streams.new
        ≡ sent_on policy.now people.old people.new streams.old (actions.Grant written account)) }
    ensures people_kept { OnErr result (people.new ≡ people.old) }
    ensures streams_kept { OnErr result (streams.new ≡ streams.old) }
{
    let Some(reader) = people.reader_named(written) else {
        return Ok(());
    };
    streams.entitle(reader, people.mask_with(policy, reader, account))?;
    people.grant(reader, account);
    Ok(())
}

/// Takes the account from the reader whom the officer names, who gets no later fill of it.
fn revoke(
    people: &mut People,
    streams: &mut Streams,
    policy: &Policy,
    written: WrittenName,
    account: AccountName,
) -> Result<(), OutOfMemory>
    ensures people { OnOk result (people.new
        ≡ users_after people.old (actions.Revoke written account)) }
    ensures streams { OnOk result (streams.new
        ≡ sent_on policy.now people.old people.new streams.old (actions.Revoke written account)) }
    ensures people_kept { OnErr result (people.new ≡ people.old) }
    ensures streams_kept { OnErr result (streams.new ≡ streams.old) }
{
    let Some(reader) = people.reader_named(written) else {
        return Ok(());
    };
    streams.entitle(reader, people.mask_without(policy, reader, account))?;
    people.revoke(reader, account);
    Ok(())
}

/// Changes people, whose fills they get, and rules as the command says; a Kill, a Lift and a Close
/// Day change none of these.
///
/// # Errors
///
/// `OutOfMemory`: there was no memory for one more span of fills, or for one more stock, and
/// nothing has changed.
pub fn set(
    people: &mut People,
    streams: &mut Streams,
    rules: &mut RuleBook,
    policy: &Policy,
    action: &Action,
) -> Result<(), OutOfMemory>
    requires room { HasRoomForReader people.old action.now }
    requires known { HasSetting rules.old action.now }
    ensures people { OnOk result (people.new ≡ users_after people.old action.now) }
    ensures streams { OnOk result (streams.new
        ≡ sent_on policy.now people.old people.new streams.old action.now) }
    ensures rules { OnOk result (rules.new ≡ rules_after rules.old action.now) }
    ensures people_kept { OnErr result (people.new ≡ people.old) }
    ensures streams_kept { OnErr result (streams.new ≡ streams.old) }
    ensures rules_kept { OnErr result (rules.new ≡ rules.old) }
    ensures sure { IsFalse (grows action.now) → IsOk result }
{
    match *action {
        Action::SetLimit(rule, limit) => rules.set_limit(rule, limit),
        Action::Restrict(rule, stock) => rules.restrict(rule, stock)?,
        Action::Unrestrict(rule, stock) => rules.unrestrict(rule, stock),
        Action::Grant(reader, account) => grant(people, streams, policy, reader, account)?,
        Action::Revoke(reader, account) => revoke(people, streams, policy, reader, account)?,
        Action::Kill(_) | Action::Lift(_) | Action::CloseDay => {}
    }
    Ok(())
}
