//! `gate show`: which records of an audit are shown, and what is told where none can be.

ghost use Rattle.std.specs.Prelude.{◌<◌};

use gx_audit::{endings_of, order_ends_of};
use gx_clock::TimeOfDay;
use gx_command_line::{AuditFiles, Shape, ShowFilter, TableForm};
use gx_desk::Action;
use gx_endings::endings::Ending;
use gx_history::record::{Record, Request, Step, Verdict};
use gx_policy::Policy;
use gx_program::{Content, Failure, Resource, bytes_of, held_back, policy_of};
use gx_records::ShowsState;
use gx_shortened::Shortened;
use gx_show::{
    AskedNames, AuditRecords, Choice, FindingFault, OrderLife, ShownForm, Style, UnknownName,
    choice_of, found_in_audit, is_known_in_capitals, write_records,
};
use gx_units::OutOfMemory;
use std::alloc::Global;
use std::io;
use std::process::ExitCode;

/// The nanoseconds of a second.
const SECOND: u64 = 1_000_000_000;

/// The moment of a time of day; the other where there is none.
fn moment_of(time: Option<TimeOfDay>, other: u64) -> u64 {
    match time {
        Some(time) => u64::from(time.seconds) * SECOND,
        None => other,
    }
}

/// What is asked for but for names and an order.
fn unnamed(wanted: &ShowFilter) -> Choice {
    Choice {
        only_denied: wanted.only_denied,
        from: moment_of(wanted.from, 0),
        to: moment_of(wanted.to, u64::MAX),
        ..Choice::ALL
    }
}

/// The names that are asked for.
fn names_of<'a>(wanted: &ShowFilter<'a>) -> AskedNames<'a> {
    AskedNames {
        account: wanted.account,
        user: wanted.user,
        stock: wanted.stock,
        rule: wanted.rule,
    }
}

/// What a name is not known as, and the name.
fn kind_and_name<'a>(
    wanted: &ShowFilter<'a>,
    unknown: UnknownName,
) -> (&'static str, Option<&'a str>) {
    match unknown {
        UnknownName::Account => ("account", wanted.account),
        UnknownName::User => ("user", wanted.user),
        UnknownName::Stock => ("stock", wanted.stock),
        UnknownName::Rule => ("rule", wanted.rule),
    }
}

/// Tells that the policy has not what is asked for: the status of a fault of the arguments.
fn tell_unknown(
    rt: &HostRuntime,
    policy: &Policy,
    wanted: &ShowFilter,
    unknown: UnknownName,
) -> ExitCode {
    let (what, name) = kind_and_name(wanted, unknown);
    let name = name.unwrap_or("");
    let hint = if is_known_in_capitals(policy, unknown, name) {
        ": names are in capitals"
    } else {
        ""
    };
    let shown = Shortened::of(name);
    let _ = eprintln!(rt; "the policy has no {what} {shown}{hint}");
    ExitCode::from(2)
}

/// How the records are shown.
fn style_of(shape: Shape) -> Style {
    let form = match shape.form {
        TableForm::Text => ShownForm::Text,
        TableForm::Csv => ShownForm::Csv,
        TableForm::Json => ShownForm::Json,
    };
    Style {
        form,
        has_clock: shape.has_clock,
        has_words: shape.has_words,
    }
}

/// Whether the record is a granted Kill or Close Day.
fn is_ending(record: &Record) -> bool {
    let shown = record.content();
    match (&shown.verdict, &shown.step) {
        (Verdict::Granted, Step::Asked(asked)) => match &asked.request {
            Request::Command(command) => {
                matches!(command.action, Action::Kill(_) | Action::CloseDay)
            }
            _ => false,
        },
        _ => false,
    }
}

/// What Kills and Close Days ended, where that is shown and there are any among the records.
fn endings_for<G: ShowsState>(
    alloc: Global,
    policy: &Policy,
    audit: &[u8],
    style: &Style,
    records: &[Record],
) -> Result<Vec<Ending>, OutOfMemory> {
    let are_shown = style.has_words || style.form != ShownForm::Text;
    if are_shown && records.iter().any(is_ending) {
        return endings_of::<G>(alloc, policy, audit);
    }
    Ok(Vec::new(alloc))
}

/// Writes the records on standard output.
fn write_out<'a>(
    rt: &HostRuntime,
    policy: &Policy,
    style: &Style,
    records: &[Record],
    endings: &[Ending],
) -> Result<(), Failure<'a>> {
    let mut writer = held_back(rt.alloc(), io::writer(rt))?;
    match write_records(rt.alloc(), policy, style, records, endings, &mut writer) {
        Ok(()) => Ok(()),
        Err(fault) => {
            let cause = writer.into_inner().cause;
            Err(Failure::of_writing(fault, Resource::Output, cause))
        }
    }
}

/// Writes the records, and tells the number of the first that is none: the status that says whether there is one.
fn write_found<'a, G: ShowsState>(
    rt: &HostRuntime,
    policy: &Policy,
    audit: &[u8],
    style: &Style,
    found: &AuditRecords,
) -> Result<ExitCode, Failure<'a>> {
    let records = found.records.as_slice();
    let endings = endings_for::<G>(rt.alloc(), policy, audit, style, records)?;
    write_out(rt, policy, style, records, endings.as_slice())?;
    match found.bad {
        Some(number) => {
            let _ = eprintln!(rt; "bad record {number}");
            Ok(ExitCode::from(4))
        }
        None => Ok(ExitCode::SUCCESS),
    }
}

/// Tells why no records were found: the status that says so.
fn tell_unfound<'a>(rt: &HostRuntime, fault: FindingFault) -> Result<ExitCode, Failure<'a>> {
    match fault {
        FindingFault::OtherPolicy => {
            let _ = eprintln!(rt; "other policy");
            Ok(ExitCode::from(4))
        }
        FindingFault::OutOfMemory => Err(OutOfMemory.into()),
    }
}

/// Shows the records of an audit that are asked for: the status that says what the audit is.
fn show_chosen<'a, G: ShowsState>(
    rt: &HostRuntime,
    policy: &Policy,
    audit: &[u8],
    choice: &Choice,
    style: &Style,
) -> Result<ExitCode, Failure<'a>> {
    let found = match found_in_audit(rt.alloc(), policy, choice, audit) {
        Ok(found) => found,
        Err(fault) => return tell_unfound(rt, fault),
    };
    write_found::<G>(rt, policy, audit, style, &found)
}

/// The life of the order of this number, if one is asked for.
fn life_of<G: ShowsState>(
    alloc: Global,
    policy: &Policy,
    audit: &[u8],
    order: Option<u64>,
) -> Result<Option<OrderLife>, OutOfMemory> {
    let Some(number) = order else {
        return Ok(None);
    };
    let ends = order_ends_of::<G>(alloc, policy, audit)?;
    let end = ends.iter().find(|end| end.order == number);
    Ok(Some(OrderLife {
        number,
        ended_by: end.map(|end| end.ended_by),
    }))
}

/// Shows the records of the audit in this file that are wanted: the status that says what the audit is, or that a name is
/// not the policy's.
fn show_under<'a, G: ShowsState>(
    rt: &HostRuntime,
    policy: &Policy,
    path: &'a str,
    wanted: ShowFilter<'a>,
    shape: Shape,
) -> Result<ExitCode, Failure<'a>> {
    let mut choice = match choice_of(policy, &names_of(&wanted), &unnamed(&wanted)) {
        Ok(choice) => choice,
        Err(unknown) => return Ok(tell_unknown(rt, policy, &wanted, unknown)),
    };
    let audit = bytes_of(rt, path, Content::Records)?;
    choice.order = life_of::<G>(rt.alloc(), policy, audit.as_slice(), wanted.order)?;
    show_chosen::<G>(rt, policy, audit.as_slice(), &choice, &style_of(shape))
}

/// Shows records of an audit: the status that says whether all were records.
pub fn show<'a, G: ShowsState>(
    rt: &HostRuntime,
    files: AuditFiles<'a>,
    wanted: ShowFilter<'a>,
    shape: Shape,
) -> Result<ExitCode, Failure<'a>> {
    let policy = policy_of(rt, files.policy)?;
    show_under::<G>(rt, &policy, files.audit, wanted, shape)
}
