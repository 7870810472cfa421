//! A server of the day that a journal holds.

use crate::entrance::{ServerEntrance, open_lobby, served, unserved};
use crate::page::RiskPage;
use crate::runtime::ServerRuntime;
use gx_access_gate::AccessGate;
use gx_audit_bytes::AuditVersion;
use gx_command_line::{JournalFile, Serving, Standby};
use gx_devices::WriteFailed;
use gx_listen::ServeFault;
use gx_log::Log;
use gx_policy::Policy;
use gx_program::{Failure, Named, Resource, tell_apart};
use gx_records::{ShowsRecords, ShowsState};
use gx_runs::{
    AuditFile, Day, JournalDevice, Start, TakenOver, audit_version, close_audited, connections_of,
    fail_audit, leave_audit, look_back, open_audit, open_file, open_journal, take_over, take_up,
    tell_cut, tell_room,
};
use gx_server::ErrorRecorder;
use gx_shared::{KeptDay, serve_journaled};
use std::alloc::Global;
use std::io;
use std::sync::{Arc, Wait};
use std::time::Clock;

/// Serves connections of a day that goes on, and keeps its records. Tells how the server ended, too, and whether it was
/// told that it listens.
fn go_on<'a, G: ShowsRecords + ShowsState + Send, R: ServerRuntime>(
    rt: &R,
    host: &HostRuntime,
    serving: &Serving<'a>,
    start: Start,
    day: Day<G>,
    log: &Arc<Log, Global>,
) -> Result<
    (
        KeptDay<G, ErrorRecorder<JournalDevice>>,
        Result<(), Failure<'a>>,
    ),
    Failure<'a>,
> {
    let Day {
        gate,
        version,
        cut,
        device,
    } = day;
    let last = gate.moment_of_last();
    match open_lobby(rt, host, serving, start, last, log) {
        Ok(
            ServerEntrance {
                listener,
                page,
                control,
                announcer,
            },
        ) => {
            let count = gate.length();
            tell_room(rt, host, log);
            tell_cut(rt, host, log, count, cut);
            let connections = connections_of(serving.ends);
            let alloc = host.alloc();
            let kept = serve_journaled(
                rt,
                alloc,
                gate,
                version,
                count,
                device,
                &control,
                RiskPage::<G>::behind(page),
                listener,
                connections,
            );
            let announced = announcer.end(rt);
            match kept {
                Ok((kept, ended)) => Ok((kept, served(ended).and(announced))),
                Err(fault) => Err(unserved(ServeFault::from(fault))),
            }
        }
        Err(ended) => {
            gate.close();
            Err(ended)
        }
    }
}

/// Whether a journal in this file was kept, and what the system said where it was not.
fn kept<'a>(
    fault: Option<WriteFailed>,
    path: &'a str,
    said: Option<io::Error>,
) -> Result<(), Failure<'a>> {
    match fault {
        Some(failed) => Err(Failure::of_writing(failed.into(), Resource::File(path), said)),
        None => Ok(()),
    }
}

/// How a server ended that kept its records in a journal, once its audit is written. Where the journal has failed, the reason
/// stands in the audit's place: the gate has made steps that are in no journal, and that nobody was told of.
fn close_server<'a, G: ShowsRecords>(
    host: &HostRuntime,
    path: &'a str,
    left: KeptDay<G, ErrorRecorder<JournalDevice>>,
    ended: Result<(), Failure<'a>>,
    version: AuditVersion,
    audit: Option<AuditFile<'a>>,
) -> Result<(), Failure<'a>> {
    let KeptDay {
        gate,
        fault,
        device,
    } = left;
    let ErrorRecorder { device, cause } = device;
    let journaled = kept(fault, path, cause).and(look_back(path, &device));
    let audited = match &journaled {
        Ok(()) => close_audited(host, version, gate, audit),
        Err(why) => {
            gate.close();
            fail_audit(host, why, audit)
        }
    };
    journaled.and(ended).and(audited)
}

/// The day that a journal holds, and the file of its audit. Nothing is written before all files are seen to differ.
fn open_day<'a, G: AccessGate>(
    host: &HostRuntime,
    policy: &Policy,
    journal: JournalFile<'a>,
    named: Named<'a>,
    asked: AuditVersion,
) -> Result<(Day<G>, Option<AuditFile<'a>>), Failure<'a>> {
    let file = open_journal(host, journal.path)?;
    tell_apart(host, named)?;
    let audit = open_audit(host, named)?;
    match take_up(host, policy, journal, file, asked) {
        Ok(day) => Ok((day, audit)),
        Err(ended) => {
            leave_audit(host, audit);
            Err(ended)
        }
    }
}

/// A day that goes on, since when it does, and the file of its audit.
struct Opened<'a, G> {
    start: Start,
    day: Day<G>,
    audit: Option<AuditFile<'a>>,
}

/// The day of a journal that another server has kept, and the file of its audit. `None` where the standby is to end before it
/// takes over.
fn stand_by<'a, G: AccessGate, R: Wait + Clock>(
    rt: &R,
    host: &HostRuntime,
    policy: &Policy,
    serving: &Serving<'a>,
    standby: Standby<'a>,
    start: Start,
    journal: JournalFile<'a>,
    named: Named<'a>,
    log: &Log,
) -> Result<Option<Opened<'a, G>>, Failure<'a>> {
    let file = open_file(host, journal.path, false)?;
    tell_apart(host, named)?;
    let audit = open_audit(host, named)?;
    match take_over(
        rt, host, policy, serving, standby, journal, file, start, log,
    ) {
        Ok(Some(TakenOver { start, day })) => Ok(Some(Opened { start, day, audit })),
        Ok(None) => {
            leave_audit(host, audit);
            Ok(None)
        }
        Err(ended) => {
            leave_audit(host, audit);
            Err(ended)
        }
    }
}

/// The day of a journal, once it is this server's, and the file of its audit. `None` where a standby is to end before.
fn open_kept<'a, G: AccessGate, R: Wait + Clock>(
    rt: &R,
    host: &HostRuntime,
    policy: &Policy,
    serving: &Serving<'a>,
    start: Start,
    journal: JournalFile<'a>,
    named: Named<'a>,
    log: &Log,
) -> Result<Option<Opened<'a, G>>, Failure<'a>> {
    if let Some(standby) = serving.standby {
        return stand_by(
            rt, host, policy, serving, standby, start, journal, named, log,
        );
    }
    let (day, audit) = open_day(host, policy, journal, named, start.version)?;
    Ok(Some(Opened { start, day, audit }))
}

/// Serves connections of the day that a journal holds, keeps its records, and writes the audit.
pub(crate) fn serve_kept<'a, G: ShowsRecords + ShowsState + Send, R: ServerRuntime>(
    rt: &R,
    host: &HostRuntime,
    policy: &Policy,
    serving: &Serving<'a>,
    start: Start,
    journal: JournalFile<'a>,
    named: Named<'a>,
    log: &Arc<Log, Global>,
) -> Result<(), Failure<'a>> {
    let kept = open_kept::<G, R>(rt, host, policy, serving, start, journal, named, log)?;
    let Some(opened) = kept else {
        return Ok(());
    };
    let Opened { start, day, audit } = opened;
    let version = audit_version(start.version, day.version);
    match go_on(rt, host, serving, start, day, log) {
        Ok((left, ended)) => close_server(host, journal.path, left, ended, version, audit),
        Err(ended) => {
            leave_audit(host, audit);
            Err(ended)
        }
    }
}
