//! A server of a day that begins with it.

use crate::entrance::{ServerEntrance, open_lobby, served, unserved};
use crate::page::RiskPage;
use crate::runtime::ServerRuntime;
use gx_command_line::Serving;
use gx_log::Log;
use gx_policy::Policy;
use gx_program::{Failure, Named};
use gx_records::{ShowsRecords, ShowsState};
use gx_runs::{Start, close_audited, connections_of, leave_audit, open_audit};
use gx_shared::{Served, serve};
use gx_units::Moment;
use std::alloc::Global;
use std::sync::Arc;

/// The moment of the last record of a day that has none.
const NO_MOMENT: Moment = 0;

/// Serves connections, until as many as were asked for have ended, or standard input has, where that was asked for. Tells
/// beside it whether it was told that the server listens.
fn serve_on<'a, G: ShowsRecords + ShowsState + Send, R: ServerRuntime>(
    rt: &R,
    host: &HostRuntime,
    policy: &Policy,
    serving: &Serving<'a>,
    start: Start,
    log: &Arc<Log, Global>,
) -> Result<(Served<G>, Result<(), Failure<'a>>), Failure<'a>> {
    let ServerEntrance {
        listener,
        page,
        control,
        announcer,
    } = open_lobby(rt, host, serving, start, NO_MOMENT, log)?;
    let connections = connections_of(serving.ends);
    let served = serve::<G, RiskPage<G>, R>(
        rt,
        host.alloc(),
        policy,
        &control,
        RiskPage::behind(page),
        listener,
        connections,
    );
    let announced = announcer.end(rt);
    match served {
        Ok(served) => Ok((served, announced)),
        Err(fault) => Err(unserved(fault)),
    }
}

/// Serves connections under a policy, and writes the audit.
pub(crate) fn serve_under<'a, G: ShowsRecords + ShowsState + Send, R: ServerRuntime>(
    rt: &R,
    host: &HostRuntime,
    policy: &Policy,
    serving: &Serving<'a>,
    start: Start,
    named: Named<'a>,
    log: &Arc<Log, Global>,
) -> Result<(), Failure<'a>> {
    let audit = open_audit(host, named)?;
    match serve_on::<G, R>(rt, host, policy, serving, start, log) {
        Ok((left, announced)) => {
            let Served { gate, ended } = left;
            let audited = close_audited(host, start.version, gate, audit);
            served(ended).and(announced).and(audited)
        }
        Err(ended) => {
            leave_audit(host, audit);
            Err(ended)
        }
    }
}
