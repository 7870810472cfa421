//! The command, and the log beside it.

use crate::beginning::serve_under;
use crate::going_on::serve_kept;
use crate::runtime::ServerRuntime;
use gx_command_line::Serving;
use gx_log::{Log, write_on};
use gx_program::{Failure, policy_of, tell, tell_in};
use gx_records::{ShowsRecords, ShowsState};
use gx_runs::{Start, look_ahead, names_of};
use gx_units::OutOfMemory;
use std::alloc::Global;
use std::process::ExitCode;
use std::sync::{Arc, Wait};
use std::thread::Threads;
use std::time::{Clock, Duration};
use std::{io, thread};

/// So many seconds behind its end a server waits for what it told to be written.
const LOG_WAIT_SECONDS: u64 = 1;

/// Serves connections, and writes the audit.
fn serve_port<'a, G: ShowsRecords + ShowsState + Send, R: ServerRuntime>(
    rt: &R,
    host: &HostRuntime,
    serving: Serving<'a>,
    log: &Arc<Log, Global>,
) -> Result<(), Failure<'a>> {
    look_ahead(host, &serving)?;
    let start = Start::of_run(rt, serving.files.version, serving.midnight);
    let path = serving.journal.map(|journal| journal.path);
    let named = names_of(host, serving.files, path)?;
    let policy = policy_of(host, serving.files.policy)?;
    match serving.journal {
        Some(journal) => serve_kept::<G, R>(
            rt, host, &policy, &serving, start, journal, named, log,
        ),
        None => serve_under::<G, R>(rt, host, &policy, &serving, start, named, log),
    }
}

/// Starts the thread that writes on standard error what is told in the log.
fn start_log<R: Threads + Wait + Clock + Copy + Send + 'static>(
    rt: R,
    host: HostRuntime,
    log: &Arc<Log, Global>,
) -> Result<(), OutOfMemory> {
    let theirs = Arc::try_clone(log)?;
    match thread::spawn(
        &rt,
        move || write_on(&rt, &theirs, &mut io::writer(&host.stderr())),
    ) {
        Ok(_) => Ok(()),
        Err(_) => Err(OutOfMemory),
    }
}

/// Serves connections, and tells in the log how that ended: the status that says so. Whatever is not written a while behind
/// the end is let go.
fn serve_logged<G: ShowsRecords + ShowsState + Send, R: ServerRuntime>(
    rt: &R,
    host: &HostRuntime,
    serving: Serving<'_>,
    log: &Arc<Log, Global>,
) -> ExitCode {
    let status = match serve_port::<G, R>(rt, host, serving, log) {
        Ok(()) => ExitCode::SUCCESS,
        Err(ended) => tell_in(rt, host, log, ended),
    };
    log.close(rt);
    log.await_written(rt, Duration::from_secs(LOG_WAIT_SECONDS));
    status
}

/// Serves connections on gates of the kind `G`: the status that says how that ended.
pub fn serve_told<G: ShowsRecords + ShowsState + Send, R: ServerRuntime>(
    rt: &R,
    host: &HostRuntime,
    serving: Serving<'_>,
) -> ExitCode {
    let Ok(log) = Arc::new(host.alloc(), Log::new(serving.log)) else {
        return tell(host, OutOfMemory.into());
    };
    match start_log(*rt, *host, &log) {
        Ok(()) => serve_logged::<G, R>(rt, host, serving, &log),
        Err(refused) => tell(host, refused.into()),
    }
}
