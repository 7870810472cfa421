//! Where connections come in.

use crate::announcing::Announcer;
use crate::limits::capacity_for;
use crate::page::{PageEntrance, listen, open_page};
use crate::runtime::ServerRuntime;
use gx_clock::DayClock;
use gx_command_line::Serving;
use gx_control::ServerControl;
use gx_listen::{Ending, ServeFault};
use gx_log::Log;
use gx_program::Failure;
use gx_runs::{Start, await_ends};
use gx_server::ProgramFault;
use gx_units::{Moment, OutOfMemory};
use std::alloc::Global;
use std::net::TcpListener;
use std::sync::Arc;

/// Where connections come in: who listens for them, where the risk desk's page is served, what its threads share, and who tells
/// that it listens.
#[derive(Drop)]
pub(crate) struct ServerEntrance {
    pub(crate) listener: TcpListener,
    pub(crate) page: Option<PageEntrance>,
    pub(crate) control: Arc<ServerControl, Global>,
    pub(crate) announcer: Announcer,
}

/// What the threads of a server share, which is served on so many places, on this clock, and ends as was asked for.
fn open_control<'a, R: ServerRuntime>(
    rt: &R,
    host: &HostRuntime,
    serving: &Serving<'a>,
    clock: DayClock,
    places: u16,
    log: &Arc<Log, Global>,
) -> Result<Arc<ServerControl, Global>, Failure<'a>> {
    let Ok(log) = Arc::try_clone(log) else {
        return Err(OutOfMemory.into());
    };
    let alloc = host.alloc();
    let control = ServerControl::new(alloc, clock, places, u64::from(serving.login_within), log);
    let Ok(control) = Arc::new(alloc, control) else {
        return Err(OutOfMemory.into());
    };
    await_ends(*rt, *host, serving.ends, &control)?;
    Ok(control)
}

/// Who listens for connections, and for browsers, if the page is to be served.
fn open_ports<'a, R: ServerRuntime>(
    rt: &R,
    host: &HostRuntime,
    serving: &Serving<'a>,
    has_page: bool,
) -> Result<(TcpListener, Option<PageEntrance>), Failure<'a>> {
    let listener = listen(rt, serving.port)?;
    if !has_page {
        return Ok((listener, None));
    }
    let page = open_page(rt, host, serving)?;
    Ok((listener, page))
}

/// Listens for connections, which is told once they are taken. The server ends as was
/// asked for, and its clock has begun at the start, no earlier than at the moment `last`.
pub(crate) fn open_lobby<'a, R: ServerRuntime>(
    rt: &R,
    host: &HostRuntime,
    serving: &Serving<'a>,
    start: Start,
    last: Moment,
    log: &Arc<Log, Global>,
) -> Result<ServerEntrance, Failure<'a>> {
    let wants_page = serving.status_port.is_some();
    let capacity = capacity_for(rt, host, log, serving.at_once, wants_page);
    let (listener, page) = open_ports(rt, host, serving, capacity.has_page)?;
    let clock = start.clock(serving.midnight, last);
    let control = open_control(rt, host, serving, clock, capacity.places, log)?;
    let announcer = Announcer::begin(*rt, *host, &control, serving.port)?;
    Ok(ServerEntrance {
        listener,
        page,
        control,
        announcer,
    })
}

/// Why the program gives up, where a server did for this.
pub(crate) fn unserved<'a>(fault: ServeFault) -> Failure<'a> {
    match fault {
        ServeFault::OutOfMemory => OutOfMemory.into(),
        ServeFault::ListenFailed(error) => Failure::no_listener(error),
        ServeFault::NoLines => ProgramFault::NoLines.into(),
    }
}

/// How a server ended.
pub(crate) fn served<'a>(ended: Ending) -> Result<(), Failure<'a>> {
    match ended.fault() {
        Some(fault) => Err(unserved(fault)),
        None => Ok(()),
    }
}
