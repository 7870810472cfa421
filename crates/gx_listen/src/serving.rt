//! The threads of a server.

ghost use Rattle.std.specs.Prelude.{◌≡◌, [], IfErr, IfSome};
ghost use Rattle.gx_events.specs.Known.{known_of};
ghost use Rattle.gx_listen.specs.Endings.{IsHalted};

use crate::accepting::{accept, acquire_slot};
use crate::companion::{Aside, Companion, accompany};
use crate::counted::{CountedConnections, Port};
use crate::dated::Dated;
use crate::ending::{Ending, Halt, Unserved};
use crate::fault::ServeFault;
use crate::telling::{Telling, tell_records};
use crate::visiting::{Hall, serve_stream, tell_gone};
use gx_control::{ConnectionSlot, Mishap, Peer, ServerControl, ShutdownFlag};
use gx_door::{Door, Issuer};
use gx_events::EventLog;
use gx_logging::RecordLog;
use gx_pass::PassFault;
use gx_policy::Policy;
use gx_reception::{Admits, OfficersAlone, Reception};
use gx_serve::{keep_on, match_on};
use std::alloc::Global;
use std::net::TcpListener;
use std::sync::{Arc, Wait};
use std::thread;
use std::thread::Threads;
use std::time::{Clock, Duration};

/// After so many milliseconds a watcher looks after those who have not logged in.
const NEWCOMERS_POLL_MILLIS: u64 = 100;

/// After so many looks it tells what went wrong.
const LOOKS_UNTIL_TOLD: u64 = 10;

/// A peer, and the slot that he has.
#[derive(Drop)]
struct AcceptedPeer<'x, R: Wait> {
    peer: Arc<Peer, Global>,
    slot: ConnectionSlot<'x, R>,
}

/// Serves a peer to his end, and tells why it ended, where that is told. His slot is given back.
fn serve_peer<D: Door + Sync, A: Admits<D>, R: Threads + Wait + Clock + Sync>(
    hall: &Hall<'_, D, A, R>,
    guest: AcceptedPeer<'_, R>,
)
where
    D::Pass: Send,
{
    let AcceptedPeer { peer, slot } = guest;
    let gone = serve_stream(hall, &peer);
    hall.control.newcomers.leave(hall.rt, peer.number);
    tell_gone(hall.rt, hall.alloc, hall.control, &peer, gone);
    drop(peer);
    drop(slot);
}

/// The peer of this number, with a slot; `None` where there is no memory for him. He is hung up on then.
fn next_guest<'x, T: Drop + Send, D: Door<Pass = T> + Sync, A, R: Threads + Wait + Clock + Sync>(
    hall: &'x Hall<'x, D, A, R>,
    listener: &TcpListener,
    number: u64,
) -> Result<Option<AcceptedPeer<'x, R>>, Halt>
    ensures { IfErr result IsHalted }
{
    let peer = accept(hall.rt, hall.control, listener, number)?;
    let slot = acquire_slot(hall.rt, hall.control)?;
    let Ok(peer) = Arc::new(hall.alloc, peer) else {
        return Ok(None);
    };
    let Ok(theirs) = Arc::try_clone(&peer) else {
        return Ok(None);
    };
    match hall.control.newcomers.come(hall.rt, theirs) {
        Ok(()) => Ok(Some(AcceptedPeer { peer, slot })),
        Err(_) => Ok(None),
    }
}

/// What a watcher does each time that it looks: it hangs up on each who has not logged in in time, and on all of them once the
/// end was asked for.
fn look_after<R: Wait + Clock>(rt: &R, control: &ServerControl) {
    control.newcomers.cut_late(rt, &control.tally);
    if control.shutdown.is_requested().is_yes() {
        control.newcomers.cut_all(rt);
    }
}

/// Looks after newcomers until their door is closed, and tells each second what went wrong.
fn watch_newcomers<D, A, R: Wait + Clock>(hall: &Hall<'_, D, A, R>) {
    let (rt, control) = (hall.rt, hall.control);
    for turn in 0..u64::MAX {
        look_after(rt, control);
        if turn % LOOKS_UNTIL_TOLD == 0 || control.newcomers.is_closed() {
            control.tell_mishaps(rt, hall.alloc);
        }
        if control.newcomers.is_closed() {
            return;
        }
        thread::sleep(rt, Duration::from_millis(NEWCOMERS_POLL_MILLIS));
    }
}

/// Keeps what is done until the wakeup for that is closed, and tells at once where it can't be kept.
fn keep_all<D: Door, A, R: Wait + Clock>(hall: &Hall<'_, D, A, R>) {
    if !keep_on(hall.rt, hall.door, hall.control) {
        hall.control.tell(
            hall.rt,
            hall.alloc,
            "journal",
            "gate: the journal can't be written: the server ends",
        );
    }
}

/// Makes matching steps until the wakeup for that is closed. Gives the pass back.
fn match_all<T: Drop, D: Door<Pass = T>, A, R: Wait + Clock>(
    hall: &Hall<'_, D, A, R>,
    pass: T,
) -> T {
    let rt = &Dated::new(hall.rt, hall.alloc, hall.control);
    match_on(rt, hall.door, hall.control, pass)
}

/// There was no thread or no memory for the connection of this number: it is hung up on, and so is the one who came first
/// and has not logged in.
fn go_without<R: Wait>(rt: &R, control: &ServerControl, number: u64) {
    control.newcomers.leave(rt, number);
    control.newcomers.cut_first(rt);
    control.tally.note(Mishap::Unserved, 1);
}

/// Ends the server where all connections that it counts were taken and have ended, and tells so.
fn end_by_count<D, A, R: Wait + Clock>(hall: &Hall<'_, D, A, R>) {
    if hall.counted.are_over(hall.rt) {
        hall.control.tell(
            hall.rt,
            hall.alloc,
            "end",
            "gate: the server ends: it has taken as many connections as it was to, and all have ended",
        );
        hall.control.end();
    }
}

/// Serves a peer who is counted to his end. Where he was the last that the server waited for, it ends.
fn serve_counted<D: Door + Sync, A: Admits<D>, R: Threads + Wait + Clock + Sync>(
    hall: &Hall<'_, D, A, R>,
    guest: AcceptedPeer<'_, R>,
    place: Option<ConnectionSlot<'_, R>>,
)
where
    D::Pass: Send,
{
    serve_peer(hall, guest);
    drop(place);
    end_by_count(hall);
}

/// Takes connections behind the last that is counted, each in a thread of its own, until the end is asked for: how this
/// ended.
fn take_officers<
    'x,
    T: Drop + Send,
    D: Door<Pass = T> + Sync,
    A: Admits<D> + Sync,
    R: Threads + Wait + Clock + Sync,
>(hall: &'x Hall<'x, D, A, R>, port: &Port) -> Ending {
    thread::scope(thread::scope_env(), hall.rt, |scope| {
        for before in port.connections..u64::MAX {
            match next_guest(hall, &port.listener, before + 1) {
                Ok(Some(guest)) => {
                    if (&*scope).spawn(move || serve_peer(hall, guest)).is_err() {
                        go_without(hall.rt, hall.control, before + 1);
                    }
                }
                Ok(None) => go_without(hall.rt, hall.control, before + 1),
                Err(halt) => return Ending::of_halt(halt),
            }
        }
        Ending::of_all_taken()
    })
}

/// Takes officers alone, once all connections that are counted were taken, for as long as one of those is served: how this
/// ended. It is told that it is so.
fn go_on_for_officers<
    'x,
    T: Drop + Send,
    D: Door<Pass = T> + Sync,
    A: Admits<D> + Sync,
    R: Threads + Wait + Clock + Sync,
>(hall: &'x Hall<'x, D, A, R>, policy: &'x Policy, port: &Port) -> Ending {
    hall.control.tell(
        hall.rt,
        hall.alloc,
        "count",
        "gate: as many connections were taken as were to be: from now on officers alone are, until all of those have ended",
    );
    hall.counted.close();
    end_by_count(hall);
    let reception = OfficersAlone::new(policy, hall.reception);
    let hall = Hall {
        rt: hall.rt,
        alloc: hall.alloc,
        door: hall.door,
        reception: &reception,
        control: hall.control,
        counted: hall.counted,
    };
    take_officers(&hall, port)
}

/// Takes connections, each in a thread of its own, and behind the last that is counted officers alone; waits until all have
/// ended: how this ended. One for which there is no thread or no memory is closed. All threads beside it are there by now, so
/// it is said that the server has begun.
fn take_guests<
    'x,
    T: Drop + Send,
    D: Door<Pass = T> + Sync,
    A: Admits<D> + Sync,
    R: Threads + Wait + Clock + Sync,
>(hall: &'x Hall<'x, D, A, R>, policy: &'x Policy, port: Port) -> Ending {
    let rt = hall.rt;
    hall.control.begun.begin(rt);
    thread::scope(thread::scope_env(), rt, |scope| {
        for before in 0..port.connections {
            match next_guest(hall, &port.listener, before + 1) {
                Ok(Some(guest)) => {
                    let place = hall.counted.begin(rt);
                    if (&*scope)
                        .spawn(move || serve_counted(hall, guest, place))
                        .is_err()
                    {
                        go_without(rt, hall.control, before + 1);
                    }
                }
                Ok(None) => go_without(rt, hall.control, before + 1),
                Err(halt) => return Ending::of_halt(halt),
            }
        }
        go_on_for_officers(hall, policy, &port)
    })
}

/// The log of a day's records, and how many of them an earlier run has told.
#[derive(Drop)]
pub struct DayLog {
    /// What is told of records: it stands in front of the day's first.
    pub events: EventLog,
    /// So many records were there before this run.
    pub earlier: u64,
}

/// The log of the records at the door, if one is asked for, with a pass of its own.
fn open_log<D: Door, I: Issuer<D>, R: Wait>(
    rt: &R,
    issuer: &mut I,
    log: Option<DayLog>,
) -> Result<Option<Telling<D>>, PassFault>
    requires known { IfSome log (λ l. l.events.known ≡ known_of D.policy []) }
{
    match log {
        Some(DayLog { events, earlier }) => {
            let log = RecordLog::new(issuer.issue(rt)?, events);
            Ok(Some(Telling { log, earlier }))
        }
        None => Ok(None),
    }
}

/// Takes connections, beside who tells of the records, if a log is asked for: how this ended; `OutOfMemory` where no thread
/// could be made for him.
fn take_told<
    'x,
    T: Drop + Send,
    D: Door<Pass = T> + Sync,
    A: Admits<D> + Sync,
    R: Threads + Wait + Clock + Sync,
>(
    hall: &'x Hall<'x, D, A, R>,
    telling: Option<Telling<D>>,
    policy: &'x Policy,
    port: Port,
) -> Result<Ending, Unserved> {
    let Some(telling) = telling else {
        return Ok(take_guests(hall, policy, port));
    };
    thread::scope(thread::scope_env(), hall.rt, |scope| {
        let Ok(_telling) = (&*scope).spawn(move || tell_records(
            hall.rt,
            hall.alloc,
            hall.door,
            hall.control,
            telling,
        )) else {
            return Err(Unserved::of_fault(ServeFault::OutOfMemory));
        };
        let taken = take_guests(hall, policy, port);
        hall.control.newcomers.close();
        Ok(taken)
    })
}

/// Takes connections, beside who looks after newcomers and who keeps what is done: how this ended; `OutOfMemory` where no
/// thread could be made for one of these, or for who tells of the records.
fn take_watched<
    'x,
    T: Drop + Send,
    D: Door<Pass = T> + Sync,
    A: Admits<D> + Sync,
    R: Threads + Wait + Clock + Sync,
>(
    hall: &'x Hall<'x, D, A, R>,
    telling: Option<Telling<D>>,
    policy: &'x Policy,
    port: Port,
) -> Result<Ending, Unserved> {
    thread::scope(thread::scope_env(), hall.rt, |scope| {
        let Ok(_watching) = (&*scope).spawn(move || watch_newcomers(hall)) else {
            return Err(Unserved::of_fault(ServeFault::OutOfMemory));
        };
        let Ok(_keeping) = (&*scope).spawn(move || keep_all(hall)) else {
            hall.control.newcomers.close();
            return Err(Unserved::of_fault(ServeFault::OutOfMemory));
        };
        let taken = take_told(hall, telling, policy, port);
        hall.control.newcomers.close();
        hall.control.keeper.close(hall.rt);
        taken
    })
}

/// Runs the matcher beside the connections. Gives the matcher's pass, and how the server ended; `OutOfMemory` where no
/// thread could be made for the matcher, or for one of those beside it.
fn run<
    'x,
    T: Drop + Send,
    D: Door<Pass = T> + Sync,
    A: Admits<D> + Sync,
    R: Threads + Wait + Clock + Sync,
>(
    hall: &'x Hall<'x, D, A, R>,
    pass: T,
    telling: Option<Telling<D>>,
    policy: &'x Policy,
    port: Port,
) -> Result<(T, Ending), Unserved> {
    thread::scope(thread::scope_env(), hall.rt, |scope| {
        let Ok(matcher) = (&*scope).spawn(move || match_all(hall, pass)) else {
            return Err(Unserved::of_fault(ServeFault::OutOfMemory));
        };
        let taken = take_watched(hall, telling, policy, port);
        hall.control.matcher.close(hall.rt);
        let pass = matcher.join(hall.rt);
        match taken {
            Ok(ending) => Ok((pass, ending)),
            Err(unserved) => Err(unserved),
        }
    })
}

/// Runs the matcher and the connections, beside the companion, if there is one. Gives the matcher's pass, and how the server
/// ended; `OutOfMemory` where no thread could be made for one of these, or for one of those beside them.
fn run_accompanied<
    'x,
    T: Drop + Send,
    D: Door<Pass = T> + Sync,
    A: Admits<D> + Sync,
    P: Aside + Drop + Send,
    R: Threads + Wait + Clock + Sync,
>(
    hall: &'x Hall<'x, D, A, R>,
    closing: &'x ShutdownFlag,
    pass: T,
    telling: Option<Telling<D>>,
    companion: Option<P>,
    policy: &'x Policy,
    port: Port,
) -> Result<(T, Ending), Unserved> {
    let Some(companion) = companion else {
        return run(hall, pass, telling, policy, port);
    };
    thread::scope(thread::scope_env(), hall.rt, |scope| {
        let Ok(_companion) = (&*scope).spawn(move || companion.go_on(
            hall.rt,
            hall.alloc,
            hall.control,
            closing,
        )) else {
            return Err(Unserved::of_fault(ServeFault::OutOfMemory));
        };
        let ran = run(hall, pass, telling, policy, port);
        closing.request();
        ran
    })
}

/// Serves at any door, with passes of its gate: takes connections, each in threads of its own, and makes matching steps,
/// until so many were taken and have ended, or the server was asked to end. Once so many were taken it takes officers alone,
/// whom it serves until then. All threads have ended at its end.
///
/// A connection has a line from its login on, if its user has the right password. The log of the records, if one is asked
/// for, is told in the server's. The companion, if there is one, is served beside it, by this policy: it has a line of
/// the day.
///
/// Gives back a pass, and how the server ended.
///
/// # Errors
///
/// `NoLines` where no line was left, and `OutOfMemory` where memory or a thread was refused, before any connection was
/// taken.
pub fn serve_door<
    T: Drop + Send,
    D: Door<Pass = T> + Sync,
    I: Issuer<D> + Drop + Send,
    C: Companion + Send,
    R: Threads + Wait + Clock + Sync,
>(
    rt: &R,
    alloc: Global,
    door: &D,
    policy: &Policy,
    issuer: I,
    control: &ServerControl,
    log: Option<DayLog>,
    companion: Option<C>,
    listener: TcpListener,
    connections: u64,
) -> Result<(T, Ending), Unserved>
    requires known { IfSome log (λ l. l.events.known ≡ known_of D.policy []) }
    requires policy { policy.now ≡ D.policy }
{
    let mut issuer = issuer;
    let pass = match issuer.issue(rt) {
        Ok(pass) => pass,
        Err(fault) => return Err(Unserved::of_fault(fault.into())),
    };
    let telling = match open_log(rt, &mut issuer, log) {
        Ok(telling) => telling,
        Err(fault) => return Err(Unserved::of_fault(fault.into())),
    };
    let companion = match accompany(rt, door, policy, &mut issuer, companion) {
        Ok(companion) => companion,
        Err(fault) => return Err(Unserved::of_fault(fault)),
    };
    let reception = match Reception::open(rt, door, issuer) {
        Ok(reception) => reception,
        Err(fault) => return Err(Unserved::of_fault(fault.into())),
    };
    if let Err(error) = listener.set_nonblocking(true) {
        let halt = Halt::Fault(ServeFault::ListenFailed(error));
        return Ok((pass, Ending::of_halt(halt)));
    }
    control.matcher.open(rt);
    control.keeper.open(rt);
    let closing = ShutdownFlag::new();
    let counted = CountedConnections::new();
    let hall = Hall {
        rt,
        alloc,
        door,
        reception: &reception,
        control,
        counted: &counted,
    };
    let port = Port {
        listener,
        connections,
    };
    run_accompanied(&hall, &closing, pass, telling, companion, policy, port)
}
