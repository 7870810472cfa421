//! The threads of a scenario: one for each connection, and the matcher.

use crate::clock::ClockedRuntime;
use crate::connection::MemoryConnection;
use crate::devices::{MemoryReader, MemoryWriter};
use crate::driver::{NewConnection, ScenarioDriver, ScenarioFailure};
use crate::fixture::{ScenarioRun, ServerFixture};
use crate::scenario::Scenario;
use gx_control::WriterWakeup;
use gx_devices::CallCounter;
use gx_door::{Caller, Dial, Door, Issuer};
use gx_reception::{Admits, Opening, Reception};
use gx_serve::{
    Announces, Cut, Gone, HangUp, Received, SharedConnection, match_on, read_to_end, receive,
    run_connection, turn_away,
};
use std::alloc::Global;
use std::sync::Wait;
use std::thread;
use std::thread::Threads;
use std::time::Clock;

/// How many milliseconds a writer rests at most, since the clock of a scenario stands still.
const WRITER_REST_MILLIS: u64 = 1;

/// Serves a user who was admitted until his connection ends. Answers why he was cut off, if he was.
fn serve_user<
    D: Door + Sync,
    A,
    R: Threads + Wait + Clock + Sync,
    C: Threads + Wait + Clock + Dial + Announces + Sync,
>(
    rt: &C,
    fixture: &ServerFixture<'_, D, A, R>,
    connection: &MemoryConnection,
    pass: D::Pass,
    caller: Caller,
    opening: Opening,
) -> Option<Cut>
where
    D::Pass: Send,
{
    let wakeup = WriterWakeup::new(fixture.alloc, WRITER_REST_MILLIS).ok()?;
    let shared = SharedConnection::new(rt, pass, caller);
    let (_hung_up, listening) = run_connection(
        rt,
        fixture.alloc,
        fixture.door,
        &fixture.control.matcher,
        &wakeup,
        &fixture.control.shutdown,
        &fixture.control.answers,
        &shared,
        opening,
        CallCounter::new(MemoryReader::new(fixture.rt, connection)),
        MemoryWriter::new(fixture.rt, connection),
        connection,
    );
    listening.cut()
}

/// Serves a peer until his connection ends. Answers why he was cut off, if he was.
fn serve_peer<D: Door + Sync, A: Admits<D>, R: Threads + Wait + Clock + Sync>(
    fixture: &ServerFixture<'_, D, A, R>,
    connection: &MemoryConnection,
) -> Option<Cut>
where
    D::Pass: Send,
{
    let rt = &ClockedRuntime::new(fixture.rt, &fixture.clock, &connection.clock_reads);
    let mut reader = CallCounter::new(MemoryReader::new(fixture.rt, connection));
    let (door, reception) = (fixture.door, fixture.reception);
    let gone = match receive(rt, fixture.alloc, door, reception, &mut reader) {
        Received::Admitted(pass, caller, opening) => {
            connection.admitted.raise();
            return serve_user(rt, fixture, connection, pass, caller, opening);
        }
        Received::Stranger(login) => {
            let writer = &mut CallCounter::new(MemoryWriter::new(fixture.rt, connection));
            turn_away(
                rt,
                fixture.alloc,
                door,
                &fixture.control.shutdown,
                reception,
                &login,
                writer,
            )
        }
        Received::Gone(gone) => gone,
    };
    connection.finish();
    read_to_end(fixture.rt, &mut reader);
    match gone {
        Gone::Cut(cut) => Some(cut),
        Gone::NoLine(_) | Gone::Denied | Gone::Spared | Gone::Quietly => None,
    }
}

/// Serves a peer until his connection ends, and notes the end.
fn serve<D: Door + Sync, A: Admits<D>, R: Threads + Wait + Clock + Sync>(
    opened: NewConnection<'_, D, A, R>,
)
where
    D::Pass: Send,
{
    let NewConnection {
        fixture,
        connection,
    } = opened;
    let cut = serve_peer(fixture, connection);
    connection.set_ended(fixture.rt, cut);
}

/// Runs the steps, each connection in a thread of its own, and waits until all have ended. Answers what was waited for in
/// vain.
fn run_connections<
    'x,
    T: Drop + Send,
    D: Door<Pass = T> + Sync,
    A: Admits<D> + Sync,
    R: Threads + Wait + Clock + Sync,
>(run: &'x ScenarioRun<'x, D, A, R>, driver: ScenarioDriver<T>) -> ScenarioFailure {
    thread::scope(thread::scope_env(), run.fixture.rt, |scope| {
        let mut driver = driver;
        for _ in &run.scenario.peers {
            let Some(opened) = run.next_connection(&mut driver) else {
                break;
            };
            let _ = (&*scope).spawn(move || serve(opened));
        }
        run.end(driver)
    })
}

/// Makes matching steps until the matcher's wakeup is closed. Gives the pass back.
fn make_matches<
    'x,
    T: Drop + Send,
    D: Door<Pass = T> + Sync,
    A: Sync,
    R: Threads + Wait + Clock + Sync,
>(fixture: &'x ServerFixture<'x, D, A, R>, pass: T) -> T {
    let rt = &ClockedRuntime::new(fixture.rt, &fixture.clock, &fixture.clock_reads);
    match_on(rt, fixture.door, &fixture.control, pass)
}

/// Runs the steps beside a matcher, which has this pass. Answers what was waited for in vain; `None` where no thread could
/// be made.
fn run_with_matcher<
    'x,
    T: Drop + Send,
    D: Door<Pass = T> + Sync,
    A: Admits<D> + Sync,
    R: Threads + Wait + Clock + Sync,
>(
    run: &'x ScenarioRun<'x, D, A, R>,
    driver: ScenarioDriver<T>,
    pass: T,
) -> Option<ScenarioFailure> {
    thread::scope(thread::scope_env(), run.fixture.rt, |scope| {
        let fixture = run.fixture;
        let Ok(matcher) = (&*scope).spawn(move || make_matches(fixture, pass)) else {
            return None;
        };
        let failure = run_connections(run, driver);
        fixture.control.matcher.close(fixture.rt);
        let _pass = matcher.join(fixture.rt);
        Some(failure)
    })
}

/// Runs a scenario at this door and this reception, with these passes for the matcher and for the driver.
fn run_at<
    T: Drop + Send,
    D: Door<Pass = T> + Sync,
    A: Admits<D> + Sync,
    R: Threads + Wait + Clock + Sync,
>(
    rt: &R,
    alloc: Global,
    door: &D,
    reception: &A,
    scenario: &Scenario<'_>,
    pass: T,
    driver_pass: T,
) -> Option<ScenarioFailure> {
    let fixture = ServerFixture::new(rt, alloc, door, reception).ok()?;
    run_with_matcher(
        &ScenarioRun::new(&fixture, scenario),
        ScenarioDriver::new(driver_pass),
        pass,
    )
}

/// Runs a scenario at this door, beside a matcher. Line 1 is the matcher's, line 2 the driver's, line 3 that of strangers;
/// those who log in are given the next. Answers what was waited for in vain; `None` where no thread could be made, or there
/// was no pass.
pub fn run_scenario<
    T: Drop + Send,
    D: Door<Pass = T> + Sync,
    I: Issuer<D> + Drop + Send,
    R: Threads + Wait + Clock + Sync,
>(rt: &R, alloc: Global, door: &D, issuer: I, scenario: &Scenario<'_>) -> Option<ScenarioFailure> {
    let mut issuer = issuer;
    let pass = issuer.issue(rt).ok()?;
    let driver_pass = issuer.issue(rt).ok()?;
    let reception = Reception::open(rt, door, issuer).ok()?;
    run_at(rt, alloc, door, &reception, scenario, pass, driver_pass)
}
