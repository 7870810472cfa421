//! What the threads of a scenario share.

use crate::clock::{ClockReads, ScenarioClock};
use crate::scenario::Scenario;
use gx_clock::{DayClock, UtcOffset};
use gx_control::ServerControl;
use gx_log::Log;
use gx_units::OutOfMemory;
use std::alloc::Global;
use std::sync::Arc;

/// Room for more connections than a scenario has.
const PLACES: u16 = 100;

/// How many seconds a peer has to log in; no scenario hangs up on one who is late.
const LOGIN_WITHIN_SECONDS: u64 = 10;

/// What the threads of a scenario share: the door, the reception, the clock and the server's control.
#[derive(Drop)]
pub(crate) struct ServerFixture<'x, D, A, R> {
    pub(crate) rt: &'x R,
    pub(crate) alloc: Global,
    pub(crate) door: &'x D,
    pub(crate) reception: &'x A,
    pub(crate) clock: ScenarioClock,
    /// How often the matcher has read the clock.
    pub(crate) clock_reads: ClockReads,
    pub(crate) control: ServerControl,
}

impl<'x, D, A, R> ServerFixture<'x, D, A, R> {
    /// A server at this door, before the scenario begins.
    pub(crate) fn new(
        rt: &'x R,
        alloc: Global,
        door: &'x D,
        reception: &'x A,
    ) -> Result<ServerFixture<'x, D, A, R>, OutOfMemory> {
        let log = Arc::new(alloc, Log::new(None))?;
        Ok(ServerFixture {
            rt,
            alloc,
            door,
            reception,
            clock: ScenarioClock::new(),
            clock_reads: ClockReads::new(),
            control: ServerControl::new(
                alloc,
                DayClock::at(UtcOffset::UTC, None, None, 0),
                PLACES,
                LOGIN_WITHIN_SECONDS,
                log,
            ),
        })
    }
}

/// A scenario that runs, and what its threads share.
pub(crate) struct ScenarioRun<'x, D, A, R> {
    pub(crate) fixture: &'x ServerFixture<'x, D, A, R>,
    pub(crate) scenario: &'x Scenario<'x>,
}

impl<'x, D, A, R> ScenarioRun<'x, D, A, R> {
    /// A run that has not begun.
    pub(crate) fn new(
        fixture: &'x ServerFixture<'x, D, A, R>,
        scenario: &'x Scenario<'x>,
    ) -> ScenarioRun<'x, D, A, R> {
        ScenarioRun { fixture, scenario }
    }
}

impl<D, A, R> Drop for ScenarioRun<'_, D, A, R> {
    fn drop(self) {
        let ScenarioRun {
            fixture: _,
            scenario: _,
        } = self;
    }
}
