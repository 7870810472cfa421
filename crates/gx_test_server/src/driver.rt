//! The driver of a scenario: it runs the steps, one after the other.

use crate::connection::MemoryConnection;
use crate::fixture::{ScenarioRun, ServerFixture};
use gx_door::Door;
use std::sync::Wait;
use std::time::Clock;

/// What a scenario waited for in vain.
#[derive(Clone, Copy)]
pub enum ScenarioFailure {
    /// Nothing.
    Nothing,
    /// What the step in this place waits for.
    Step(usize),
    /// The end of the connection of the peer in this place.
    EndOf(usize),
}

/// The state of a run: its own pass, and how far the steps have come.
#[derive(Drop)]
pub(crate) struct ScenarioDriver<T: Drop> {
    pass: T,
    /// The place of the next step.
    next: usize,
    /// Whether the last step opened a connection.
    opened: bool,
    failure: ScenarioFailure,
}

impl<T: Drop> ScenarioDriver<T> {
    /// Before the first step.
    pub(crate) fn new(pass: T) -> ScenarioDriver<T> {
        ScenarioDriver {
            pass,
            next: 0,
            opened: false,
            failure: ScenarioFailure::Nothing,
        }
    }

    /// The place of the next step; `None` once something was waited for in vain.
    fn next_place(&mut self) -> Option<usize> {
        let ScenarioFailure::Nothing = self.failure else {
            return None;
        };
        let place = self.next;
        self.next = place.saturating_add(1);
        Some(place)
    }
}

/// A connection that was just opened, and what the threads share.
#[derive(Drop)]
pub(crate) struct NewConnection<'x, D, A, R> {
    pub(crate) fixture: &'x ServerFixture<'x, D, A, R>,
    pub(crate) connection: &'x MemoryConnection,
}

impl<'x, T: Drop, D: Door<Pass = T>, A, R: Wait + Clock> ScenarioRun<'x, D, A, R> {
    /// Opens the connection of the peer of this name; `None` where there is no such peer.
    fn connect(&self, name: &str) -> Option<NewConnection<'x, D, A, R>> {
        let fixture = self.fixture;
        let connection = self.begin(name)?;
        Some(NewConnection {
            fixture,
            connection,
        })
    }

    /// Waits until the server reads from each connection, if one was opened just now.
    fn await_opened(&self, driver: &mut ScenarioDriver<T>) -> bool {
        let opened = driver.opened;
        driver.opened = false;
        !opened || self.all_read(&mut driver.pass)
    }

    /// Runs the steps up to the next one that opens a connection, or to the end.
    pub(crate) fn next_connection(
        &self,
        driver: &mut ScenarioDriver<T>,
    ) -> Option<NewConnection<'x, D, A, R>> {
        for _ in 0..u64::MAX {
            let place = driver.next_place()?;
            let line = *self.scenario.lines.get(place)?;
            if !self.await_opened(driver) {
                driver.failure = ScenarioFailure::Step(place);
            } else if let Some(name) = line.strip_prefix("open ") {
                driver.opened = true;
                return self.connect(name);
            } else if !self.run_line(&mut driver.pass, line) {
                driver.failure = ScenarioFailure::Step(place);
            }
        }
        None
    }

    /// Ends all connections, and lets all threads end where something was waited for in vain.
    fn end_each(&self, driver: &mut ScenarioDriver<T>) {
        if let ScenarioFailure::Nothing = driver.failure
            && let Some(place) = self.end_all(&mut driver.pass)
        {
            driver.failure = ScenarioFailure::EndOf(place);
        }
        match driver.failure {
            ScenarioFailure::Nothing => {}
            ScenarioFailure::Step(_) | ScenarioFailure::EndOf(_) => self.stop_all(),
        }
    }

    /// Runs the last steps, and ends all connections. Answers what was waited for in vain.
    pub(crate) fn end(&self, driver: ScenarioDriver<T>) -> ScenarioFailure {
        let mut driver = driver;
        let _none = self.next_connection(&mut driver);
        self.end_each(&mut driver);
        driver.failure
    }
}
