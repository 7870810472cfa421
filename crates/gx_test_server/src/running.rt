//! What each step of a scenario does, and what it waits for.

use crate::connection::MemoryConnection;
use crate::fixture::ScenarioRun;
use crate::scenario::Scenario;
use crate::step::{Deed, ScenarioStep};
use crate::switches::{OnceFlag, PauseSwitch};
use gx_door::Door;
use gx_serve::HangUp;
use gx_test_devices::decode_hex;
use gx_units::Moment;
use std::sync::Wait;
use std::sync::atomic::Ordering;
use std::thread;
use std::time::{Clock, Duration};

/// How many microseconds lie between two checks of what is waited for.
const POLL_INTERVAL_MICROS: u64 = 100;

/// How often it is checked at most.
const MOST_POLLS: u64 = 40_000;

/// Once the threads of a connection have read the clock so many times more, what they began before that is done.
const SETTLED_AFTER: u64 = 2;

/// What is waited for.
#[derive(Clone, Copy)]
enum WaitCondition<'x> {
    /// The server has read all that a peer sent and waits for more, or a request waits at the door.
    Read(&'x MemoryConnection),
    /// The threads of a connection have read the clock so often, or only wait for their peer.
    ClockRead(&'x MemoryConnection, u64),
    /// A peer was sent so many packets.
    Received(&'x MemoryConnection, u64),
    /// The server writes no more.
    Finished(&'x MemoryConnection),
    /// The server has hung up, or all threads of a connection have ended.
    Raised(&'x OnceFlag),
    /// There are so many records.
    Records(u64),
}

/// Whether the threads of a connection have read the clock so often, or only wait for their peer.
fn has_read_clock(connection: &MemoryConnection, least: u64) -> bool {
    connection.clock_reads.moments.load(Ordering::SeqCst) >= least || connection.waits_for_peer()
}

/// Makes threads wait at this switch from now on, or no longer. Always `true`: there is nothing to wait for.
fn set_pause(pause: &PauseSwitch, paused: bool) -> bool {
    pause.set(paused);
    true
}

impl<'x, D: Door, A, R: Wait + Clock> ScenarioRun<'x, D, A, R> {
    /// Opens the connection of the peer of this name.
    pub(crate) fn begin(&self, name: &str) -> Option<&'x MemoryConnection> {
        let scenario: &'x Scenario<'x> = self.scenario;
        let peer = scenario.peer(name)?;
        peer.connection.begun.raise();
        Some(&peer.connection)
    }

    /// Whether what is waited for has come.
    fn has_come(&self, pass: &mut D::Pass, condition: &WaitCondition<'_>) -> bool {
        match condition {
            WaitCondition::Read(connection) => connection.is_read(self.fixture.rt),
            WaitCondition::ClockRead(connection, least) => has_read_clock(connection, *least),
            WaitCondition::Received(connection, least) => connection.packets() >= *least,
            WaitCondition::Finished(connection) => connection.is_finished(),
            WaitCondition::Raised(flag) => flag.is_raised(),
            WaitCondition::Records(least) => self.fixture.door.length(pass) >= *least,
        }
    }

    /// Waits for it, for so long at most. Answers whether it has come.
    fn wait(&self, pass: &mut D::Pass, condition: WaitCondition<'_>) -> bool {
        for _ in 0..MOST_POLLS {
            if self.has_come(pass, &condition) {
                return true;
            }
            thread::sleep(self.fixture.rt, Duration::from_micros(POLL_INTERVAL_MICROS));
        }
        false
    }

    /// Waits until the server has read all that each peer sent and waits for more.
    pub(crate) fn all_read(&self, pass: &mut D::Pass) -> bool {
        for peer in &self.scenario.peers {
            if peer.connection.is_open()
                && !self.wait(pass, WaitCondition::Read(&peer.connection))
            {
                return false;
            }
        }
        true
    }

    /// Waits until the threads of a connection have done what they do at this moment.
    fn settle(&self, pass: &mut D::Pass, connection: &MemoryConnection) -> bool {
        let moments = connection.clock_reads.moments.load(Ordering::SeqCst);
        let least = moments.saturating_add(SETTLED_AFTER);
        self.wait(pass, WaitCondition::ClockRead(connection, least))
    }

    /// Sets the clock, and waits until each connection has done what it does at this moment.
    fn set_clock(&self, pass: &mut D::Pass, moment: Moment) -> bool {
        self.fixture.clock.set(moment);
        for peer in &self.scenario.peers {
            if peer.connection.begun.is_raised() && !self.settle(pass, &peer.connection) {
                return false;
            }
        }
        true
    }

    /// A peer sends the bytes of the hex, and nothing more if they are the last.
    fn send(&self, connection: &MemoryConnection, hex: &str, last: bool) -> bool {
        let Ok(bytes) = decode_hex(self.fixture.alloc, hex) else {
            return false;
        };
        connection
            .send(self.fixture.rt, bytes.as_slice(), last)
            .is_ok()
    }

    /// Waits until a peer was sent so many packets, and the server has done what follows.
    fn await_packets(&self, pass: &mut D::Pass, connection: &MemoryConnection, count: u64) -> bool {
        self.wait(pass, WaitCondition::Received(connection, count)) && self.settle(pass, connection)
    }

    /// Runs a step on a peer's connection.
    fn run_on_connection(
        &self,
        pass: &mut D::Pass,
        step: &ScenarioStep<'_>,
        connection: &MemoryConnection,
    ) -> bool {
        match step.deed {
            Deed::Gives => self.send(connection, step.words, false)
                && self.wait(pass, WaitCondition::Read(connection)),
            Deed::Sends => self.send(connection, step.words, false),
            Deed::TakesNothing => set_pause(&connection.write_pause, true),
            Deed::TakesAll => set_pause(&connection.write_pause, false),
            Deed::AsksNothing => set_pause(&connection.clock_reads.pause, true),
            Deed::AsksAll => set_pause(&connection.clock_reads.pause, false),
            Deed::Ends => self.send(connection, step.words, true),
            Deed::Hears => self.await_packets(pass, connection, step.number()),
            Deed::IsFinished => self.wait(pass, WaitCondition::Finished(connection)),
            Deed::IsCut => self.wait(pass, WaitCondition::Raised(&connection.hung_up)),
            _ => false,
        }
    }

    /// Runs a step. Answers whether what it waits for came.
    fn run_step(&self, pass: &mut D::Pass, step: &ScenarioStep<'_>) -> bool {
        match step.deed {
            Deed::Clock => self.set_clock(pass, step.number()),
            Deed::Records => self.wait(pass, WaitCondition::Records(step.number())),
            Deed::Stop => {
                self.fixture.control.shutdown.request();
                true
            }
            _ => match self.scenario.peer(step.name) {
                Some(peer) => self.run_on_connection(pass, step, &peer.connection),
                None => false,
            },
        }
    }

    /// Runs the step of a line that opens no connection. Answers whether what it waits for came.
    pub(crate) fn run_line(&self, pass: &mut D::Pass, line: &str) -> bool {
        match ScenarioStep::read(line) {
            Some(step) => self.run_step(pass, &step),
            None => false,
        }
    }

    /// Ends the input of each peer in turn, and waits until the threads of that connection have ended. Answers the place
    /// of the first peer whose threads did not.
    pub(crate) fn end_all(&self, pass: &mut D::Pass) -> Option<usize> {
        for (place, peer) in self.scenario.peers.iter().enumerate() {
            peer.connection.end(self.fixture.rt);
            if peer.connection.begun.is_raised()
                && !self.wait(pass, WaitCondition::Raised(&peer.connection.ended))
            {
                return Some(place);
            }
        }
        None
    }

    /// Lets all threads end, whatever they wait for.
    pub(crate) fn stop_all(&self) {
        self.fixture.control.shutdown.request();
        self.fixture.clock.release();
        for peer in &self.scenario.peers {
            peer.connection.end(self.fixture.rt);
            peer.connection.hang_up();
        }
    }
}
