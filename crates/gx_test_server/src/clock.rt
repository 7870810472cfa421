//! The clock of a scenario.

ghost use Rattle.std.specs.Prelude.{◌<◌};

use crate::switches::{OnceFlag, PauseSwitch};
use gx_door::Dial;
use gx_serve::{Announces, EndedOrders};
use gx_units::Moment;
use std::io;
use std::sync::Wait;
use std::sync::atomic::{AtomicU64, Ordering};
use std::thread::Threads;
use std::time::{Clock, Duration};

/// The last moment of a day.
const LAST_MOMENT: u64 = 86_399_999_999_999;

/// A released clock is ahead by so many seconds, more than a day: every wait that was measured before has ended.
const RELEASED_SECONDS: u64 = 100_000;

/// A clock that shows the moment that the scenario set last, until it is released.
#[derive(Drop)]
pub struct ScenarioClock {
    moment: AtomicU64,
    released: OnceFlag,
}

impl ScenarioClock {
    /// A clock at the beginning of a day.
    pub fn new() -> ScenarioClock {
        ScenarioClock {
            moment: AtomicU64::new(0),
            released: OnceFlag::new(),
        }
    }

    /// Sets the moment that it shows.
    pub(crate) fn set(&self, moment: Moment) {
        self.moment.store(moment, Ordering::SeqCst);
    }

    /// From now on waits are measured by the machine's clock.
    pub(crate) fn release(&self) {
        self.released.raise();
    }

    /// The moment that it shows.
    fn moment(&self) -> Moment
        ensures { result < 86400000000000 }
    {
        self.moment.load(Ordering::SeqCst).min(LAST_MOMENT)
    }

    /// The time that waits are measured by.
    fn monotonic<R: Clock>(&self, rt: &R) -> io::Result<Duration> {
        if self.released.is_raised() {
            let gone = rt.monotonic()?;
            Ok(gone.saturating_add(Duration::from_secs(RELEASED_SECONDS)))
        } else {
            Ok(Duration::from_nanos(self.moment()))
        }
    }
}

/// How often a clock was read: for the moment, and to measure a wait. Whoever reads the moment can be made to wait.
#[derive(Drop)]
pub struct ClockReads {
    pub(crate) moments: AtomicU64,
    pub(crate) waits: AtomicU64,
    pub(crate) pause: PauseSwitch,
}

impl ClockReads {
    /// Not read yet, and nobody waits.
    pub fn new() -> ClockReads {
        ClockReads {
            moments: AtomicU64::new(0),
            waits: AtomicU64::new(0),
            pause: PauseSwitch::new(),
        }
    }
}

/// A runtime with the clock of a scenario. It counts the readings of the clock.
pub struct ClockedRuntime<'x, R> {
    rt: &'x R,
    clock: &'x ScenarioClock,
    clock_reads: &'x ClockReads,
}

impl<'x, R> ClockedRuntime<'x, R> {
    /// The runtime on this clock.
    pub fn new(
        rt: &'x R,
        clock: &'x ScenarioClock,
        clock_reads: &'x ClockReads,
    ) -> ClockedRuntime<'x, R> {
        ClockedRuntime {
            rt,
            clock,
            clock_reads,
        }
    }
}

impl<R> Drop for ClockedRuntime<'_, R> {
    fn drop(self) {
        let ClockedRuntime {
            rt: _,
            clock: _,
            clock_reads: _,
        } = self;
    }
}

impl<R: Wait> Wait for ClockedRuntime<'_, R> {}

impl<R: Threads> Threads for ClockedRuntime<'_, R> {}

impl<R: Clock> Clock for ClockedRuntime<'_, R> {
    fn monotonic(&self) -> io::Result<Duration> {
        let gone = self.clock.monotonic(self.rt);
        self.clock_reads.waits.fetch_add(1, Ordering::SeqCst);
        gone
    }

    fn since_1970(&self) -> io::Result<Duration> {
        Ok(Duration::from_nanos(self.clock.moment()))
    }

    fn sleep(&self, duration: Duration) {
        self.rt.sleep(duration)
    }
}

impl<R: Wait + Clock> Dial for ClockedRuntime<'_, R> {
    ghost shown = { λ moment. moment < 86400000000000 };

    fn moment(&self) -> Moment {
        self.clock_reads.pause.pass(self.rt);
        self.clock_reads.moments.fetch_add(1, Ordering::SeqCst);
        self.clock.moment()
    }
}

/// Ended orders are not announced: a scenario has no log.
impl<R> Announces for ClockedRuntime<'_, R> {
    fn announce(&self, _orders: &EndedOrders) {}
}
