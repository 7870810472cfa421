//! The runtime of a server's connections: the clock that it hands its steps in by, and the log that it announces in.

ghost use Rattle.std.specs.Prelude.{◌≤◌};
ghost use Rattle.gx_clock.specs.Moments.{last_shown};

use crate::announcing::tell_ended;
use gx_clock::DayClock;
use gx_control::ServerControl;
use gx_door::Dial;
use gx_log::Log;
use gx_serve::{Announces, EndedOrders};
use gx_units::Moment;
use std::alloc::Global;
use std::io;
use std::sync::{Arc, Wait};
use std::thread::Threads;
use std::time::{Clock, Duration};

/// A runtime by whose clock a day goes on, and in whose log it is told what commands ended.
pub(crate) struct Dated<'x, R> {
    rt: &'x R,
    alloc: Global,
    clock: &'x DayClock,
    log: &'x Arc<Log, Global>,
}

impl<'x, R> Dated<'x, R> {
    /// The runtime, by the clock of this server's day, and with its log.
    pub(crate) fn new(rt: &'x R, alloc: Global, control: &'x ServerControl) -> Dated<'x, R> {
        Dated {
            rt,
            alloc,
            clock: &control.clock,
            log: &control.log,
        }
    }
}

impl<R> Drop for Dated<'_, R> {
    fn drop(self) {
        let Dated {
            rt: _,
            alloc: _,
            clock: _,
            log: _,
        } = self;
    }
}

impl<R: Wait> Wait for Dated<'_, R> {}

impl<R: Threads> Threads for Dated<'_, R> {}

impl<R: Clock> Clock for Dated<'_, R> {
    fn monotonic(&self) -> io::Result<Duration> {
        self.rt.monotonic()
    }

    fn since_1970(&self) -> io::Result<Duration> {
        self.rt.since_1970()
    }

    fn sleep(&self, duration: Duration) {
        self.rt.sleep(duration)
    }
}

impl<R: Clock> Dial for Dated<'_, R> {
    ghost shown = { λ moment. moment ≤ last_shown };

    fn moment(&self) -> Moment
        ensures shown { result ≤ last_shown }
        ensures from { self.now.clock.now.start ≤ result }
    {
        self.clock.now(self.rt)
    }
}

impl<R: Wait> Announces for Dated<'_, R> {
    fn announce(&self, orders: &EndedOrders) {
        tell_ended(self.rt, self.alloc, self.log, orders);
    }
}
