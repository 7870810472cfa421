//! What no clause says: that a clock begins by the wall clock and goes on by the monotonic one, and what it shows where
//! these can't be read.

use gx_clock::{DayClock, UtcOffset};
use gx_units::Moment;
use std::io;
use std::time::{Clock, Duration};

const SECOND: Moment = 1_000_000_000;

/// What a machine's clocks read, in seconds: since 1970, and since the machine was started. `None` where one can't be read.
#[derive(Clone, Copy)]
struct Reading(Option<u64>, Option<u64>);

fn read(seconds: Option<u64>) -> io::Result<Duration> {
    match seconds {
        Some(seconds) => Ok(Duration::from_secs(seconds)),
        None => Err(io::ErrorKind::Other.into()),
    }
}

impl Clock for Reading {
    fn monotonic(&self) -> io::Result<Duration> {
        read(self.1)
    }

    fn since_1970(&self) -> io::Result<Duration> {
        read(self.0)
    }
}

/// The seconds that a clock shows, which begins in this zone at the first reading, behind a record of the moment `last`.
fn shown(zone: &str, last: Moment, readings: &[Reading; 4]) -> Option<[Moment; 4]> {
    let zone = UtcOffset::parse(zone)?;
    let clock = DayClock::begin(&readings[0], zone, last);
    Some([
        clock.now(&readings[0]) / SECOND,
        clock.now(&readings[1]) / SECOND,
        clock.now(&readings[2]) / SECOND,
        clock.now(&readings[3]) / SECOND,
    ])
}

#[test]
fn moments_go_on(rt: HostRuntime) {
    // from 23:59:57 on the 26th of November 2026, and an hour is put back behind midnight
    let readings = [
        Reading(Some(1_795_737_597), Some(100)),
        Reading(Some(1_795_737_601), Some(104)),
        Reading(Some(1_795_734_001), None),
        Reading(Some(1_795_734_002), Some(105)),
    ];
    assert_eq!(rt;
        shown("+00:00", 0, &readings),
        Some([86_397, 86_401, 86_401, 86_402])
    );
    assert_eq!(rt;
        shown("-05:00", 0, &readings),
        Some([68_397, 68_401, 68_401, 68_402])
    );
    assert_eq!(rt;
        shown("+05:30", 0, &readings),
        Some([19_797, 19_801, 19_801, 19_802])
    );
    assert_eq!(rt;
        shown("+00:00", 90_000_000_000_000, &readings),
        Some([90_000, 90_004, 90_004, 90_005])
    );
}

#[test]
fn clocks_cannot_be_read(rt: HostRuntime) {
    let readings = [
        Reading(None, None),
        Reading(None, Some(100)),
        Reading(Some(1_795_737_597), None),
        Reading(Some(1_795_737_597), Some(200)),
    ];
    assert_eq!(rt; shown("+00:00", 0, &readings), Some([0, 0, 0, 0]));
    assert_eq!(rt;
        shown("+00:00", 90_000_000_000_000, &readings),
        Some([90_000, 90_000, 90_000, 90_000])
    );
}
