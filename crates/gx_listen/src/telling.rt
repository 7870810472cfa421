//! The log of the day's records, as they are made.

use gx_control::ServerControl;
use gx_door::Door;
use gx_log::piece_size;
use gx_logging::RecordLog;
use std::alloc::Global;
use std::marker::Model;
use std::sync::Wait;
use std::thread;
use std::time::{Clock, Duration};

/// So many milliseconds lie between two looks for records.
const RECORDS_POLL_MILLIS: u64 = 20;

/// So many milliseconds a text waits for room before it is seen whether the server has ended.
const LOG_WAIT_MILLIS: u64 = 500;

/// The log of the records of a door, and how many of them an earlier run has told.
#[derive(Drop)]
pub(crate) struct Telling<D: Door> {
    pub(crate) log: RecordLog<D>,
    pub(crate) earlier: u64,
}

// Clauses see nothing of it, which keeps the proofs of threads small.
impl<D: Door> Model for Telling<D> {
    ghost use Rattle.std.specs.Prelude.{⊤};

    ghost Value = { ⊤ };

    ghost view = { λ _. tt };
}

/// Tells a text, once there is room for each of its lines. Answers whether all is told: where nobody reads them when the
/// server has ended, the others are let go.
fn put<R: Wait + Clock>(rt: &R, control: &ServerControl, text: &[u8]) -> bool {
    let patience = Duration::from_millis(LOG_WAIT_MILLIS);
    let mut rest = text;
    for _ in rt.forever() {
        if rest.is_empty() {
            return true;
        }
        let (piece, behind) = rest.split_at(piece_size(rest));
        if control.log.put(rt, piece, patience) {
            rest = behind;
        } else if control.newcomers.is_closed() {
            return false;
        }
    }
    unreachable!()
}

/// Passes over the records that a journal had, of which an earlier run has told.
fn skip<D: Door, R: Wait + Clock>(
    rt: &R,
    door: &D,
    control: &ServerControl,
    log: &mut RecordLog<D>,
    earlier: u64,
) {
    for _ in rt.forever() {
        match log.skip_next(rt, door, earlier) {
            Ok(true) => {}
            Ok(false) => return,
            Err(_) if control.newcomers.is_closed() => return,
            Err(_) => thread::sleep(rt, Duration::from_millis(RECORDS_POLL_MILLIS)),
        }
    }
}

/// Tells the lines of the records that are there. Answers whether it was not given up.
fn tell_new<D: Door, R: Wait + Clock>(
    rt: &R,
    alloc: Global,
    door: &D,
    control: &ServerControl,
    log: &mut RecordLog<D>,
) -> bool {
    for _ in rt.forever() {
        match log.next_lines(rt, alloc, door) {
            Ok(Some(text)) => {
                if !put(rt, control, text.as_slice()) {
                    return false;
                }
            }
            Ok(None) | Err(_) => return true,
        }
    }
    unreachable!()
}

/// Tells what is left behind the lines of all records.
fn tell_close<D: Door, R: Wait + Clock>(
    rt: &R,
    alloc: Global,
    control: &ServerControl,
    log: &RecordLog<D>,
) {
    match log.close(alloc) {
        Ok(text) => {
            put(rt, control, text.as_slice());
        }
        Err(_) => control.log.leave_out(rt),
    }
}

/// Tells the lines of the day's records as they are made, but for those of earlier runs, until all have been made, and what
/// is left then. Where memory is refused it tries again.
pub(crate) fn tell_records<D: Door, R: Wait + Clock>(
    rt: &R,
    alloc: Global,
    door: &D,
    control: &ServerControl,
    telling: Telling<D>,
) {
    let Telling { mut log, earlier } = telling;
    skip(rt, door, control, &mut log, earlier);
    for _ in rt.forever() {
        let is_last = control.newcomers.is_closed();
        if !tell_new(rt, alloc, door, control, &mut log) {
            return;
        }
        if is_last {
            tell_close(rt, alloc, control, &log);
            return;
        }
        thread::sleep(rt, Duration::from_millis(RECORDS_POLL_MILLIS));
    }
}
