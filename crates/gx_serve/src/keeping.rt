//! What is done is kept, whether anybody is told of it or not.

use crate::writing::is_all_kept;
use gx_control::ServerControl;
use gx_door::Door;
use std::sync::Wait;
use std::thread;
use std::time::{Clock, Duration};

/// So many milliseconds lie between two times that what was done is kept.
const PAUSE_MILLIS: u64 = 5;

/// Keeps what was done, whenever it is woken for that, until its wakeup is closed, so that whoever is told something waits for no more than
/// what was done just before. Where it can't be kept, the server is asked to end. Answers whether all was kept.
pub fn keep_on<D: Door, R: Wait + Clock>(rt: &R, door: &D, control: &ServerControl) -> bool {
    for _ in rt.forever() {
        let woken = control.keeper.wait(rt, false);
        if !is_all_kept(rt, door, &control.shutdown) {
            return false;
        }
        if woken.closed {
            return true;
        }
        thread::sleep(rt, Duration::from_millis(PAUSE_MILLIS));
    }
    unreachable!()
}
