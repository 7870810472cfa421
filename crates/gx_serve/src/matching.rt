//! The matcher.

use gx_control::{ServerControl, Woken};
use gx_door::{Dial, Door};
use std::sync::Wait;
use std::thread;
use std::time::{Clock, Duration};

/// So many milliseconds lie at least between two times that the writers are woken for what others did.
const BETWEEN_WAKEUPS_MILLIS: u64 = 1;

/// Makes matching steps until no order waits, or one is refused.
fn settle<D: Door, R: Wait + Clock + Dial>(rt: &R, door: &D, mut pass: D::Pass) -> D::Pass {
    for _ in rt.forever() {
        let (back, found) = door.match_one(rt, pass, rt.moment());
        pass = back;
        match found {
            Ok(Some(_)) => {}
            Ok(None) | Err(_) => break,
        }
    }
    pass
}

/// Wakes the writers and who keeps what is done, where something was or the server is to end, and lets a while pass unless
/// readers wait. Answers whether a writer is to be asked after again soon, as it was before.
fn wake<R: Wait + Clock>(rt: &R, control: &ServerControl, woken: Woken, again: bool) -> bool {
    let is_new = woken.notified || control.shutdown.is_requested().is_yes();
    if is_new {
        control.keeper.notify(rt);
    }
    let soon = (is_new || again) && control.writers.notify_idle(rt, is_new);
    if woken.behind == 0 {
        thread::sleep(rt, Duration::from_millis(BETWEEN_WAKEUPS_MILLIS));
    }
    soon
}

/// Whenever it is woken, makes the matching steps that the readers have left, and wakes the writers, since others may be
/// told of what was done; tries a refused step again, until its wakeup is closed. Gives the pass back.
pub fn match_on<D: Door, R: Wait + Clock + Dial>(
    rt: &R,
    door: &D,
    control: &ServerControl,
    mut pass: D::Pass,
) -> D::Pass {
    let mut again = false;
    for _ in rt.forever() {
        let woken = control.matcher.wait(rt, again);
        pass = settle(rt, door, pass);
        control.matcher.settled(rt, woken.behind);
        if woken.closed {
            break;
        }
        again = wake(rt, control, woken, again);
    }
    pass
}
