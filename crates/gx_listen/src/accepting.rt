//! Connections are taken, and each has a slot.

ghost use Rattle.std.specs.Prelude.{IfErr};
ghost use Rattle.gx_listen.specs.Endings.{IsHalted};

use crate::ending::Halt;
use crate::fault::ServeFault;
use gx_control::{ConnectionSlot, Mishap, Peer, ServerControl};
use std::io::ErrorKind;
use std::net::TcpListener;
use std::sync::Wait;
use std::time::{Clock, Duration};
use std::{io, thread};

/// So often an accept may fail in a row before the server gives up.
const MOST_FAILURES: u32 = 50;

/// So many milliseconds lie between a failed accept and the next.
const AFTER_FAILURE_MILLIS: u64 = 100;

/// After so many milliseconds the server looks for a new peer, and whether it is to end.
const ACCEPT_POLL_MILLIS: u64 = 5;

/// After so many looks in a row that found nobody, a second, it looks less often,
const QUIET_LOOKS: u32 = 200;

/// each so many milliseconds.
const QUIET_POLL_MILLIS: u64 = 50;

/// What the system answers where descriptors or memory are wanting: ENOMEM, ENFILE, EMFILE, ENOBUFS.
const WANTING_ERRNOS: [i32; 4] = [12, 23, 24, 105];

/// Whether an accept failed for want of descriptors or memory: it is tried again for as long as it takes.
fn is_want(error: &io::Error) -> bool {
    match error.raw_os_error() {
        Some(code) => WANTING_ERRNOS.contains(&code),
        None => false,
    }
}

/// Hangs up on those who came first and have not logged in, and waits until one is gone, or a while has passed. Answers on
/// how many.
fn make_room<R: Wait + Clock>(rt: &R, control: &ServerControl) -> u64 {
    let count = control.newcomers.cut_oldest(rt);
    control
        .slots
        .await_one(rt, Duration::from_millis(ACCEPT_POLL_MILLIS));
    count
}

/// Waits behind an accept that failed, and so many looks in a row before: for a want that ends once somebody is hung up on,
/// for the next connection, or longer for what is wrong. Answers whether the failure counts.
fn wait_behind<R: Wait + Clock>(
    rt: &R,
    control: &ServerControl,
    error: &io::Error,
    looks: u32,
) -> bool {
    if is_want(error) {
        control.tally.note(Mishap::Wanting, 1);
        make_room(rt, control);
        return false;
    }
    if error.kind() == ErrorKind::WouldBlock {
        let pause = if looks < QUIET_LOOKS {
            ACCEPT_POLL_MILLIS
        } else {
            QUIET_POLL_MILLIS
        };
        thread::sleep(rt, Duration::from_millis(pause));
        return false;
    }
    thread::sleep(rt, Duration::from_millis(AFTER_FAILURE_MILLIS));
    true
}

/// Takes the connection of this number, or tells why none is taken any more. One that fails before it is taken is
/// passed over. Where descriptors are wanting, those who came first and have not logged in are hung up on.
pub(crate) fn accept<R: Wait + Clock>(
    rt: &R,
    control: &ServerControl,
    listener: &TcpListener,
    number: u64,
) -> Result<Peer, Halt>
    ensures { IfErr result IsHalted }
{
    let mut left = MOST_FAILURES;
    let mut looks = 0u32;
    for _ in rt.forever() {
        let asked = control.shutdown.is_requested();
        if asked.is_yes() {
            return Err(Halt::Asked(asked));
        }
        match listener.accept() {
            Ok((stream, address)) => {
                return Ok(Peer {
                    number,
                    address,
                    stream,
                });
            }
            Err(error) => {
                if wait_behind(rt, control, &error, looks) {
                    left = left.saturating_sub(1);
                }
                looks = looks.saturating_add(1);
                if left == 0 {
                    return Err(Halt::Fault(ServeFault::ListenFailed(error)));
                }
            }
        }
    }
    unreachable!()
}

/// Takes a slot. Where none is free, those who came first and have not logged in are hung up on, until one is.
pub(crate) fn acquire_slot<'x, R: Wait + Clock>(
    rt: &'x R,
    control: &'x ServerControl,
) -> Result<ConnectionSlot<'x, R>, Halt>
    ensures { IfErr result IsHalted }
{
    for _ in rt.forever() {
        let asked = control.shutdown.is_requested();
        if asked.is_yes() {
            return Err(Halt::Asked(asked));
        }
        if let Some(slot) = control.slots.acquire(rt) {
            return Ok(slot);
        }
        control.tally.note(Mishap::Crowded, make_room(rt, control));
    }
    unreachable!()
}
