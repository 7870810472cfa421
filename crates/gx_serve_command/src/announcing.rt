//! That a server listens, told on standard output once it takes connections.

use gx_control::ServerControl;
use gx_program::{Failure, Resource};
use gx_units::OutOfMemory;
use std::alloc::Global;
use std::sync::{Arc, Wait};
use std::thread::{JoinHandle, Threads};
use std::{io, thread};

/// Who tells that a server listens, in a thread of his own.
#[derive(Drop)]
pub(crate) struct Announcer {
    control: Arc<ServerControl, Global>,
    telling: JoinHandle<Option<io::Error>>,
}

/// Tells that the server listens, once it takes connections; nothing where it never does. Where that can't be told the
/// server ends. Answers what the system said then.
fn announce<R: Wait>(
    rt: &R,
    host: &HostRuntime,
    control: &ServerControl,
    port: u16,
) -> Option<io::Error> {
    if !control.begun.is_so(rt) {
        return None;
    }
    match println!(host; "listening {port}") {
        Ok(()) => None,
        Err(error) => {
            control.end();
            Some(error)
        }
    }
}

impl Announcer {
    /// Has it told that the server listens on the port.
    pub(crate) fn begin<R: Threads + Wait + Copy + Send + 'static>(
        rt: R,
        host: HostRuntime,
        control: &Arc<ServerControl, Global>,
        port: u16,
    ) -> Result<Announcer, OutOfMemory> {
        let theirs = Arc::try_clone(control)?;
        let control = Arc::try_clone(control)?;
        match thread::spawn(&rt, move || announce(&rt, &host, &theirs, port)) {
            Ok(telling) => Ok(Announcer { control, telling }),
            Err(_) => Err(OutOfMemory),
        }
    }

    /// The server has ended: whether it was told that it listened, where it did.
    pub(crate) fn end<'a, R: Threads + Wait>(self, rt: &R) -> Result<(), Failure<'a>> {
        let Announcer { control, telling } = self;
        control.begun.end(rt);
        match telling.join(rt) {
            Some(error) => Err(Failure::unwritten(Resource::Output, error)),
            None => Ok(()),
        }
    }
}
