//! What a server needs of the runtime.

use std::net::{Net, TcpListener, TcpStream};
use std::sync::Wait;
use std::thread::Threads;
use std::time::Clock;

/// A runtime with threads, waiting, sockets and clocks, which each thread may have for itself.
pub trait ServerRuntime: Net<Listener = TcpListener, Stream = TcpStream>
    + Threads
    + Wait
    + Clock
    + Copy
    + Send
    + Sync
    + 'static {}

impl<R> ServerRuntime for R
where
    R: Net<Listener = TcpListener, Stream = TcpStream>
        + Threads
        + Wait
        + Clock
        + Copy
        + Send
        + Sync
        + 'static,
{}
