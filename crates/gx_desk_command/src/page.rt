//! What the server's page tells, asked over a connection of its own.

use gx_page_reader::{PageFault, PageState, body_of, write_state_request};
use gx_soup::LoginRequest;
use gx_terminal::KnownLimit;
use gx_units::{AccountName, OutOfMemory};
use std::alloc::Global;
use std::io::{ErrorKind, Read, Write};
use std::net::{Net, TcpStream, ToSocketAddrs};
use std::time::{Clock, Duration, Instant};
use std::{fmt, io};

/// An answer has so many bytes at the most.
const MOST_BYTES: usize = 64 * 1024 * 1024;

/// So many seconds behind the question all of it has to be there.
const ANSWER_SECONDS: u64 = 5;

/// A read waits so many milliseconds at most.
const READ_MILLIS: u64 = 250;

/// Why the page tells nothing.
#[derive(Drop)]
pub(crate) enum PageError {
    /// What it answers tells nothing.
    Fault(PageFault),
    /// It can't be reached.
    Unreached(io::Error),
    /// It has not answered in time.
    Late,
    /// Its answer has too many bytes.
    TooLarge,
}

impl From<OutOfMemory> for PageError {
    fn from(_refused: OutOfMemory) -> PageError {
        PageError::Fault(PageFault::OutOfMemory)
    }
}

impl From<PageFault> for PageError {
    fn from(fault: PageFault) -> PageError {
        PageError::Fault(fault)
    }
}

impl From<io::Error> for PageError {
    fn from(error: io::Error) -> PageError {
        PageError::Unreached(error)
    }
}

impl fmt::Display for PageError {
    fn fmt<W: fmt::Write>(&self, f: &mut fmt::Formatter<W>) -> fmt::Result {
        match self {
            PageError::Fault(fault) => write!(f, "{fault}"),
            PageError::Unreached(error) => write!(f, "{error}"),
            PageError::Late => write!(f, "no whole answer within {ANSWER_SECONDS} seconds"),
            PageError::TooLarge => f.write_str("its answer has more than 64 MB"),
        }
    }
}

/// A connection to the first of the addresses that takes one in time.
fn connect<R: Net<Stream = TcpStream> + Clock>(
    rt: &R,
    host: &str,
    port: u16,
    since: &Instant,
) -> Result<TcpStream, PageError> {
    let mut last = PageError::Late;
    for address in (host, port).to_socket_addrs(rt)? {
        if is_late(rt, since) {
            break;
        }
        match TcpStream::connect_timeout(rt, &address, Duration::from_secs(ANSWER_SECONDS)) {
            Ok(stream) => return Ok(stream),
            Err(error) => last = PageError::Unreached(error),
        }
    }
    Err(last)
}

/// Sends the request.
fn send(alloc: Global, stream: &mut TcpStream, login: &LoginRequest) -> Result<(), PageError> {
    stream.set_read_timeout(Some(Duration::from_millis(READ_MILLIS)))?;
    stream.set_write_timeout(Some(Duration::from_secs(ANSWER_SECONDS)))?;
    let mut request = Vec::new(alloc);
    write_state_request(alloc, &mut request, &login.user, &login.password)?;
    stream.write_all(request.as_slice())?;
    Ok(())
}

/// The next piece of the answer, put behind the others: whether more may come.
fn take_piece(stream: &mut TcpStream, bytes: &mut Vec<u8>) -> Result<bool, PageError> {
    let mut buffer = [0u8; 16_384];
    match stream.read(&mut buffer) {
        Ok(0) => return Ok(false),
        Ok(count) => bytes
            .extend_from_slice(&buffer[..count])
            .map_err(|_| OutOfMemory)?,
        Err(error) => match error.kind() {
            ErrorKind::WouldBlock | ErrorKind::TimedOut | ErrorKind::Interrupted => {}
            _ => return Err(PageError::Unreached(error)),
        },
    }
    if bytes.len() > MOST_BYTES {
        return Err(PageError::TooLarge);
    }
    Ok(true)
}

/// Whether the time for an answer has passed; so too where the clock can't be read.
fn is_late<R: Clock>(rt: &R, since: &Instant) -> bool {
    match since.elapsed(rt) {
        Ok(passed) => passed >= Duration::from_secs(ANSWER_SECONDS),
        Err(_) => true,
    }
}

/// All bytes of the answer.
fn answer_of<R: Clock>(
    rt: &R,
    alloc: Global,
    stream: &mut TcpStream,
    since: &Instant,
) -> Result<Vec<u8>, PageError> {
    let mut bytes = Vec::new(alloc);
    for _ in 0..u64::MAX {
        if !take_piece(stream, &mut bytes)? {
            break;
        }
        if is_late(rt, since) {
            return Err(PageError::Late);
        }
    }
    Ok(bytes)
}

/// The accounts and the limits that the page on this port has, asked in the name of who logs in so.
pub(crate) fn known_on_page<R: Net<Stream = TcpStream> + Clock>(
    rt: &R,
    alloc: Global,
    host: &str,
    port: u16,
    login: &LoginRequest,
) -> Result<(Vec<AccountName>, Vec<KnownLimit>), PageError> {
    let Ok(since) = Instant::now(rt) else {
        return Err(PageError::Late);
    };
    let mut stream = connect(rt, host, port, &since)?;
    send(alloc, &mut stream, login)?;
    let answer = answer_of(rt, alloc, &mut stream, &since)?;
    let state = PageState::read(alloc, body_of(answer.as_slice())?)?;
    let accounts = state.accounts(alloc)?;
    Ok((accounts, state.limits(alloc)?))
}
