//! `gate desk`: a terminal of a gate.

use crate::known::{KnownBefore, known_in_file};
use crate::page::known_on_page;
use crossbeam_channel::{Receiver, Sender, bounded};
use gx_clock::{DayClock, UtcOffset};
use gx_command_line::Desk;
use gx_conversation::{Fault, NO_ACCOUNTS, Pause, Run, Setup};
use gx_program::{Content, Failure, bytes_of, tell};
use gx_soup::LoginRequest;
use gx_terminal::{Wish, accounts_named};
use gx_text::Form;
use gx_units::{AccountName, OutOfMemory, Password, SessionName, UserName, padded};
use std::alloc::Global;
use std::env::VarError;
use std::io::{BufRead, BufReader, IsTerminal, Write};
use std::net::{Net, TcpStream};
use std::process::ExitCode;
use std::sync::Wait;
use std::thread::Threads;
use std::time::{Clock, Duration};
use std::{env, io, thread};

/// A read of the line waits so many milliseconds at most.
const READ_TIMEOUT_MILLIS: u64 = 50;

/// A write of which the gate takes nothing for so many milliseconds fails.
const WRITE_TIMEOUT_MILLIS: u64 = 5_000;

/// So many times, a second apart, the gate is called again where the line broke, since it answered anything last.
const CALLS: u32 = 60;

/// So many lines of standard input are read ahead.
const LINES_AHEAD: usize = 1_024;

/// The nanoseconds of a millisecond, and the milliseconds of a day.
const NANOS_A_MILLISECOND: u64 = 1_000_000;

const DAY_MILLIS: u64 = 86_400_000;

/// The gate's address, where none is given.
const OWN_ADDRESS: &str = "127.0.0.1";

/// The variable that has the password.
const PASSWORD_VARIABLE: &str = "GATE_PASSWORD";

/// The lines of standard input without their LF, and a None at its end.
type Lines = Receiver<Option<Vec<u8>>, Global>;

/// Why there is no run.
#[derive(Drop)]
enum DeskError<'a> {
    /// The program gave up.
    Failure(Failure<'a>),
    /// The arguments, or what they name, can't be meant; what is told of that.
    Words(&'static str),
    /// The gate can't be reached.
    Unreached(io::Error),
    /// The run ended early; its status so far.
    Fault(Fault, u8),
}

impl<'a> From<Failure<'a>> for DeskError<'a> {
    fn from(ended: Failure<'a>) -> DeskError<'a> {
        DeskError::Failure(ended)
    }
}

impl<'a> From<OutOfMemory> for DeskError<'a> {
    fn from(refused: OutOfMemory) -> DeskError<'a> {
        DeskError::Failure(refused.into())
    }
}

/// The words of the one command as a line; `None` where there are none.
fn command_of(alloc: Global, words: &[String]) -> Result<Option<Vec<u8>>, OutOfMemory> {
    if words.is_empty() {
        return Ok(None);
    }
    let mut line = Vec::new(alloc);
    for word in words {
        line.extend_from_slice(word.as_bytes())?;
        line.push(b' ')?;
    }
    Ok(Some(line))
}

/// The line that kills the accounts of a list with commas between them.
fn line_of(alloc: Global, list: &str) -> Result<Vec<u8>, OutOfMemory> {
    let mut line = Vec::from_slice(alloc, b"kill ")?;
    for byte in list.as_bytes() {
        line.push(if *byte == b',' { b' ' } else { *byte })?;
    }
    Ok(line)
}

/// The accounts of a list with commas between them.
fn accounts_listed<'a>(alloc: Global, list: &str) -> Result<Vec<AccountName>, DeskError<'a>> {
    let line = line_of(alloc, list)?;
    match Wish::read(line.as_slice()) {
        Ok(Wish::Ask(_) | Wish::KillEach) => Ok(accounts_named(alloc, line.as_slice())?),
        _ => Err(DeskError::Words(
            "--accounts wants accounts with commas between them, each 1 to 8 of the characters ! to ~",
        )),
    }
}

/// The accounts that `kill --all` kills, and the limits of rules, as far as they are known before the run.
fn known_before<'a>(host: &HostRuntime, desk: &Desk<'a>) -> Result<KnownBefore, DeskError<'a>> {
    match desk.accounts {
        Some(list) => Ok(KnownBefore {
            accounts: Some(accounts_listed(host.alloc(), list)?),
            limits: Vec::new(host.alloc()),
        }),
        None => Ok(known_in_file(host, desk.policy)?),
    }
}

/// The name of the file that alone tells these accounts, if one does.
fn file_of(alloc: Global, desk: &Desk<'_>) -> Result<Option<Vec<u8>>, OutOfMemory> {
    match desk.policy {
        Some(path) => Ok(Some(Vec::from_slice(alloc, path.as_bytes())?)),
        None => Ok(None),
    }
}

/// The first line of a text, without what ends it.
fn first_line(text: &[u8]) -> &[u8] {
    let end = text.iter().position(|byte| *byte == b'\n');
    let line = &text[..end.unwrap_or(text.len()).min(text.len())];
    match line {
        [front @ .., b'\r'] => front,
        _ => line,
    }
}

/// A password in its field.
fn password_in(text: &[u8]) -> Option<Password> {
    let bytes = padded(first_line(text))?;
    Some(Password { bytes })
}

/// What the password's file or its variable holds; `None` where neither is there.
fn kept_password<'a>(
    host: &HostRuntime,
    path: Option<&'a str>,
) -> Result<Option<Vec<u8>>, DeskError<'a>> {
    if let Some(path) = path {
        return Ok(Some(bytes_of(host, path, Content::Password)?));
    }
    match env::var(host, PASSWORD_VARIABLE) {
        Ok(text) => Ok(Some(text.into_bytes())),
        Err(VarError::NotPresent) => Ok(None),
        Err(VarError::OutOfMemory) => Err(OutOfMemory.into()),
        Err(_) => Err(DeskError::Words("GATE_PASSWORD is no text")),
    }
}

/// The next line, without its LF; `None` at the end of the input, or where it can't be read.
fn next_line<I: BufRead>(alloc: Global, input: &mut I) -> Option<Vec<u8>> {
    let mut line = Vec::new(alloc);
    match input.read_until(b'\n', &mut line) {
        Ok(count) if count > 0 => {}
        _ => return None,
    }
    if line.as_slice().last() == Some(&b'\n') {
        line.pop();
    }
    Some(line)
}

/// Sends the lines of an input to whoever obeys them.
fn send_lines<I: BufRead, R: Wait>(
    rt: &R,
    alloc: Global,
    input: &mut I,
    to: &Sender<Option<Vec<u8>>, Global>,
) {
    for _ in 0..u64::MAX {
        match next_line(alloc, input) {
            Some(line) => {
                if to.send(rt, Some(line)).is_err() {
                    return;
                }
            }
            None => break,
        }
    }
    let _ = to.send(rt, None);
}

/// Sends the lines of standard input, which is read in pieces: nobody else reads it. Where there is no memory for a piece, none
/// come.
fn send_input<R: Wait>(rt: &R, host: &HostRuntime, to: &Sender<Option<Vec<u8>>, Global>) {
    match BufReader::new(host.alloc(), host.stdin()) {
        Ok(mut input) => send_lines(rt, host.alloc(), &mut input, to),
        Err(_) => {
            let _ = to.send(rt, None);
        }
    }
}

/// Starts the thread that reads standard input.
fn start_input<R: Threads + Wait + Copy + Send + 'static>(
    rt: R,
    host: HostRuntime,
    to: Sender<Option<Vec<u8>>, Global>,
) -> Result<(), OutOfMemory> {
    match thread::spawn(&rt, move || send_input(&rt, &host, &to)) {
        Ok(_) => Ok(()),
        Err(_) => Err(OutOfMemory),
    }
}

/// The lines of standard input, which is read only where it is wanted.
fn lines_of<R: Threads + Wait + Copy + Send + 'static>(
    rt: R,
    host: HostRuntime,
    is_wanted: bool,
) -> Result<Lines, OutOfMemory> {
    let (sender, lines) = bounded(host.alloc(), LINES_AHEAD)?;
    if is_wanted {
        start_input(rt, host, sender)?;
    }
    Ok(lines)
}

/// The password: the one that is kept, or else the next line.
fn password_of<'a, R: Wait>(
    rt: &R,
    kept: Option<Vec<u8>>,
    lines: &Lines,
) -> Result<Password, DeskError<'a>> {
    let text = match kept {
        Some(text) => text,
        None => match lines.recv(rt) {
            Ok(Some(line)) => line,
            _ => return Err(DeskError::Words("no password is given; `gate desk --help` says how")),
        },
    };
    match password_in(text.as_slice()) {
        Some(password) => Ok(password),
        None => Err(DeskError::Words("a password has at most 10 characters")),
    }
}

/// The user in its field.
fn user_of<'a>(name: &str) -> Result<UserName, DeskError<'a>> {
    match padded(name.as_bytes()) {
        Some(bytes) => Ok(UserName { bytes }),
        None => Err(DeskError::Words("a user's name has at most 6 characters")),
    }
}

/// A line to the gate.
fn connect<'a, R: Net<Stream = TcpStream>>(
    rt: &R,
    desk: &Desk,
) -> Result<TcpStream, DeskError<'a>> {
    let host = desk.host.unwrap_or(OWN_ADDRESS);
    match TcpStream::connect(rt, (host, desk.port)) {
        Ok(stream) => Ok(stream),
        Err(error) => Err(DeskError::Unreached(error)),
    }
}

/// Sets a stream up: small packets go out at once, and reads and writes end in time.
fn set_up(stream: &TcpStream) -> io::Result<()> {
    stream.set_nodelay(true)?;
    stream.set_read_timeout(Some(Duration::from_millis(READ_TIMEOUT_MILLIS)))?;
    stream.set_write_timeout(Some(Duration::from_millis(WRITE_TIMEOUT_MILLIS)))
}

/// The milliseconds past midnight, by UTC.
fn start_of<R: Clock>(rt: &R) -> u32 {
    let moment = DayClock::begin(rt, UtcOffset::UTC, 0).now(rt);
    (moment / NANOS_A_MILLISECOND % DAY_MILLIS) as u32
}

/// A line to the gate, set up.
fn call<'a, R: Net<Stream = TcpStream>>(rt: &R, desk: &Desk) -> Result<TcpStream, DeskError<'a>> {
    let stream = connect(rt, desk)?;
    match set_up(&stream) {
        Ok(()) => Ok(stream),
        Err(error) => Err(DeskError::Unreached(error)),
    }
}

/// Goes on over a new line to the gate, for which it is called each second: so many calls were made since the break behind which
/// it answered anything last, and no more than `CALLS` are made.
fn call_again<R, O: Write + Drop, E: Write + Drop>(
    rt: &R,
    desk: &Desk,
    run: &mut Run<TcpStream, O, E>,
    calls: &mut u32,
) -> Result<(), Fault>
where
    R: Net<Stream = TcpStream> + Wait + Clock,
{
    if run.take_answered() {
        *calls = 0;
    }
    if *calls < CALLS {
        run.tell_broken();
    }
    for made in *calls..CALLS {
        *calls = made + 1;
        thread::sleep(rt, Duration::from_secs(1));
        if let Ok(stream) = call(rt, desk) {
            if run.take_up(rt, stream).is_ok() {
                return Ok(());
            }
        }
    }
    Err(Fault::LineBroke)
}

/// Tells the run what the server's page tells, or tells why that is nothing.
fn ask_page<R, O: Write + Drop, E: Write + Drop>(
    rt: &R,
    host: &HostRuntime,
    desk: &Desk,
    login: &LoginRequest,
    run: &mut Run<TcpStream, O, E>,
)
where
    R: Net<Stream = TcpStream> + Clock,
{
    let address = desk.host.unwrap_or(OWN_ADDRESS);
    let port = desk.status_port.unwrap_or(0);
    match known_on_page(rt, host.alloc(), address, port, login) {
        Ok((accounts, limits)) => run.take_page(accounts, limits),
        Err(error) => {
            let _ = eprintln!(host; "gate: the server's page tells nothing: {error}");
            run.miss_page();
        }
    }
}

/// Obeys the lines, over new lines to the gate where that is asked for.
fn follow<R, O: Write + Drop, E: Write + Drop>(
    rt: &R,
    host: &HostRuntime,
    desk: &Desk,
    login: &LoginRequest,
    run: &mut Run<TcpStream, O, E>,
    lines: &Lines,
) -> Result<(), Fault>
where
    R: Net<Stream = TcpStream> + Wait + Clock,
{
    run.log_in(rt)?;
    let mut calls = 0;
    for _ in rt.forever() {
        match run.follow(rt, lines) {
            Ok(Pause::Over) => break,
            Ok(Pause::WantsPage) => ask_page(rt, host, desk, login, run),
            Err(Fault::LineBroke) if desk.reconnects => call_again(rt, desk, run, &mut calls)?,
            Err(fault) => return Err(fault),
        }
    }
    Ok(())
}

/// Runs over a line to the gate: the status of what was answered.
fn talk<'a, R>(
    rt: &R,
    host: &HostRuntime,
    desk: &Desk,
    setup: Setup,
    lines: &Lines,
) -> Result<u8, DeskError<'a>>
where
    R: Net<Stream = TcpStream> + Wait + Clock,
{
    let stream = call(rt, desk)?;
    let alloc = host.alloc();
    let streams = host.stderr();
    let login = setup.login;
    let mut run = Run::new(
        rt,
        alloc,
        setup,
        stream,
        io::writer(host),
        io::writer(&streams),
    );
    let ended = follow(rt, host, desk, &login, &mut run, lines);
    match ended.and(run.tell_kills()) {
        Ok(()) => Ok(run.status()),
        Err(fault) => Err(DeskError::Fault(fault, run.status())),
    }
}

/// How answers are written.
fn form_of(desk: &Desk) -> Form {
    if desk.is_json { Form::Json } else { Form::Text }
}

/// Whether anything tells the accounts that `kill --all` kills.
fn tells_accounts(desk: &Desk) -> bool {
    desk.accounts.or(desk.policy).is_some() || desk.status_port.is_some()
}

/// Whether standard input is read behind the one command, for lines or for a yes; where the command can't be meant, what is
/// told of that.
fn goes_on<'a>(host: &HostRuntime, desk: &Desk, command: &[u8]) -> Result<bool, DeskError<'a>> {
    match Wish::read(command) {
        Ok(Wish::KillAll) if !tells_accounts(desk) => Err(DeskError::Words(NO_ACCOUNTS)),
        Ok(Wish::Limit(_, _)) => Ok(host.stdin().is_terminal()),
        Ok(wish) => Ok(wish == Wish::Watch),
        Err(wrong) => {
            let _ = eprintln!(host; "gate: {wrong}");
            Err(DeskError::Words(""))
        }
    }
}

/// Whether standard input is wanted: for the password, or for commands.
fn wants_input<'a>(
    host: &HostRuntime,
    desk: &Desk,
    command: &Option<Vec<u8>>,
    has_password: bool,
) -> Result<bool, DeskError<'a>> {
    match command {
        Some(line) => Ok(goes_on(host, desk, line.as_slice())? || !has_password),
        None => Ok(true),
    }
}

/// The login of the user, who asks for the last report.
fn login_of(user: UserName, password: Password) -> LoginRequest {
    LoginRequest {
        user,
        password,
        session: SessionName { bytes: [b' '; 10] },
        wanted: 0,
    }
}

/// Runs the terminal: the status of what was answered.
fn run_desk<'a, R>(rt: &R, host: &HostRuntime, desk: Desk<'a>) -> Result<u8, DeskError<'a>>
where
    R: Net<Stream = TcpStream> + Threads + Wait + Clock + Copy + Send + 'static,
{
    let user = user_of(desk.user)?;
    let command = command_of(host.alloc(), desk.words)?;
    let kept = kept_password(host, desk.password_file)?;
    let is_wanted = wants_input(host, &desk, &command, kept.is_some())?;
    let known = known_before(host, &desk)?;
    let file = file_of(host.alloc(), &desk)?;
    let lines = lines_of(*rt, *host, is_wanted)?;
    let password = password_of(rt, kept, &lines)?;
    let setup = Setup {
        login: login_of(user, password),
        form: form_of(&desk),
        start: start_of(rt),
        accounts: known.accounts,
        limits: known.limits,
        asks_page: desk.status_port.is_some(),
        asks_first: host.stdin().is_terminal(),
        file,
        command,
    };
    talk(rt, host, &desk, setup, &lines)
}

/// Tells what can't be meant, if anything is to be told of it: the status of a fault of the arguments.
fn tell_words(host: &HostRuntime, text: &str) -> ExitCode {
    if !text.is_empty() {
        let _ = eprintln!(host; "gate: {text}");
    }
    ExitCode::from(2)
}

/// Tells why the gate can't be reached: the status that says so.
fn tell_unreached(host: &HostRuntime, error: &io::Error) -> ExitCode {
    let _ = eprintln!(host; "gate: the gate can't be reached: {error}");
    ExitCode::from(1)
}

/// Tells why the run ended early: the status that says so, or that it had, where that is higher.
fn tell_fault(host: &HostRuntime, fault: &Fault, status: u8) -> ExitCode {
    let _ = eprintln!(host; "gate: {fault}");
    ExitCode::from(fault.status().max(status))
}

/// Tells why there is no run, or why it ended early: the status that says so.
fn tell_error(host: &HostRuntime, error: DeskError) -> ExitCode {
    match error {
        DeskError::Failure(ended) => tell(host, ended),
        DeskError::Words(text) => tell_words(host, text),
        DeskError::Unreached(error) => tell_unreached(host, &error),
        DeskError::Fault(fault, status) => tell_fault(host, &fault, status),
    }
}

/// Runs the terminal, or tells why not: the status of either.
pub fn desk_told<R>(rt: &R, host: &HostRuntime, desk: Desk<'_>) -> ExitCode
where
    R: Net<Stream = TcpStream> + Threads + Wait + Clock + Copy + Send + 'static,
{
    match run_desk(rt, host, desk) {
        Ok(status) => ExitCode::from(status),
        Err(stop) => tell_error(host, stop),
    }
}
