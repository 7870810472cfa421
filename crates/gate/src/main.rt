//! The program `gate`: a sponsored-access gateway on the command line.
//!
//! All of it is over any gate `G`, and `main` alone names the [`Gate`](gx_core::Gate) of `gx_core`:
//!
//! - `gx_audit_commands`: the commands that read an audit or a journal;
//! - `gx_serve_command`: the command `serve`; `gx_desk_command`: the command `desk`, which asks no gate of its own;
//! - `gx_runs`: the commands `script` and `pipe`; `gx_program`: those that ask a policy file alone.
#![tactic(auto)]

use gx_audit_commands::{check, follow, report, show, state, whatif};
use gx_command_line::Invocation;
use gx_core::Gate;
use gx_desk_command::desk_told;
use gx_program::{
    Failure, NULL, StandIns, asked_of, print_for_desk, print_migrated, tell, tell_bad_word,
    tell_policy, words_of,
};
use gx_records::{ShowsRecords, ShowsState};
use gx_runs::{Input, run_files};
use gx_serve_command::{ServerRuntime, serve_told};
use std::net::{Net, TcpListener, TcpStream};
use std::process::ExitCode;
use std::sync::Wait;
use std::thread::Threads;
use std::time::Clock;

/// Does what was asked: the status of what was found.
fn run<'a, G: ShowsRecords + ShowsState + Send, R: ServerRuntime>(
    rt: &R,
    host: &HostRuntime,
    asked: Invocation<'a>,
) -> Result<ExitCode, Failure<'a>> {
    match asked {
        Invocation::Pipe(files) => run_files::<G>(host, Input::Packets, files)?,
        Invocation::Script(files) => run_files::<G>(host, Input::Lines, files)?,
        Invocation::Policy(file) => tell_policy(host, file)?,
        Invocation::PolicyForDesk(file) => print_for_desk(host, file)?,
        Invocation::Migrate(file) => print_migrated(host, file)?,
        Invocation::Serve(serving) => return Ok(serve_told::<G, R>(rt, host, serving)),
        Invocation::Desk(desk) => return Ok(desk_told(rt, host, desk)),
        Invocation::Check(files) => return check::<G>(host, files),
        Invocation::Show(files, wanted, shape) => return show::<G>(host, files, wanted, shape),
        Invocation::State(files, asked) => return state::<G>(host, files, asked),
        Invocation::WhatIf(files, asked) => return whatif::<G>(host, files, asked),
        Invocation::Report(files, form) => return report::<G, R>(rt, host, files, form),
        Invocation::Follow(files, asked) => return follow::<G, R>(rt, host, files, asked),
    }
    Ok(ExitCode::SUCCESS)
}

/// Reads the arguments, and does what they ask for on gates of the kind `G`, or tells why not: the status of either. The
/// runtime is given twice: as what may start threads, wait and open sockets, and as the program's own.
fn run_program<G, R>(rt: &R, host: &HostRuntime) -> ExitCode
where
    G: ShowsRecords + ShowsState + Send,
    R: Net<Listener = TcpListener, Stream = TcpStream>
        + Threads
        + Wait
        + Clock
        + Copy
        + Send
        + Sync
        + 'static,
{
    let _held = match StandIns::open(host) {
        Ok(opened) => opened,
        Err(error) => return tell(host, Failure::unread(NULL, error)),
    };
    let words = match words_of(host) {
        Ok(Some(words)) => words,
        Ok(None) => return tell_bad_word(host),
        Err(refused) => return tell(host, refused.into()),
    };
    match asked_of(host, words.as_slice()) {
        Ok(asked) => match run::<G, R>(rt, host, asked) {
            Ok(status) => status,
            Err(ended) => tell(host, ended),
        },
        Err(status) => status,
    }
}

fn main(rt: HostRuntime) -> ExitCode {
    run_program::<Gate, HostRuntime>(&rt, &rt)
}
