//! The command line of the program `gate`: what may be asked, with its help, and what a call asks for.
#![tactic(auto)]

mod building;
mod commands;
mod follow;
mod refused;
mod state;
mod values;
mod words;

use building::command_line;
use clap::{ArgMatches, Error};
use commands::{
    AUDIT_VERSION, CSV, CommandName, FOR_DESK, FORMAT, FROM, HTML, JSON, LOG, MIDNIGHT, THIRD, TO,
    UNDER, UNTIL, WORDS,
};
use follow::follow_asked;
pub use follow::{Every, FollowAsked, WarnedShares};
use gx_clock::{TimeOfDay, UtcOffset};
use gx_text::Form;
use refused::shown_fault;
use state::state_asked;
pub use state::{Behind, StateOptions};
use std::alloc::Global;
use values::READ_OPTIONS;
pub use values::{BadValue, ReadOption};
pub use words::{BadWord, LONGEST_WORD, first_bad_word};

/// In which version the audit of a run is written, and a journal that is begun.
#[derive(Clone, Copy)]
pub enum VersionAsked {
    /// Version 2.
    Two,
    /// Version 3, whose header has the policy's digest and the day.
    Three,
}

/// The files of a run.
#[derive(Clone, Copy)]
pub struct RunFiles<'a> {
    /// The policy to run under; without it the sample policy holds.
    pub policy: Option<&'a str>,
    /// Where to write the audit, if it is wanted.
    pub audit: Option<&'a str>,
    /// In which version the audit is written, and a journal that is begun.
    pub version: VersionAsked,
}

/// An audit, and the policy of its day.
#[derive(Clone, Copy)]
pub struct AuditFiles<'a> {
    /// The audit.
    pub audit: &'a str,
    /// The policy; without it the sample policy holds.
    pub policy: Option<&'a str>,
}

/// What a server is to do.
#[derive(Clone, Copy)]
pub struct Serving<'a> {
    /// The files of the run.
    pub files: RunFiles<'a>,
    /// The port to listen on.
    pub port: u16,
    /// The port of the risk desk's page, if it is served.
    pub status_port: Option<u16>,
    /// When it ends.
    pub ends: Ends<'a>,
    /// How many connections to serve at once.
    pub at_once: u16,
    /// How many seconds a connection has for its login.
    pub login_within: u16,
    /// How far from UTC the midnight is that moments count from.
    pub midnight: UtcOffset,
    /// The journal of the day, if one is kept.
    pub journal: Option<JournalFile<'a>>,
    /// How it follows that journal while another server keeps it, if it is to.
    pub standby: Option<Standby<'a>>,
    /// How a log is written on standard error, if one is.
    pub log: Option<Form>,
}

/// When a server ends by itself: as soon as one of these is so.
#[derive(Clone, Copy)]
pub struct Ends<'a> {
    /// So many connections were taken and have ended; `None` where they are not counted.
    pub connections: Option<u16>,
    /// Standard input has ended, where that is asked for.
    pub with_input: bool,
    /// It is this time for the first time since the start.
    pub at: Option<TimeOfDay>,
    /// There is this file.
    pub stop_file: Option<&'a str>,
}

/// Where a server keeps the journal of its day, and what that outlives.
#[derive(Clone, Copy)]
pub struct JournalFile<'a> {
    /// The journal.
    pub path: &'a str,
    /// Whether it is forced to the disk, so that it outlives the machine too.
    pub is_synced: bool,
}

/// When a server that stands by takes over: as soon as the journal is no other server's any more, and all of this is so.
#[derive(Clone, Copy)]
pub struct Standby<'a> {
    /// There is this file, if one is named.
    pub takeover_file: Option<&'a str>,
}

/// Which records of an audit are wanted.
#[derive(Clone, Copy)]
pub struct ShowFilter<'a> {
    /// Those that concern this account.
    pub account: Option<&'a str>,
    /// Those that this user asked for, and what became of his orders.
    pub user: Option<&'a str>,
    /// Those that concern the order of this number.
    pub order: Option<u64>,
    /// Those that concern this stock.
    pub stock: Option<&'a str>,
    /// Denials by this rule, and commands on it.
    pub rule: Option<&'a str>,
    /// Denied requests alone.
    pub only_denied: bool,
    /// None of an earlier time.
    pub from: Option<TimeOfDay>,
    /// None of a later time.
    pub to: Option<TimeOfDay>,
}

/// The form in which records are shown.
#[derive(Clone, Copy)]
pub enum TableForm {
    /// As lines of a script.
    Text,
    /// As CSV.
    Csv,
    /// As JSON, an object a line.
    Json,
}

/// The form in which a day is reported.
#[derive(Clone, Copy)]
pub enum PageForm {
    /// As tables in columns.
    Text,
    /// As CSV, a line a row.
    Csv,
    /// As one object of JSON.
    Json,
    /// As a page of HTML, with charts.
    Html,
}

/// How records of an audit are shown.
#[derive(Clone, Copy)]
pub struct Shape {
    /// As text, as CSV or as JSON.
    pub form: TableForm,
    /// Whether moments stand in front as a clock shows them.
    pub has_clock: bool,
    /// Whether denials say why.
    pub has_words: bool,
}

/// Under which policy a day is judged again.
#[derive(Clone, Copy)]
pub struct OtherPolicy<'a> {
    /// The policy file.
    pub policy: &'a str,
    /// Whether what changes is told as one JSON object.
    pub is_json: bool,
}

/// What a terminal client is to do.
#[derive(Clone, Copy)]
pub struct Desk<'a> {
    /// The address of the gate, if it is not this machine's own.
    pub host: Option<&'a str>,
    /// The port that the gate listens on.
    pub port: u16,
    /// The user to log in as.
    pub user: &'a str,
    /// The file whose first line is the password, if there is one.
    pub password_file: Option<&'a str>,
    /// The accounts that `kill --all` kills, with commas between them, if they are given.
    pub accounts: Option<&'a str>,
    /// The port of the server's page, if that tells them.
    pub status_port: Option<u16>,
    /// The policy whose accounts are known, if one is named.
    pub policy: Option<&'a str>,
    /// Whether answers are written as JSON.
    pub is_json: bool,
    /// Whether it connects again where the line breaks.
    pub reconnects: bool,
    /// The words of the one command; none where commands come from standard input.
    pub words: &'a [String],
}

/// What a call asks for.
#[derive(Clone, Copy)]
pub enum Invocation<'a> {
    /// `gate pipe`: to serve one connection.
    Pipe(RunFiles<'a>),
    /// `gate serve`: to serve connections to a port.
    Serve(Serving<'a>),
    /// `gate script`: to run a script.
    Script(RunFiles<'a>),
    /// `gate policy`: to tell of this policy file.
    Policy(&'a str),
    /// `gate policy --for-desk`: to print this policy file without its users.
    PolicyForDesk(&'a str),
    /// `gate migrate`: to print this policy file in the newest version.
    Migrate(&'a str),
    /// `gate check`: to check an audit.
    Check(AuditFiles<'a>),
    /// `gate show`: to show records of an audit.
    Show(AuditFiles<'a>, ShowFilter<'a>, Shape),
    /// `gate state`: to tell what stands in an audit's day.
    State(AuditFiles<'a>, StateOptions),
    /// `gate report`: to report an audit's day.
    Report(AuditFiles<'a>, PageForm),
    /// `gate whatif`: to tell which verdicts of an audit's day change under another policy.
    WhatIf(AuditFiles<'a>, OtherPolicy<'a>),
    /// `gate follow`: to tell what the records of a journal tell as they come.
    Follow(AuditFiles<'a>, FollowAsked<'a>),
    /// `gate desk`: to be a terminal of a gate.
    Desk(Desk<'a>),
}

/// Why the words of a call ask for nothing.
#[derive(Drop)]
pub enum BadCall<'a> {
    /// What `clap` says: what is wrong with the words, the help or the version that they ask for, or that memory was refused.
    Words(Error),
    /// What `--midnight`, `--until`, `--from`, `--to`, `--at`, `--every` or `--warn` is given can't be read.
    Value(BadValue<'a>),
}

impl<'a> From<Error> for BadCall<'a> {
    fn from(error: Error) -> BadCall<'a> {
        BadCall::Words(error)
    }
}

/// In which version the audit of a run is wanted.
fn version_asked<'a>(given: &ArgMatches<'a>) -> VersionAsked {
    match given.get_str(AUDIT_VERSION) {
        Some(THIRD) => VersionAsked::Three,
        _ => VersionAsked::Two,
    }
}

/// The files of a run.
fn run_files<'a>(given: &ArgMatches<'a>) -> RunFiles<'a> {
    RunFiles {
        policy: given.get_str("policy"),
        audit: given.get_str("audit"),
        version: version_asked(given),
    }
}

/// What is asked of a server.
fn asked_of_server<'a>(given: &ArgMatches<'a>) -> Option<Invocation<'a>> {
    Some(Invocation::Serve(Serving {
        files: run_files(given),
        port: given.get_one::<u16>("port")?,
        status_port: given.get_one::<u16>("status-port"),
        ends: ends_of_server(given),
        at_once: given.get_one::<u16>("connections-at-once")?,
        login_within: given.get_one::<u16>("login-within")?,
        midnight: UtcOffset::parse(given.get_str(MIDNIGHT)?)?,
        journal: journal_file(given),
        standby: standby_options(given),
        log: form_of_log(given),
    }))
}

/// When a server ends.
fn ends_of_server<'a>(given: &ArgMatches<'a>) -> Ends<'a> {
    let ends = Ends {
        connections: None,
        with_input: given.get_flag("until-input-ends"),
        at: time_of(given, UNTIL),
        stop_file: given.get_str("stop-file"),
    };
    if ends.with_input || ends.at.is_some() || ends.stop_file.is_some() {
        ends
    } else {
        Ends {
            connections: given.get_one::<u16>("connections"),
            ..ends
        }
    }
}

/// The time of day that the option has, if it has one.
fn time_of<'a>(given: &ArgMatches<'a>, option: &str) -> Option<TimeOfDay> {
    TimeOfDay::parse(given.get_str(option)?)
}

/// How a log is written, if one is wanted.
fn form_of_log<'a>(given: &ArgMatches<'a>) -> Option<Form> {
    match given.get_str(LOG)? {
        JSON => Some(Form::Json),
        _ => Some(Form::Text),
    }
}

/// Where the journal is kept, if one is wanted.
fn journal_file<'a>(given: &ArgMatches<'a>) -> Option<JournalFile<'a>> {
    Some(JournalFile {
        path: given.get_str("journal").or(given.get_str("standby"))?,
        is_synced: given.get_flag("journal-sync"),
    })
}

/// When a server takes over, if it is to stand by.
fn standby_options<'a>(given: &ArgMatches<'a>) -> Option<Standby<'a>> {
    let _journal = given.get_str("standby")?;
    Some(Standby {
        takeover_file: given.get_str("takeover-file"),
    })
}

/// An audit, and the policy of its day.
fn audit_files<'a>(given: &ArgMatches<'a>) -> Option<AuditFiles<'a>> {
    Some(AuditFiles {
        audit: given.get_str("audit")?,
        policy: given.get_str("policy"),
    })
}

/// Which records of an audit are wanted.
fn wanted_records<'a>(given: &ArgMatches<'a>) -> ShowFilter<'a> {
    ShowFilter {
        account: given.get_str("account"),
        user: given.get_str("user"),
        order: given.get_one::<u64>("order"),
        stock: given.get_str("stock"),
        rule: given.get_str("rule"),
        only_denied: given.get_flag("denied"),
        from: time_of(given, FROM),
        to: time_of(given, TO),
    }
}

/// The form in which records are shown.
fn form_of_table<'a>(given: &ArgMatches<'a>) -> TableForm {
    match given.get_str(FORMAT) {
        Some(CSV) => TableForm::Csv,
        Some(JSON) => TableForm::Json,
        _ => TableForm::Text,
    }
}

/// The form in which a day is reported.
fn form_of_page<'a>(given: &ArgMatches<'a>) -> PageForm {
    match given.get_str(FORMAT) {
        Some(CSV) => PageForm::Csv,
        Some(JSON) => PageForm::Json,
        Some(HTML) => PageForm::Html,
        _ => PageForm::Text,
    }
}

/// How records are shown.
fn shape_of<'a>(given: &ArgMatches<'a>) -> Shape {
    Shape {
        form: form_of_table(given),
        has_clock: given.get_flag("clock"),
        has_words: given.get_flag("words"),
    }
}

/// The last so many words.
fn last_words<'a>(words: &'a [String], count: usize) -> &'a [String] {
    &words[words.len().saturating_sub(count)..]
}

/// Under which policy a day is judged again.
fn other_policy<'a>(given: &ArgMatches<'a>) -> Option<OtherPolicy<'a>> {
    Some(OtherPolicy {
        policy: given.get_str(UNDER)?,
        is_json: given.get_flag(JSON),
    })
}

/// What is asked of a terminal client. The words of its command stand behind all others of the call.
fn asked_of_desk<'a>(given: &ArgMatches<'a>, words: &'a [String]) -> Option<Invocation<'a>> {
    let count = match given.get_strs(WORDS) {
        Some(command) => command.len(),
        None => 0,
    };
    Some(Invocation::Desk(Desk {
        host: given.get_str("host"),
        port: given.get_one::<u16>("port")?,
        user: given.get_str("user")?,
        password_file: given.get_str("password-file"),
        accounts: given.get_str("accounts"),
        status_port: given.get_one::<u16>("status-port"),
        policy: given.get_str("policy"),
        is_json: given.get_flag(JSON),
        reconnects: given.get_flag("reconnect"),
        words: last_words(words, count),
    }))
}

/// What was asked of a policy file.
fn asked_of_policy<'a>(given: &ArgMatches<'a>) -> Option<Invocation<'a>> {
    let file = given.get_str("file")?;
    if given.get_flag(FOR_DESK) {
        return Some(Invocation::PolicyForDesk(file));
    }
    Some(Invocation::Policy(file))
}

/// What was asked of an audit; `None` where its command is none of these.
fn asked_of_audit<'a>(command: CommandName, given: &ArgMatches<'a>) -> Option<Invocation<'a>> {
    let files = audit_files(given)?;
    Some(match command {
        CommandName::Check => Invocation::Check(files),
        CommandName::Show => Invocation::Show(files, wanted_records(given), shape_of(given)),
        CommandName::State => Invocation::State(files, state_asked(given)?),
        CommandName::Report => Invocation::Report(files, form_of_page(given)),
        CommandName::WhatIf => Invocation::WhatIf(files, other_policy(given)?),
        CommandName::Follow => Invocation::Follow(files, follow_asked(given)?),
        _ => return None,
    })
}

/// What was asked for; `None` where no command was named, which the command line refuses beforehand.
fn asked_for<'a>(given: &ArgMatches<'a>, words: &'a [String]) -> Option<Invocation<'a>> {
    let (name, given) = given.subcommand()?;
    let command = CommandName::of_name(name)?;
    match command {
        CommandName::Pipe => Some(Invocation::Pipe(run_files(given))),
        CommandName::Script => Some(Invocation::Script(run_files(given))),
        CommandName::Serve => asked_of_server(given),
        CommandName::Policy => asked_of_policy(given),
        CommandName::Migrate => Some(Invocation::Migrate(given.get_str("file")?)),
        CommandName::Desk => asked_of_desk(given, words),
        _ => asked_of_audit(command, given),
    }
}

/// The value of a command's option, where one is given that can't be read.
fn bad_value<'a>(given: &ArgMatches<'a>) -> Option<BadValue<'a>> {
    let (_name, given) = given.subcommand()?;
    for option in READ_OPTIONS {
        let (name, _) = option.words();
        if let Some(text) = given.get_str(name) {
            if let Some(bad) = BadValue::of(option, text) {
                return Some(bad);
            }
        }
    }
    None
}

/// The words of a call, as the command line has them. The error is `clap`'s: what is wrong with the words, the help or the
/// version that they ask for, or that memory was refused. Of a long word it shows a front alone.
fn matches_of<'a>(alloc: Global, words: &'a [String]) -> Result<ArgMatches<'a>, Error> {
    match command_line(alloc)?.try_get_matches_from(words) {
        Ok(given) => Ok(given),
        Err(error) => Err(shown_fault(alloc, words, error)),
    }
}

/// What the words of a call ask for, the program's name being the first.
///
/// # Errors
///
/// What is wrong with the call.
pub fn read<'a>(alloc: Global, words: &'a [String]) -> Result<Option<Invocation<'a>>, BadCall<'a>> {
    let given = matches_of(alloc, words)?;
    match bad_value(&given) {
        Some(bad) => Err(BadCall::Value(bad)),
        None => Ok(asked_for(&given, words)),
    }
}
