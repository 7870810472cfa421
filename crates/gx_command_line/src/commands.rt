//! The commands of `gate` and their arguments, as data, with the help of each.

use crate::building::{Argument, Kind, Subcommand};

/// What `gate --help` says of the policy.
pub(crate) const SAMPLE_POLICY: &str =
    "Without --policy the sample policy holds: accounts ALFA and BETA, stock TEST, users ALICE, BOB, OLGA, OTTO and RITA,
no order of more than 500000 shares, and no account with more than $1,000 open and executed. The file is
examples/policies/sample.toml of the repository, where its passwords stand: run nothing real under it.";

/// What `gate script --help` says of the lines of a script.
const SCRIPT_LINES: &str = "Lines:
  M USER login PASSWORD NUMBER                        log in; NUMBER is the first report wanted, 0 for the last
  M USER logout                                       log out
  M USER enter TOKEN SIDE SHARES STOCK PRICE TIF      enter an order
  M USER replace OLD NEW SHARES PRICE TIF             an order in the place of another
  M USER cancel TOKEN SHARES                          cut an order to a new size; 0 ends it
  M USER kill TAG ACCOUNT                             kill an account (officers)
  M USER lift TAG ACCOUNT                             lift a kill (officers)
  M USER limit TAG RULE VALUE                         set the limit of a rule (officers)
  M USER restrict TAG RULE STOCK                      put a stock on the list of a rule (officers)
  M USER unrestrict TAG RULE STOCK                    take a stock off the list of a rule (officers)
  M USER grant TAG READER ACCOUNT                     let a reader see an account (officers)
  M USER revoke TAG READER ACCOUNT                    let a reader see an account no longer (officers)
  M USER close TAG                                    end all orders, and take none any more (officers)
  M USER raw HEX                                      what the bytes of a message ask for
  M match                                             make one matching step
  M settle                                            make matching steps until no order waits
  stream USER                                         print the reports that the user is owed

M is the moment in nanoseconds past midnight, PRICE in ten-thousandths of a dollar, TIF 0, 99998 or 99999.
Words are separated by one space. Empty lines and lines that begin with # are skipped.
Each step prints `N granted`, `N denied RULE` or `refused DayFull`, N being the number of its record;
a matching step `N filled TAKER MAKER SHARES PRICE`, `N rested ORDER`, `N expired ORDER` or `idle`;
`stream` prints `USER K HEX` for each report. A bad line ends the script with status 4.";

/// What `gate show --help` says of the lines.
const SHOWN_LINES: &str =
    "Each line is a line of a script, and behind the last ` # ` what became of it: the line and the moment,
and then the number of the record and its verdict, as a script prints them. An audit holds no password:
RIGHT and WRONG stand in its place. What no line of a script asks for is a comment. To run a day again,
under a copy of its policy in which each user has the password RIGHT:
  gate show AUDIT --policy DAY | sed 's/\\(.*\\) # .*/\\1/' | gate script --policy COPY";

/// The option `--policy FILE` of a run.
const RUN_POLICY: Argument = Argument {
    name: "policy",
    value: "FILE",
    kind: Kind::Text,
    help: "The policy file to run under; without it the sample policy holds (see `gate --help`)",
};

/// The option `--policy FILE` of an audit.
const DAY_POLICY: Argument = Argument {
    name: "policy",
    value: "FILE",
    kind: Kind::Text,
    help: "The policy file of the audit's day; without it the sample policy holds (see `gate --help`)",
};

/// The option `--audit FILE` of a run.
const RUN_AUDIT: Argument = Argument {
    name: "audit",
    value: "FILE",
    kind: Kind::Text,
    help: "Where to write the audit of the run: all its records, when it ends; what stands there stays until then",
};

/// The option `--audit-version N` of a run.
const RUN_VERSION: Argument = Argument {
    name: AUDIT_VERSION,
    value: "N",
    kind: Kind::Choice(&[SECOND, THIRD]),
    help: "The version in which audit and journal are written: 2, which holds without it, or 3, whose header has \
           the policy's digest and the date; a journal that goes on keeps its own",
};

/// The argument FILE.
const POLICY_FILE: Argument = Argument {
    name: "file",
    value: "FILE",
    kind: Kind::Word,
    help: "The policy file to read",
};

/// The name of the option `--for-desk`.
pub(crate) const FOR_DESK: &str = "for-desk";

/// The name of the option `--midnight`, whose value is read by itself.
pub(crate) const MIDNIGHT: &str = "midnight";

/// The name of the option `--log`, and its values.
pub(crate) const LOG: &str = "log";

const TEXT: &str = "text";

pub(crate) const JSON: &str = "json";

/// The name of the option `--audit-version`, and its values.
pub(crate) const AUDIT_VERSION: &str = "audit-version";

const SECOND: &str = "2";

pub(crate) const THIRD: &str = "3";

/// The name of the option `--format`, and the value that `--log` has not.
pub(crate) const FORMAT: &str = "format";

pub(crate) const CSV: &str = "csv";

/// The group of the options that name the journal that a server keeps.
const KEPT: &str = "kept";

/// The name of the words of a command.
pub(crate) const WORDS: &str = "words";

/// The name of the option `--until`, whose value is read by itself too.
pub(crate) const UNTIL: &str = "until";

/// The names of the options `--from` and `--to`, whose values are read by themselves.
pub(crate) const FROM: &str = "from";

pub(crate) const TO: &str = "to";

pub(crate) const PIPE: Subcommand = Subcommand {
    command: CommandName::Pipe,
    about: "Serves one SoupBinTCP connection: client packets on standard input, server packets on standard output",
    arguments: &[RUN_POLICY, RUN_AUDIT, RUN_VERSION],
    lines: None,
};

pub(crate) const SERVE: Subcommand = Subcommand {
    command: CommandName::Serve,
    about: "Serves SoupBinTCP connections over TCP, all of them on one gate, each in threads of its own",
    arguments: &[
        Argument {
            name: "port",
            value: "P",
            kind: Kind::NeededPort,
            help: "The port of this machine's own address 127.0.0.1 to listen on",
        },
        Argument {
            name: "connections",
            value: "N",
            kind: Kind::Count(65_534, &["64"]),
            help: "End once N connections were taken and have ended",
        },
        Argument {
            name: "until-input-ends",
            value: "",
            kind: Kind::FlagInPlaceOf(&["connections", "standby"]),
            help: "Take connections until standard input ends, and count none; without it standard input is not read",
        },
        Argument {
            name: UNTIL,
            value: "TIME",
            kind: Kind::TextInPlaceOf(&["connections"]),
            help: "Take connections until it is HH:MM or HH:MM:SS by the clock of --midnight, and count none",
        },
        Argument {
            name: "stop-file",
            value: "FILE",
            kind: Kind::TextInPlaceOf(&["connections"]),
            help: "Take connections until there is such a file, which is looked for ten times a second, and count none",
        },
        Argument {
            name: "connections-at-once",
            value: "N",
            kind: Kind::Count(65_534, &["1000"]),
            help: "How many connections to serve at once; where all places are taken, \
                   the oldest connection that has not logged in is hung up on for the next",
        },
        Argument {
            name: "login-within",
            value: "S",
            kind: Kind::Count(15, &["10"]),
            help: "Hang up on a connection that has not logged in S seconds after it came",
        },
        Argument {
            name: "status-port",
            value: "P",
            kind: Kind::Port,
            help: "Serve the risk desk's page there too, for officers and readers, by HTTP on 127.0.0.1 alone",
        },
        Argument {
            name: MIDNIGHT,
            value: "OFFSET",
            kind: Kind::Offset(&["+00:00"]),
            help: "How far local time is from UTC, as -05:00, at most 14 hours: timestamps count from \
                   the last local midnight before the start, and go on past the next",
        },
        Argument {
            name: "journal",
            value: "FILE",
            kind: Kind::TextOf(&[KEPT]),
            help: "Where to keep the day: each record is written before anything that comes of it is sent; \
                   a day that is there goes on",
        },
        Argument {
            name: "standby",
            value: "JOURNAL",
            kind: Kind::TextOf(&[KEPT]),
            help: "Follow the journal of a server that runs, and take over once that has ended, however it did: \
                   listen then, and go on with the day",
        },
        Argument {
            name: "takeover-file",
            value: "FILE",
            kind: Kind::TextBeside(&["standby"], &["journal"]),
            help: "Take over only once there is such a file too, which is looked for as often as the journal is read",
        },
        Argument {
            name: "journal-sync",
            value: "",
            kind: Kind::FlagBeside(&[KEPT]),
            help: "Force the journal to the disk too, before anything is sent",
        },
        Argument {
            name: LOG,
            value: "FORM",
            kind: Kind::Choice(&[TEXT, JSON]),
            help: "Write a log on standard error, a line an event: logins, commands of officers, ended connections, \
                   faults, and why the server ends",
        },
        RUN_POLICY,
        RUN_AUDIT,
        RUN_VERSION,
    ],
    lines: None,
};

pub(crate) const SCRIPT: Subcommand = Subcommand {
    command: CommandName::Script,
    about: "Runs a script of steps from standard input, and prints what becomes of each",
    arguments: &[RUN_POLICY, RUN_AUDIT, RUN_VERSION],
    lines: Some(SCRIPT_LINES),
};

pub(crate) const POLICY: Subcommand = Subcommand {
    command: CommandName::Policy,
    about: "Reads a policy file, and tells how much it holds or what is wrong with it",
    arguments: &[
        Argument {
            name: FOR_DESK,
            value: "",
            kind: Kind::Flag,
            help: "Print it in version 2 without its users, and so without a password: for `gate desk --policy`",
        },
        POLICY_FILE,
    ],
    lines: None,
};

pub(crate) const MIGRATE: Subcommand = Subcommand {
    command: CommandName::Migrate,
    about: "Reads a policy file, and prints it in version 2, with the same meaning",
    arguments: &[POLICY_FILE],
    lines: None,
};

pub(crate) const CHECK: Subcommand = Subcommand {
    command: CommandName::Check,
    about: "Checks that an audit is that of a legal day under the policy",
    arguments: &[
        Argument {
            name: "audit",
            value: "AUDIT",
            kind: Kind::Word,
            help: "The audit to check",
        },
        DAY_POLICY,
    ],
    lines: None,
};

pub(crate) const SHOW: Subcommand = Subcommand {
    command: CommandName::Show,
    about: "Shows the records of an audit, each as a line of a script and what became of it",
    arguments: &[
        Argument {
            name: "audit",
            value: "AUDIT",
            kind: Kind::Word,
            help: "The audit to show",
        },
        Argument {
            name: "account",
            value: "ACCOUNT",
            kind: Kind::Text,
            help: "Only what concerns the account: requests of its users, what became of its orders, and commands that \
                   name it or a rule that covers it, or close the day",
        },
        Argument {
            name: "user",
            value: "USER",
            kind: Kind::Text,
            help: "Only what the user asked for, and what became of his orders",
        },
        Argument {
            name: "order",
            value: "N",
            kind: Kind::Number,
            help: "Only what concerns the order that record N made: that record, each request that names it, what it came \
                   to in matching, and the Kill or Close Day that it ended by",
        },
        Argument {
            name: "stock",
            value: "STOCK",
            kind: Kind::Text,
            help: "Only what concerns the stock: orders in it, and commands that put it on a list or take it off",
        },
        Argument {
            name: "rule",
            value: "RULE",
            kind: Kind::Text,
            help: "Only denials by the rule, and commands on it",
        },
        Argument {
            name: "denied",
            value: "",
            kind: Kind::Flag,
            help: "Only what was denied",
        },
        Argument {
            name: FROM,
            value: "TIME",
            kind: Kind::Text,
            help: "Nothing of an earlier moment; TIME is HH:MM or HH:MM:SS behind the midnight that moments count from",
        },
        Argument {
            name: TO,
            value: "TIME",
            kind: Kind::Text,
            help: "Nothing of a later moment",
        },
        Argument {
            name: "clock",
            value: "",
            kind: Kind::Flag,
            help: "In text, show each moment as a clock does, in front of the line",
        },
        Argument {
            name: "words",
            value: "",
            kind: Kind::Flag,
            help: "In text, say behind each denial why it was denied, and the letter of its Rejected",
        },
        Argument {
            name: FORMAT,
            value: "FORMAT",
            kind: Kind::Choice(&[TEXT, CSV, JSON]),
            help: "How the records are shown: as text, as it is without this, as CSV or as JSON, an object a line",
        },
        DAY_POLICY,
    ],
    lines: Some(SHOWN_LINES),
};

/// The name of the option `--at`, whose value is read by itself too.
pub(crate) const AT: &str = "at";

/// The name of the option `--orders`.
pub(crate) const ORDERS: &str = "orders";

/// What `gate state --help` says of the lines.
const STATE_LINES: &str =
    "The first line has the day, its last record and that one's moment, whether the day is closed, and how many records
may still come. Then there is a line for each user who is logged in, and for each account: its live orders, their
open shares on each side, the shares that it bought and sold and their value, and where it is killed by whom. Then, rule by rule in the file's order, its limit, that of the
file and who set it last; what each account, or all together, have used of it and what is left; and the stocks that it
lists, and who put them there. Values are in dollars. A net rule has a line for each account and stock with anything.
With --json all of it is one object, where values are in ten-thousandths of a dollar.
Nothing is told of an audit that is none of a legal day up to there: its fault is, as by `gate check`, with status 4.";

pub(crate) const STATE: Subcommand = Subcommand {
    command: CommandName::State,
    about: "Tells what stands in an audit's day: accounts, limits and what is used of them, lists, users who are on",
    arguments: &[
        Argument {
            name: "audit",
            value: "AUDIT",
            kind: Kind::Word,
            help: "The audit, or the journal of a server; its last record may be cut",
        },
        Argument {
            name: AT,
            value: "PLACE",
            kind: Kind::Text,
            help: "Behind the record of this number, or the last that is no later than this time of day, \
                   HH:MM or HH:MM:SS; without it behind the last",
        },
        Argument {
            name: ORDERS,
            value: "",
            kind: Kind::Flag,
            help: "Tell each live order too",
        },
        Argument {
            name: JSON,
            value: "",
            kind: Kind::Flag,
            help: "Write one JSON object",
        },
        DAY_POLICY,
    ],
    lines: Some(STATE_LINES),
};

/// The value of `--format` that a report alone has.
pub(crate) const HTML: &str = "html";

/// What `gate report --help` says of the tables.
const REPORT_TABLES: &str =
    "Tables: the day; each account, what its users were granted and denied, what it executed and whether it is killed; the most
that was used of each gross and net limit, behind which record it first was, the limit then, and behind which record
more than the limit was first used, if ever; what was executed by account and stock; each command of an officer, with what
stood before it and the orders that it ended; denials by rule and account; orders, fills and denials in 48 spans of the day.
Values are in dollars; in JSON they are in ten-thousandths of a dollar. The page of --format html has charts too, and
needs nothing from elsewhere. Nothing is told of an audit that is none of a legal day: its fault is, as by `gate check`,
with status 4.";

pub(crate) const REPORT: Subcommand = Subcommand {
    command: CommandName::Report,
    about: "Reports an audit's day: what accounts did, the most that was used of limits, commands and denials",
    arguments: &[
        Argument {
            name: "audit",
            value: "AUDIT",
            kind: Kind::Word,
            help: "The audit, or the journal of a server; its last record may be cut",
        },
        Argument {
            name: FORMAT,
            value: "FORMAT",
            kind: Kind::Choice(&[TEXT, CSV, JSON, HTML]),
            help: "How it is written: as text, as it is without this, as CSV, as one object of JSON, or as a page of HTML",
        },
        DAY_POLICY,
    ],
    lines: Some(REPORT_TABLES),
};

/// The name of the option `--under`.
pub(crate) const UNDER: &str = "under";

/// What `gate whatif --help` says of the lines.
const WHATIF_LINES: &str =
    "The steps of the audit's day are judged again, one after the other, under the policy of --under; whether a login's
password was right is taken from its record. The first line has how many verdicts change, and of how many records. Where
some do, the first of these stands behind it with both verdicts; then there is a line for each heading with how many of
them come under it: the rules that deny under one policy alone, and the accounts whose traders asked.
With --json all of it is one object on a line.
Nothing is told of an audit that is none of a legal day under --policy: its fault is, as by `gate check`, with status 4.";

pub(crate) const WHATIF: Subcommand = Subcommand {
    command: CommandName::WhatIf,
    about: "Tells which verdicts of an audit's day change under another policy",
    arguments: &[
        Argument {
            name: "audit",
            value: "AUDIT",
            kind: Kind::Word,
            help: "The audit, or the journal of a server; its last record may be cut",
        },
        Argument {
            name: UNDER,
            value: "FILE",
            kind: Kind::NeededText,
            help: "The policy file under which the day is judged again",
        },
        Argument {
            name: JSON,
            value: "",
            kind: Kind::Flag,
            help: "Write one JSON object",
        },
        DAY_POLICY,
    ],
    lines: Some(WHATIF_LINES),
};

/// The name of the option `--every`.
pub(crate) const EVERY: &str = "every";

/// The name of the option `--warn`.
pub(crate) const WARN: &str = "warn";

/// The name of the option `--once`.
pub(crate) const ONCE: &str = "once";

/// What `gate follow --help` says of the lines.
const FOLLOW_LINES: &str =
    "Beside a running server, this reads what its journal has grown by, and makes each record again on a gate of its own. A
journal that is not there yet is waited for; nothing is written to it, and it is not locked. Told is, a line each, what the
server's own log tells of the records (see `gate serve --log`): logins and logouts, commands of officers, granted or denied,
and how full the day is; and each share of --warn of the limit in force of a gross or net rule that is used for the first
time in the day. With --json each line is a JSON object.
It ends with status 0 once the day is closed and nothing more has come within the time of --every; with status 4 and what
`gate check` says at the first record that is none of a legal day; with status 1 where the file has lost whole records, or its name.";

pub(crate) const FOLLOW: Subcommand = Subcommand {
    command: CommandName::Follow,
    about: "Follows the journal of a running server: checks each record as it comes, and tells what matters of it",
    arguments: &[
        Argument {
            name: "audit",
            value: "JOURNAL",
            kind: Kind::Word,
            help: "The journal of a server; it may not be there yet",
        },
        Argument {
            name: EVERY,
            value: "TIME",
            kind: Kind::Text,
            help: "How often it is looked at, as 1s, which holds without this, or 500ms",
        },
        Argument {
            name: WARN,
            value: "SHARES",
            kind: Kind::Text,
            help: "The shares of limits of which is warned, in hundredths; without this 75,90",
        },
        Argument {
            name: JSON,
            value: "",
            kind: Kind::Flag,
            help: "Write each line as a JSON object",
        },
        Argument {
            name: ONCE,
            value: "",
            kind: Kind::Flag,
            help: "End where the journal ends now",
        },
        DAY_POLICY,
    ],
    lines: Some(FOLLOW_LINES),
};

/// What `gate desk --help` says of the password and of the lines.
const DESK_LINES: &str =
    "The password is the first line of --password-file, else the variable GATE_PASSWORD, else the first line of standard
input. It is never an argument, which others could see.
WORDS are one command, as `kill ALFA` or `buy 100 TEST 10.50`; `help` shows all of them. Without them commands come from
standard input, a line each. Answers are written on standard output, all else on standard error. The status is
  0  all was done                          1  the line failed, or no answer came
  2  a line can't be read                  5  something was denied or rejected
  6  the login was rejected                7  a kill of several accounts has an account without an answer";

pub(crate) const DESK: Subcommand = Subcommand {
    command: CommandName::Desk,
    about: "Logs in to a gate, sends commands of an officer or orders of a trader, and shows the answers",
    arguments: &[
        Argument {
            name: "port",
            value: "P",
            kind: Kind::NeededPort,
            help: "The port that the gate listens on",
        },
        Argument {
            name: "host",
            value: "ADDRESS",
            kind: Kind::Text,
            help: "The gate's address; without it 127.0.0.1, this machine's own",
        },
        Argument {
            name: "user",
            value: "USER",
            kind: Kind::NeededText,
            help: "The user to log in as",
        },
        Argument {
            name: "password-file",
            value: "FILE",
            kind: Kind::Text,
            help: "The file whose first line is the password",
        },
        Argument {
            name: "accounts",
            value: "A,B,C",
            kind: Kind::TextInPlaceOf(&["policy", "status-port"]),
            help: "The accounts that `kill --all` kills, with commas between them",
        },
        Argument {
            name: "status-port",
            value: "P",
            kind: Kind::Port,
            help: "The port of the server's page, which tells the accounts of `kill --all`, and the limits in force",
        },
        Argument {
            name: "policy",
            value: "FILE",
            kind: Kind::TextInPlaceOf(&["status-port"]),
            help: "The policy file that tells the accounts of `kill --all`, and what limits are counted in",
        },
        Argument {
            name: JSON,
            value: "",
            kind: Kind::Flag,
            help: "Write each answer as a JSON object",
        },
        Argument {
            name: "reconnect",
            value: "",
            kind: Kind::Flag,
            help: "Where the line breaks, connect again, each second and 60 times since the last answer, and go on; \
                   what was asked is not asked again, but for kills of several accounts",
        },
        Argument {
            name: WORDS,
            value: "WORDS",
            kind: Kind::Rest,
            help: "One command; options stand in front of it",
        },
    ],
    lines: Some(DESK_LINES),
};

/// A command.
#[derive(Clone, Copy)]
pub(crate) enum CommandName {
    Pipe,
    Serve,
    Script,
    Policy,
    Migrate,
    Check,
    Show,
    State,
    Report,
    WhatIf,
    Follow,
    Desk,
}

impl CommandName {
    /// All of them, as help lists them.
    pub(crate) const ALL: [CommandName; 12] = [
        CommandName::Pipe,
        CommandName::Serve,
        CommandName::Script,
        CommandName::Policy,
        CommandName::Migrate,
        CommandName::Check,
        CommandName::Show,
        CommandName::State,
        CommandName::Report,
        CommandName::WhatIf,
        CommandName::Follow,
        CommandName::Desk,
    ];

    /// The word that it is called by.
    pub(crate) fn name(self) -> &'static str {
        match self {
            CommandName::Pipe => "pipe",
            CommandName::Serve => "serve",
            CommandName::Script => "script",
            CommandName::Policy => "policy",
            CommandName::Migrate => "migrate",
            CommandName::Check => "check",
            CommandName::Show => "show",
            CommandName::State => "state",
            CommandName::Report => "report",
            CommandName::WhatIf => "whatif",
            CommandName::Follow => "follow",
            CommandName::Desk => "desk",
        }
    }

    /// The command of this name, if there is one.
    pub(crate) fn of_name(name: &str) -> Option<CommandName> {
        for command in CommandName::ALL {
            if command.name() == name {
                return Some(command);
            }
        }
        None
    }
}
