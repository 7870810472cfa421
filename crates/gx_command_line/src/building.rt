//! What a command and its arguments are, as data, and how `clap` is told of them.

use crate::commands::{
    CHECK, CommandName, DESK, FOLLOW, MIGRATE, PIPE, POLICY, REPORT, SAMPLE_POLICY, SCRIPT, SERVE,
    SHOW, STATE, WHATIF,
};
use clap::builder::ValueParser;
use clap::{Arg, Command};
use std::alloc::{AllocError, Global};

/// What an argument is, and what stands behind it. The names are those of options, and of groups of which one alone may stand.
#[derive(Clone, Copy)]
pub(crate) enum Kind {
    /// A word that is known by its place, and has to be there.
    Word,
    /// All words from the first on that is no option; those behind it may begin with `-`.
    Rest,
    /// An option with a text.
    Text,
    /// An option with a text, which has to be there.
    NeededText,
    /// An option with nothing.
    Flag,
    /// An option with one of these words.
    Choice(&'static [&'static str]),
    /// An option with a number from 1 to 65,535.
    Port,
    /// An option with a number from 1 to 65,535, which has to be there.
    NeededPort,
    /// An option with a number from 1 to the most, and the one that holds without it.
    Count(i64, &'static [&'static str]),
    /// An option with a number from 1 on.
    Number,
    /// An option with an offset from UTC, which may begin with `-`, and the one that holds without it.
    Offset(&'static [&'static str]),
    /// An option with nothing, which stands beside one of these names alone.
    FlagBeside(&'static [&'static str]),
    /// An option with a text, which stands beside the first names alone, and not beside the others.
    TextBeside(&'static [&'static str], &'static [&'static str]),
    /// An option with a text, of this group.
    TextOf(&'static [&'static str]),
    /// An option with nothing, which stands in place of those of these names.
    FlagInPlaceOf(&'static [&'static str]),
    /// An option with a text, which stands in place of those of these names.
    TextInPlaceOf(&'static [&'static str]),
}

/// An argument of a command.
#[derive(Clone, Copy)]
pub(crate) struct Argument {
    /// The name that it is read by, which is an option's word behind `--` too.
    pub name: &'static str,
    /// What help calls the value; a flag has none.
    pub value: &'static str,
    pub kind: Kind,
    pub help: &'static str,
}

/// A command, with its help and its arguments.
#[derive(Clone, Copy)]
pub(crate) struct Subcommand {
    pub command: CommandName,
    pub about: &'static str,
    pub arguments: &'static [Argument],
    /// What its help says at the end, if it says more.
    pub lines: Option<&'static str>,
}

impl Kind {
    /// Whether it is an option, or else known by its place.
    fn is_option(self) -> bool {
        !matches!(self, Kind::Word | Kind::Rest)
    }

    /// Whether it has to be there.
    fn is_required(self) -> bool {
        matches!(self, Kind::Word | Kind::NeededText | Kind::NeededPort)
    }

    /// How many words its value has at most.
    fn most_words(self) -> usize {
        match self {
            Kind::Flag | Kind::FlagBeside(_) | Kind::FlagInPlaceOf(_) => 0,
            Kind::Rest => usize::MAX,
            _ => 1,
        }
    }

    /// What each word of its value has to be.
    fn parser(self) -> ValueParser<'static> {
        match self {
            Kind::Choice(words) => ValueParser::Names(words),
            Kind::Port | Kind::NeededPort => ValueParser::Signed(1, 65_535),
            Kind::Count(most, _) => ValueParser::Signed(1, most),
            Kind::Number => ValueParser::Signed(1, i64::MAX),
            _ => ValueParser::String,
        }
    }

    /// The value that holds without it, if one does.
    fn default(self) -> &'static [&'static str] {
        match self {
            Kind::Count(_, default) | Kind::Offset(default) => default,
            _ => &[],
        }
    }

    /// The group that it is of, if it is of one.
    fn groups(self) -> &'static [&'static str] {
        match self {
            Kind::TextOf(groups) => groups,
            _ => &[],
        }
    }

    /// What it stands beside alone.
    fn beside(self) -> &'static [&'static str] {
        match self {
            Kind::FlagBeside(names) | Kind::TextBeside(names, _) => names,
            _ => &[],
        }
    }

    /// What it can't stand beside.
    fn not_beside(self) -> &'static [&'static str] {
        match self {
            Kind::TextBeside(_, names) | Kind::FlagInPlaceOf(names) | Kind::TextInPlaceOf(names) =>
                names,
            _ => &[],
        }
    }
}

/// The argument, as `clap` is told of it.
fn build_argument<'a>(alloc: Global, asked: &Argument) -> Result<Arg<'a>, AllocError> {
    let kind = asked.kind;
    let most = kind.most_words();
    let made = Arg::new(alloc, asked.name)
        .help(asked.help)
        .value_name(asked.value)
        .required(kind.is_required())
        .num_args(most.min(1)..=most)
        .trailing_var_arg(most > 1)
        .value_parser(kind.parser())
        .allow_hyphen_values(matches!(kind, Kind::Offset(_)))
        .default_values(kind.default())
        .groups(kind.groups())?
        .requires_all(kind.beside())?
        .conflicts_with_all(kind.not_beside())?;
    Ok(if kind.is_option() {
        made.long(asked.name)
    } else {
        made
    })
}

/// The arguments, as `clap` is told of them.
fn build_arguments<'a>(alloc: Global, asked: &[Argument]) -> Result<Vec<Arg<'a>>, AllocError> {
    let mut made = Vec::new(alloc);
    for argument in asked {
        made.push(build_argument(alloc, argument)?)?;
    }
    Ok(made)
}

/// The command, as `clap` is told of it.
fn build_command<'a>(alloc: Global, asked: &Subcommand) -> Result<Command<'a>, AllocError> {
    let arguments = build_arguments(alloc, asked.arguments)?;
    let made: Command<'a> = Command::new(alloc, asked.command.name()).about(asked.about);
    match asked.lines {
        Some(lines) => made.after_help(lines).args(arguments),
        None => made.args(arguments),
    }
}

/// The commands, as `clap` is told of them.
fn build_commands<'a>(alloc: Global, asked: &[Subcommand]) -> Result<Vec<Command<'a>>, AllocError> {
    let mut made = Vec::new(alloc);
    for command in asked {
        made.push(build_command(alloc, command)?)?;
    }
    Ok(made)
}

/// All commands, as help lists them.
fn all_commands<'a>(alloc: Global) -> Result<Vec<Command<'a>>, AllocError> {
    let all = [
        PIPE, SERVE, SCRIPT, POLICY, MIGRATE, CHECK, SHOW, STATE, REPORT, WHATIF, FOLLOW, DESK,
    ];
    build_commands(alloc, &all)
}

/// The command line: what may be asked, with its help.
pub(crate) fn command_line<'a>(alloc: Global) -> Result<Command<'a>, AllocError> {
    let commands = all_commands(alloc)?;
    Command::new(alloc, "gate")
        .version("0.1.0")
        .about(
            "A sponsored-access gateway: OUCH 4.2 orders in SoupBinTCP 3.00 packets, judged by a written policy",
        )
        .after_help(SAMPLE_POLICY)
        .subcommand_required(true)
        .arg_required_else_help(true)
        .subcommands(commands)
}
