//! Commands of officers, their answers, and what readers are told.
#![tactic(auto)]

ghost use Rattle.std.specs.Prelude.{◌≡◌};
ghost use Rattle.gx_desk.specs.Names.{command_word};

mod laws;
mod reading;
mod writing;

use gx_ouch::Executed;
use gx_units::{AccountName, RuleId, Symbol};
pub use laws::{commands_have_no_gaps, commands_keep_their_type};

/// Tag: any 14 bytes that an officer gives a command, echoed in its answer.
#[derive(Clone, Copy, PartialEq, Eq)]
pub struct Tag {
    /// As the officer sent them.
    pub bytes: [u8; 14],
}

/// The name of a user as an officer writes it, in either case of letters.
#[derive(Clone, Copy, PartialEq, Eq)]
pub struct WrittenName {
    /// The bytes, with spaces behind a shorter name.
    pub bytes: [u8; 6],
}

/// What an officer asks for.
#[derive(Clone, Copy, PartialEq, Eq)]
pub enum Action {
    /// Kill, `K`: every live order of the account ends, and it may place no more.
    Kill(AccountName),
    /// Lift, `L`: the account is killed no longer, once as many officers as the policy asks for have lifted it.
    Lift(AccountName),
    /// Set Limit, `M`: the rule's limit from now on.
    SetLimit(RuleId, u64),
    /// Restrict, `R`: the rule lists the stock.
    Restrict(RuleId, Symbol),
    /// Unrestrict, `N`: the rule lists the stock no longer.
    Unrestrict(RuleId, Symbol),
    /// Grant, `G`: the reader sees the account.
    Grant(WrittenName, AccountName),
    /// Revoke, `V`: the reader sees the account no longer.
    Revoke(WrittenName, AccountName),
    /// Close Day, `Z`: every live order ends, and no order is taken any more.
    CloseDay,
}

impl Action {
    /// The word of the command, in scripts, on lines and in the log: `kill`, `lift`, `limit`, `restrict`,
    /// `unrestrict`, `grant`, `revoke` or `close`.
    pub fn word(&self) -> &'static [u8]
        ensures { result.now ≡ command_word self.now }
    {
        match self {
            Action::Kill(_) => b"kill",
            Action::Lift(_) => b"lift",
            Action::SetLimit(_, _) => b"limit",
            Action::Restrict(_, _) => b"restrict",
            Action::Unrestrict(_, _) => b"unrestrict",
            Action::Grant(_, _) => b"grant",
            Action::Revoke(_, _) => b"revoke",
            Action::CloseDay => b"close",
        }
    }
}

/// A command of an officer.
#[derive(Clone, Copy, PartialEq, Eq)]
pub struct Command {
    /// What the answer has to echo.
    pub tag: Tag,
    /// What is to be done.
    pub action: Action,
}

/// What an officer is told of a command: the code of its answer.
#[derive(Clone, Copy, PartialEq, Eq)]
pub enum AnswerCode {
    /// `OK`: it is granted.
    Done,
    /// `PL`, partly lifted: a Lift is granted, and the account is still killed until another officer lifts it too.
    PartlyLifted,
    /// `Q1`: an account, a reader, a stock or a rule is unknown, or the rule has no such setting.
    UnknownName,
    /// `Q2`: the officer lacks the power.
    NoPower,
    /// `Q3`: an account concerned is not his.
    NotHisAccount,
    /// `Q4`: nothing would change.
    NoChange,
}

/// What an officer is told of a command, but for its timestamp: Answer, `Q`, 34 bytes.
#[derive(Clone, Copy, PartialEq, Eq)]
pub struct Answer {
    /// The tag of the command.
    pub tag: Tag,
    /// The type byte of the command.
    pub command_type: u8,
    /// What became of it.
    pub code: AnswerCode,
    /// The number of the record that the command made.
    pub record_number: u64,
}

/// One side of a fill, as a reader sees it, but for its timestamp: drop copy, 49 bytes.
#[derive(Clone, Copy, PartialEq, Eq)]
pub struct DropCopy {
    /// What the order's trader is told.
    pub executed: Executed,
    /// The account of the order.
    pub account: AccountName,
    /// The side of the order: `B`, `S`, `T` or `E`.
    pub side: u8,
}
