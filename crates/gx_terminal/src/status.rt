//! The status of a run.

ghost use Rattle.std.specs.Prelude.{◌≡◌, [], ◌∷◌, ◌++◌, List};
ghost use Rattle.gx_history.specs.declared.report.Message.{Message};
ghost use Rattle.gx_terminal.specs.Statuses.{is_denying, is_rejecting, is_denial, status_of};

use gx_desk::AnswerCode;
use gx_history::report::Message;
use gx_ouch::Outbound;
use std::marker::Model;

/// The status of a run, by what was answered so far to its own commands and orders: 5 where anything was denied, else 0.
#[derive(Drop)]
pub struct Status {
    is_denied: bool,
}

impl Model for Status {
    ghost use Rattle.std.specs.Prelude.{ℕ, if◌then◌else◌};

    ghost Value = { ℕ };

    ghost view = { λ status. if status.is_denied then 5 else 0 };
}

impl Status {
    /// The status of a run to which nothing was answered yet.
    pub fn new() -> Status
        ensures { result ≡ status_of [] }
    {
        Status { is_denied: false }
    }

    /// Counts in what was answered.
    pub fn note(&mut self, answered: &Message)
        ensures { (told : List Message) → self.old ≡ status_of told
            → self.new ≡ status_of (told ++ answered.now ∷ []) }
    {
        self.is_denied |= is_denial(answered);
    }

    /// The status: 0 or 5.
    pub fn code(&self) -> u8
        ensures { result ≡ self.now }
    {
        if self.is_denied { 5 } else { 0 }
    }
}

fn is_denial(answered: &Message) -> bool
    ensures { result ≡ is_denial answered.now }
{
    match answered {
        Message::Answer(answer) => is_denying(answer.code),
        Message::Order(message) => is_rejecting(message),
        Message::DropCopy(_) => false,
    }
}

fn is_denying(code: AnswerCode) -> bool
    ensures { result ≡ is_denying code }
{
    match code {
        AnswerCode::Done | AnswerCode::PartlyLifted => false,
        AnswerCode::UnknownName
        | AnswerCode::NoPower
        | AnswerCode::NotHisAccount
        | AnswerCode::NoChange => true,
    }
}

fn is_rejecting(message: &Outbound) -> bool
    ensures { result ≡ is_rejecting message.now }
{
    matches!(message, Outbound::Rejected(_))
}
