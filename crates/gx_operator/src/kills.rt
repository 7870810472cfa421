//! What becomes of the accounts of one command that kills several.

ghost use Rattle.std.specs.{Prelude.{◌≡◌, ◌↔◌, [], filter, IfOk, OnOk, OnErr, IsTrue}, List.{list_any, list_all}};
ghost use Rattle.gx_operator.specs.{Answering.answers_request, Kills.{round_behind, answer_heard, outcome_of_code, outcome_of, kill_outcome, place_of, came_to, count_of, is_stopped, kills_status}, declared.kills.KillOutcome.TheVariants.NotAnswered};
ghost use Rattle.gx_history.specs.declared.report.Message.TheVariants as messages;

use crate::asked::{ClientRequest, answers};
use gx_desk::{Answer, AnswerCode};
use gx_history::report::Message;
use gx_units::OutOfMemory;
use std::alloc::Global;
use std::marker::Model;

/// What became of an account whose Kill was asked for.
#[derive(Clone, Copy, PartialEq, Eq)]
pub enum KillOutcome {
    /// `OK`: it was killed.
    Killed,
    /// `Q4`: it was killed already.
    KilledAlready,
    /// A rule denied the Kill.
    Denied,
    /// No answer was heard: it may be killed or not.
    NotAnswered,
}

/// The Kills of one command, and the answers to them that were heard.
#[derive(Drop)]
pub struct KillRound {
    kills: Vec<ClientRequest>,
    heard: Vec<Answer>,
}

impl Model for KillRound {
    ghost use Rattle.gx_operator.specs.Kills.{KillRoundData};

    ghost Value = { KillRoundData };

    ghost view = { λ r. record { kills = r.kills.items; heard = r.heard.items } };
}

fn outcome_of_code(code: AnswerCode) -> KillOutcome
    ensures { result ≡ outcome_of_code code }
{
    match code {
        AnswerCode::Done => KillOutcome::Killed,
        AnswerCode::NoChange => KillOutcome::KilledAlready,
        AnswerCode::PartlyLifted
        | AnswerCode::UnknownName
        | AnswerCode::NoPower
        | AnswerCode::NotHisAccount => KillOutcome::Denied,
    }
}

fn outcome_of(answer: Option<Answer>) -> KillOutcome
    ensures { result ≡ outcome_of answer }
{
    match answer {
        None => KillOutcome::NotAnswered,
        Some(answer) => outcome_of_code(answer.code),
    }
}

fn place_of(outcome: KillOutcome) -> u8
    ensures { result ≡ place_of outcome }
{
    match outcome {
        KillOutcome::Killed => 0,
        KillOutcome::KilledAlready => 1,
        KillOutcome::Denied => 2,
        KillOutcome::NotAnswered => 3,
    }
}

/// Whether the answer is one to this Kill: by its tag.
fn is_answer_to(answer: Answer, kill: &ClientRequest) -> bool
    ensures { result ≡ answers_request (messages.Answer answer) kill.now }
{
    answers(&Message::Answer(answer), kill)
}

impl KillRound {
    /// The round of these Kills, none of which is answered.
    pub(crate) fn new(alloc: Global, kills: Vec<ClientRequest>) -> KillRound
        ensures { result ≡ record { kills = kills.items; heard = [] } }
    {
        KillRound {
            kills,
            heard: Vec::new(alloc),
        }
    }

    /// The Kills, in the order in which they were asked for.
    pub fn kills(&self) -> &[ClientRequest]
        ensures { result.now ≡ self.now.kills }
    {
        self.kills.as_slice()
    }

    /// Whether the message answers one of the Kills.
    pub(crate) fn is_answered_by(&self, message: &Message) -> bool
        ensures { result ≡ list_any (answers_request message.now) self.now.kills }
    {
        self.kills.iter().any(|kill| answers(message, kill))
    }

    /// Hears a message, and keeps it where it answers one of the Kills.
    pub(crate) fn hear(&mut self, message: &Message) -> Result<(), OutOfMemory>
        ensures heard { OnOk result (self.new ≡ round_behind message.now self.old) }
        ensures unchanged { OnErr result (self.new ≡ self.old) }
    {
        let is_own = self.is_answered_by(message);
        let Message::Answer(answer) = message else {
            return Ok(());
        };
        if !is_own {
            return Ok(());
        }
        self.heard.push(*answer)?;
        Ok(())
    }

    /// The first answer to a Kill, if one was heard.
    fn answer_heard(&self, kill: &ClientRequest) -> Option<Answer>
        ensures { result ≡ answer_heard self.now.heard kill.now }
    {
        self.heard
            .iter()
            .copied()
            .find(|answer| is_answer_to(*answer, kill))
    }

    /// What became of the account of a Kill.
    pub fn outcome(&self, kill: &ClientRequest) -> KillOutcome
        ensures { result ≡ kill_outcome self.now kill.now }
    {
        outcome_of(self.answer_heard(kill))
    }

    /// Whether the account of a Kill came to this.
    pub fn came_to(&self, wanted: KillOutcome, kill: &ClientRequest) -> bool
        ensures { result ≡ came_to wanted self.now kill.now }
    {
        place_of(self.outcome(kill)) == place_of(wanted)
    }

    /// How many accounts came to this.
    pub fn count(&self, wanted: KillOutcome) -> usize
        ensures { result ≡ count_of wanted self.now }
    {
        self.kills
            .iter()
            .filter(|kill| self.came_to(wanted, kill))
            .count()
    }

    /// Whether any account came to this.
    fn has_any(&self, wanted: KillOutcome) -> bool
        ensures { result ≡ list_any (came_to wanted self.now) self.now.kills }
    {
        self.kills.iter().any(|kill| self.came_to(wanted, kill))
    }

    /// The status that the round comes to: 7 where an account has no answer, else 5 where one was denied, else 0, which it
    /// is exactly where each is killed at the end.
    pub fn status(&self) -> u8
        ensures exact { result ≡ kills_status self.now }
        ensures zero { (result ≡ 0)
            ↔ IsTrue (list_all (λ kill. is_stopped (kill_outcome self.now kill)) self.now.kills) }
    {
        self.status_counted()
    }

    fn status_counted(&self) -> u8
        ensures { result ≡ kills_status self.now }
    {
        if self.has_any(KillOutcome::NotAnswered) {
            return 7;
        }
        if self.has_any(KillOutcome::Denied) {
            5
        } else {
            0
        }
    }

    /// The Kills that have no answer, in order.
    ///
    /// # Errors
    ///
    /// `OutOfMemory` where memory was refused.
    pub fn unanswered(&self) -> Result<Vec<ClientRequest>, OutOfMemory>
        ensures { IfOk result (λ left. left.items
            ≡ filter (came_to NotAnswered self.now) self.now.kills) }
    {
        let mut left = self.kills.clone()?;
        self.keep_unanswered(&mut left);
        Ok(left)
    }

    /// Lets go of the Kills that have an answer.
    fn keep_unanswered(&self, left: &mut Vec<ClientRequest>)
        ensures { left.new.items ≡ filter (came_to NotAnswered self.now) left.old.items }
    {
        left.retain(|kill| self.came_to(KillOutcome::NotAnswered, kill));
    }
}
