//! A run of the client: what it asks, what it waits for, and what it shows.

ghost use Rattle.std.specs.{Prelude.{◌≡◌, ◌∷◌, ◌++◌, ◌+◌, [], List, option_map, IfOk, OnOk, OnErr, true, false}, List.list_any};
ghost use Rattle.gx_history.specs.declared.report.Message.{Message};
ghost use Rattle.gx_lines.specs.declared.limits.LimitForm.TheVariants.{Number};
ghost use Rattle.gx_terminal.specs.Statuses.{status_of};
ghost use Rattle.gx_operator.specs.{Asking.{Carries, request_wished, next_serial, first_of, kills_of}, Answering.{answers_request}, Hearing.{answered_by, still_waiting, is_counted, own_answer, shown_line}, Kills.{round_behind}};

use crate::asked::{ClientRequest, answers, asked_of, kills_of};
use crate::kills::KillRound;
use crate::telling::{is_of_run, shown_answer, shown_copy, shown_order};
use gx_history::report::Message;
use gx_lines::LimitForm;
use gx_terminal::{Status, Wish};
use gx_text::Form;
use gx_units::{AccountName, Moment, OutOfMemory};
use std::alloc::Global;
use std::marker::Model;

/// A run of the client.
#[derive(Drop)]
pub struct Operator {
    alloc: Global,
    form: Form,
    limit_form: LimitForm,
    first: u64,
    next: u64,
    waiting: Vec<ClientRequest>,
    round: KillRound,
    is_watching: bool,
    status: Status,
}

impl Model for Operator {
    ghost use Rattle.gx_operator.specs.Hearing.{ClientState};

    ghost Value = { ClientState };

    ghost view = { λ o. record {
      form = o.form;
      limit_form = o.limit_form;
      first = o.first;
      next = o.next;
      waiting = o.waiting.items;
      round = o.round;
      is_watching = o.is_watching;
      status = o.status;
    } };
}

impl Operator {
    /// A run that began so many milliseconds past midnight, and writes lines so. Nothing was asked.
    pub fn new(alloc: Global, form: Form, start: u32) -> Operator
        ensures { result ≡ record {
          form = form;
          limit_form = Number;
          first = first_of start;
          next = first_of start;
          waiting = [];
          round = record { kills = []; heard = [] };
          is_watching = false;
          status = status_of [];
        } }
    {
        let first = u64::from(start) * 1_000_000;
        Operator {
            alloc,
            form,
            limit_form: LimitForm::Number,
            first,
            next: first,
            waiting: Vec::new(alloc),
            round: KillRound::new(alloc, Vec::new(alloc)),
            is_watching: false,
            status: Status::new(),
        }
    }

    /// The command or the order that is wished, under the next serial; None where the wish is neither.
    pub fn asked(&self, wish: &Wish) -> Option<ClientRequest>
        ensures { result ≡ request_wished self.now.next wish.now }
    {
        asked_of(self.next, wish)
    }

    /// What `kill --all` asks for: a Kill of each account, in the order of the list, under the next serials.
    ///
    /// # Errors
    ///
    /// `OutOfMemory` where memory was refused.
    pub fn kills(&self, accounts: &[AccountName]) -> Result<Vec<ClientRequest>, OutOfMemory>
        ensures { IfOk result (λ kills. kills.items ≡ kills_of self.now.next accounts.now) }
    {
        kills_of(self.alloc, self.next, accounts)
    }

    /// From now on it is these Kills of one command whose answers are counted: none is asked yet.
    pub fn begin_kills(&mut self, kills: Vec<ClientRequest>)
        ensures { self.new ≡ record self.old {
          round = record { kills = kills.items; heard = [] };
        } }
    {
        self.round = KillRound::new(self.alloc, kills);
    }

    /// The Kills of the last command that asked for several, and what became of them.
    pub fn round(&self) -> &KillRound
        ensures { result.now ≡ self.now.round }
    {
        &self.round
    }

    /// The packet that asks this. From now on its answer is waited for, and the next serial is the one behind.
    ///
    /// # Errors
    ///
    /// `OutOfMemory` where memory was refused; then nothing has changed.
    pub fn ask(&mut self, asked: &ClientRequest) -> Result<Vec<u8>, OutOfMemory>
        ensures carries { IfOk result (λ bytes. Carries bytes.items asked.now) }
        ensures waits { OnOk result (self.new ≡ record self.old {
          waiting = self.old.waiting ++ asked.now ∷ [];
          next = next_serial self.old.next;
        }) }
        ensures unchanged { OnErr result (self.new ≡ self.old) }
    {
        let packet = asked.packet(self.alloc)?;
        self.waiting.push(*asked)?;
        self.next = self.next.saturating_add(1);
        Ok(packet)
    }

    /// From now on all that comes is shown.
    pub fn watch(&mut self)
        ensures { self.new ≡ record self.old { is_watching = true } }
    {
        self.is_watching = true;
    }

    /// From now on the limit of a Set Limit is told so.
    pub fn tell_limits(&mut self, told: LimitForm)
        ensures { self.new ≡ record self.old { limit_form = told } }
    {
        self.limit_form = told;
    }

    /// Whether all that comes is shown.
    pub fn is_watching(&self) -> bool
        ensures { result ≡ self.now.is_watching }
    {
        self.is_watching
    }

    /// What waits for an answer, what was asked first in front.
    pub fn waiting(&self) -> &[ClientRequest]
        ensures { result.now ≡ self.now.waiting }
    {
        self.waiting.as_slice()
    }

    /// Waits for no answer any more.
    pub fn give_up(&mut self)
        ensures { self.new ≡ record self.old { waiting = [] } }
    {
        self.waiting.clear();
    }

    /// The status: 0, or 5 where anything was denied or rejected.
    pub fn status(&self) -> u8
        ensures { result ≡ self.now.status }
    {
        self.status.code()
    }

    /// Hears a message of this moment: the line that is shown of it, if one is. What it answers waits no longer, and counts
    /// for the status; of one of several Kills the round is told, which has a status of its own.
    ///
    /// # Errors
    ///
    /// `OutOfMemory` where memory was refused; then nothing has changed.
    pub fn hear(
        &mut self,
        moment: Moment,
        message: &Message,
    ) -> Result<Option<Vec<u8>>, OutOfMemory>
        ensures line { IfOk result (λ line. option_map (λ l. l.items) line
            ≡ shown_line self.old moment message.now) }
        ensures waiting { OnOk result (self.new ≡ record self.old {
          waiting = still_waiting message.now self.old.waiting;
          round = round_behind message.now self.old.round;
          status = self.new.status;
        }) }
        ensures status { OnOk result ((told : List Message) → self.old.status ≡ status_of told
            → self.new.status ≡ status_of (told ++ own_answer message.now self.old)) }
        ensures unchanged { OnErr result (self.new ≡ self.old) }
    {
        let line = self.line_of(moment, message)?;
        self.round.hear(message)?;
        self.note(message);
        Ok(line)
    }

    /// The line that is shown of a message of this moment that was sent before the run, if one is: it answers nothing.
    ///
    /// # Errors
    ///
    /// `OutOfMemory` where memory was refused.
    pub fn earlier_line(
        &self,
        moment: Moment,
        message: &Message,
    ) -> Result<Option<Vec<u8>>, OutOfMemory>
        ensures { IfOk result (λ line. option_map (λ l. l.items) line
            ≡ shown_line (record self.now { waiting = [] }) moment message.now) }
    {
        let (alloc, form, is_watching) = (self.alloc, self.form, self.is_watching);
        match message {
            Message::Answer(answer) => {
                shown_answer(
                    alloc,
                    form,
                    self.limit_form,
                    moment,
                    is_watching,
                    answer,
                    None,
                )
            }
            Message::Order(order) => {
                let is_shown = is_watching || is_of_run(self.first, order);
                shown_order(alloc, form, moment, is_shown, order)
            }
            Message::DropCopy(copy) => shown_copy(alloc, form, moment, is_watching, copy),
        }
    }

    /// Whether the message answers anything that waits.
    fn is_answer(&self, message: &Message) -> bool
        ensures { result ≡ list_any (answers_request message.now) self.now.waiting }
    {
        self.waiting.iter().any(|asked| answers(message, asked))
    }

    /// What the message answers.
    fn answered_by(&self, message: &Message) -> Option<ClientRequest>
        ensures { result ≡ answered_by message.now self.now.waiting }
    {
        self.waiting
            .iter()
            .copied()
            .find(|asked| answers(message, asked))
    }

    fn line_of(&self, moment: Moment, message: &Message) -> Result<Option<Vec<u8>>, OutOfMemory>
        ensures { IfOk result (λ line. option_map (λ l. l.items) line
            ≡ shown_line self.now moment message.now) }
    {
        let (alloc, form, is_watching) = (self.alloc, self.form, self.is_watching);
        match message {
            Message::Answer(answer) => {
                let asked = self.answered_by(message);
                shown_answer(
                    alloc,
                    form,
                    self.limit_form,
                    moment,
                    is_watching,
                    answer,
                    asked,
                )
            }
            Message::Order(order) => {
                let is_shown = is_watching
                    || is_of_run(self.first, order)
                    || self.is_answer(message);
                shown_order(alloc, form, moment, is_shown, order)
            }
            Message::DropCopy(copy) => shown_copy(alloc, form, moment, is_watching, copy),
        }
    }

    fn note(&mut self, message: &Message)
        ensures waiting { self.new ≡ record self.old {
          waiting = still_waiting message.now self.old.waiting;
          status = self.new.status;
        } }
        ensures status { (told : List Message) → self.old.status ≡ status_of told
            → self.new.status ≡ status_of (told ++ own_answer message.now self.old) }
    {
        self.count(message);
        remove_answered(&mut self.waiting, message);
    }

    /// Whether the message answers anything that waits, and none of several Kills.
    fn is_counted(&self, message: &Message) -> bool
        ensures { result ≡ is_counted message.now self.now }
    {
        self.is_answer(message) && !self.round.is_answered_by(message)
    }

    /// Counts what answers anything but one of several Kills.
    fn count(&mut self, message: &Message)
        ensures others { self.new ≡ record self.old { status = self.new.status } }
        ensures status { (told : List Message) → self.old.status ≡ status_of told
            → self.new.status ≡ status_of (told ++ own_answer message.now self.old) }
    {
        if self.is_counted(message) {
            self.status.note(message);
        }
    }
}

/// Lets go of what the message answers.
fn remove_answered(waiting: &mut Vec<ClientRequest>, message: &Message)
    ensures { waiting.new.items ≡ still_waiting message.now waiting.old.items }
{
    waiting.retain(|asked| !answers(message, asked));
}
