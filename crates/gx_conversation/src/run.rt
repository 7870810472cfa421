//! A run over a stream.

ghost use Rattle.std.specs.Prelude.{◌≡◌, false};

use crate::fault::Fault;
use crate::named::{all_name_orders, named_order};
use crate::page::{PageUse, Pause};
use crate::timer::Timer;
use crossbeam_channel::Receiver;
use gx_client::{ClientSession, ServerFeeder, heartbeat_packet, logout_packet};
use gx_operator::Operator;
use gx_soup::LoginRequest;
use gx_terminal::{KnownLimit, Wish};
use gx_text::Form;
use gx_units::{AccountName, unpadded};
use std::alloc::Global;
use std::io::{Read, Write};
use std::sync::Wait;
use std::time::Clock;

/// So many milliseconds behind the last packet it sent, a client sends a heartbeat.
const HEARTBEAT_AFTER_MILLIS: u64 = 1_000;

/// Behind so many milliseconds in which nothing was heard the line is taken for broken.
const IDLE_TIMEOUT_MILLIS: u64 = 15_000;

/// An answer is waited for so many milliseconds.
const ANSWER_WAIT_MILLIS: u64 = 5_000;

/// That of a replace or a cancel, which may never come, so many.
const CHANGE_WAIT_MILLIS: u64 = 1_000;

/// Behind its logout a client waits so many milliseconds for the server to close the line.
const LOGOUT_WAIT_MILLIS: u64 = 1_000;

/// What is told of a line that broke, where the gate is called again.
const BROKEN: &[u8] = b"gate: the line broke; the gate is called again each second\n";

/// What is told of what was asked on a line that broke, and never answered.
const LOST: &[u8] =
    b"gate: no answer to what was asked when the line broke: the gate may not have heard it\n";

/// Where a run stands.
#[derive(Clone, Copy, PartialEq, Eq)]
pub(crate) enum Phase {
    /// The login is not answered yet.
    LoggingIn,
    /// Lines are obeyed.
    Talking,
    /// The server has ended the session; lines may come all the same.
    Ended,
    /// It has logged out, and waits for the server to close the line.
    Leaving,
    /// It is over.
    Over,
}

/// What a run begins with.
#[derive(Drop)]
pub struct Setup {
    /// The Login Request that it sends first.
    pub login: LoginRequest,
    /// How lines are written.
    pub form: Form,
    /// The milliseconds past midnight, of which its tags and tokens are made.
    pub start: u32,
    /// The accounts that `kill --all` kills, where they are known.
    pub accounts: Option<Vec<AccountName>>,
    /// The limits of rules, where they are known.
    pub limits: Vec<KnownLimit>,
    /// Whether the server's page tells accounts and limits, each time that a line needs them.
    pub asks_page: bool,
    /// Whether a limit of a value that is under a tenth of the one before is sent only once a line says yes.
    pub asks_first: bool,
    /// The name of the file that alone tells these accounts, if one does.
    pub file: Option<Vec<u8>>,
    /// The one command, where there is but one; behind `watch` lines come all the same.
    pub command: Option<Vec<u8>>,
}

/// A run of the client over a stream, whose reads end in time where nothing comes. Answers go to `out`, all else to `err`.
#[derive(Drop)]
pub struct Run<S: Drop, O: Drop, E: Drop> {
    pub(crate) alloc: Global,
    pub(crate) stream: S,
    pub(crate) out: O,
    pub(crate) err: E,
    pub(crate) feeder: ServerFeeder,
    pub(crate) session: ClientSession,
    pub(crate) operator: Operator,
    pub(crate) form: Form,
    pub(crate) accounts: Option<Vec<AccountName>>,
    pub(crate) limits: Vec<KnownLimit>,
    pub(crate) page: PageUse,
    pub(crate) asks_first: bool,
    /// What waits for a yes.
    pub(crate) unconfirmed: Option<Wish>,
    pub(crate) file: Option<Vec<u8>>,
    /// Whether several Kills of one command were asked for of which is not told yet what became of them.
    pub(crate) has_kills: bool,
    /// Whether these are those of `kill --all`.
    pub(crate) is_of_all: bool,
    /// The highest status that several Kills of one command came to.
    pub(crate) kills_status: u8,
    /// The one command, until it is obeyed.
    pub(crate) command: Option<Vec<u8>>,
    /// Whether no line is obeyed behind it.
    pub(crate) is_single: bool,
    pub(crate) phase: Phase,
    pub(crate) has_bad_words: bool,
    pub(crate) is_unmet: bool,
    /// The number of the report that the gate sends again behind the login, if it has sent one before.
    pub(crate) repeated: Option<u64>,
    /// Whether it goes on over another stream than it began on.
    pub(crate) is_taken_up: bool,
    /// Whether anything was asked on a line that broke, and never answered.
    pub(crate) is_lost: bool,
    /// Whether an answer was heard since `take_answered` was called last: where it watches, any report is one.
    pub(crate) is_answered: bool,
    /// When something was sent last.
    pub(crate) sent: Timer,
    /// When something was heard last.
    pub(crate) heard: Timer,
    /// When what is waited for was asked.
    pub(crate) asked: Timer,
}

impl<S: Read + Write + Drop, O: Write + Drop, E: Write + Drop> Run<S, O, E> {
    /// A run over this stream, which has sent nothing yet.
    pub fn new<R: Clock>(
        rt: &R,
        alloc: Global,
        setup: Setup,
        stream: S,
        out: O,
        err: E,
    ) -> Run<S, O, E> {
        let now = Timer::start(rt);
        Run {
            alloc,
            stream,
            out,
            err,
            feeder: ServerFeeder::new(alloc),
            session: ClientSession::new(setup.login),
            operator: Operator::new(alloc, setup.form, setup.start),
            form: setup.form,
            accounts: setup.accounts,
            limits: setup.limits,
            page: PageUse::new(setup.asks_page),
            asks_first: setup.asks_first,
            unconfirmed: None,
            file: setup.file,
            has_kills: false,
            is_of_all: false,
            kills_status: 0,
            is_single: setup.command.is_some(),
            command: setup.command,
            phase: Phase::LoggingIn,
            has_bad_words: false,
            is_unmet: false,
            repeated: None,
            is_taken_up: false,
            is_lost: false,
            is_answered: false,
            sent: now,
            heard: now,
            asked: now,
        }
    }

    /// Logs in, and waits until that is answered.
    ///
    /// # Errors
    ///
    /// The fault that ends the run.
    pub fn log_in<R: Wait + Clock>(&mut self, rt: &R) -> Result<(), Fault> {
        let packet = self.session.login_packet(self.alloc)?;
        self.send(rt, packet.as_slice())?;
        for _ in rt.forever() {
            self.read_reports(rt)?;
            self.keep_time(rt)?;
            if self.phase != Phase::LoggingIn {
                break;
            }
        }
        Ok(())
    }

    /// Whether anything that was asked was answered since this was called last: a login is no answer. Where it watches, any
    /// report is one.
    pub fn take_answered(&mut self) -> bool
        ensures was { result ≡ self.old.is_answered }
        ensures taken { self.new.is_answered ≡ false }
    {
        let was = self.is_answered;
        self.is_answered = false;
        was
    }

    /// Tells that the line broke, and that the gate is called again.
    pub fn tell_broken(&mut self) {
        let _ = self.err.write_all(BROKEN);
    }

    /// Goes on over another stream, from the report behind the last one that it heard: logs in, and waits until that is
    /// answered. What waits for an answer is not asked again, since its answer may come among these reports; but for the Kills
    /// of a command that asks for several, for which a second time changes nothing: the first answer to each holds.
    ///
    /// # Errors
    ///
    /// The fault that ends the run.
    pub fn take_up<R: Wait + Clock>(&mut self, rt: &R, stream: S) -> Result<(), Fault> {
        self.stream = stream;
        self.feeder = ServerFeeder::new(self.alloc);
        self.session = ClientSession::new(self.session.login_request());
        self.phase = Phase::LoggingIn;
        self.is_taken_up = true;
        self.asked = Timer::start(rt);
        self.heard = self.asked;
        self.log_in(rt)?;
        self.ask_unanswered(rt)
    }

    /// Obeys the one command, or the lines that come, each once the one before is answered, until a None comes or nobody
    /// sends any more; then it logs out. Where a line needs what the server's page tells it pauses before, and goes on once it
    /// is called again, behind `take_page` or `miss_page`.
    ///
    /// # Errors
    ///
    /// The fault that ends the run.
    pub fn follow<R: Wait + Clock>(
        &mut self,
        rt: &R,
        lines: &Receiver<Option<Vec<u8>>, Global>,
    ) -> Result<Pause, Fault> {
        for _ in rt.forever() {
            if self.phase == Phase::Over {
                break;
            }
            if self.page.is_wanted {
                return Ok(Pause::WantsPage);
            }
            self.turn(rt, lines)?;
        }
        Ok(Pause::Over)
    }

    /// The status of what was answered so far: 0; 1 where something was lost with a line, or the page told nothing; 2 where a line could not be read;
    /// 5 where anything was denied or rejected, or not answered since there was no such order; 7 where one of several Kills was
    /// not answered. The highest of them holds.
    pub fn status(&self) -> u8 {
        let lost = if self.is_lost || self.page.was_missed {
            1
        } else {
            0
        };
        let words = if self.has_bad_words { 2 } else { 0 };
        let unmet = if self.is_unmet { 5 } else { 0 };
        let told = self.operator.status().max(self.kills_status);
        told.max(lost).max(words).max(unmet)
    }

    fn turn<R: Wait + Clock>(
        &mut self,
        rt: &R,
        lines: &Receiver<Option<Vec<u8>>, Global>,
    ) -> Result<(), Fault> {
        if self.phase == Phase::Ended {
            return self.await_no_line(rt, lines);
        }
        self.read_reports(rt)?;
        self.keep_time(rt)?;
        self.settle_kills()?;
        self.obey_lines(rt, lines)
    }

    pub(crate) fn send<R: Clock>(&mut self, rt: &R, packet: &[u8]) -> Result<(), Fault> {
        self.sent = Timer::start(rt);
        match self.stream.write_all(packet) {
            Ok(()) => Ok(()),
            Err(_) => Err(Fault::LineBroke),
        }
    }

    /// Logs out.
    pub(crate) fn leave<R: Clock>(&mut self, rt: &R) -> Result<(), Fault> {
        self.phase = Phase::Leaving;
        self.asked = Timer::start(rt);
        let packet = logout_packet(self.alloc)?;
        self.send(rt, packet.as_slice())
    }

    fn keep_time<R: Clock>(&mut self, rt: &R) -> Result<(), Fault> {
        if self.heard.has_passed(rt, IDLE_TIMEOUT_MILLIS) {
            return Err(Fault::LineBroke);
        }
        match self.phase {
            Phase::LoggingIn => self.await_login(rt),
            Phase::Talking => self.await_answers(rt),
            Phase::Leaving => {
                self.await_close(rt);
                Ok(())
            }
            Phase::Ended | Phase::Over => Ok(()),
        }
    }

    fn await_login<R: Clock>(&mut self, rt: &R) -> Result<(), Fault> {
        if self.asked.has_passed(rt, ANSWER_WAIT_MILLIS) {
            return Err(Fault::NoAnswer);
        }
        Ok(())
    }

    fn await_close<R: Clock>(&mut self, rt: &R) {
        if self.asked.has_passed(rt, LOGOUT_WAIT_MILLIS) {
            self.phase = Phase::Over;
        }
    }

    fn await_answers<R: Clock>(&mut self, rt: &R) -> Result<(), Fault> {
        if !self.operator.waiting().is_empty() {
            if self.asked.has_passed(rt, ANSWER_WAIT_MILLIS) {
                self.lose()?;
            }
            self.look_for_unmet(rt);
        }
        self.beat(rt)
    }

    /// What waits is not answered in time: behind a line that broke that is told, and the run goes on.
    fn lose(&mut self) -> Result<(), Fault> {
        if !self.is_taken_up {
            return Err(Fault::NoAnswer);
        }
        self.is_lost = true;
        self.operator.give_up();
        let _ = self.err.write_all(LOST);
        Ok(())
    }

    fn beat<R: Clock>(&mut self, rt: &R) -> Result<(), Fault> {
        if !self.sent.has_passed(rt, HEARTBEAT_AFTER_MILLIS) {
            return Ok(());
        }
        let packet = heartbeat_packet(self.alloc)?;
        self.send(rt, packet.as_slice())
    }

    /// A replace or a cancel that is not answered in a second names no live order.
    fn look_for_unmet<R: Clock>(&mut self, rt: &R) {
        if all_name_orders(self.operator.waiting())
            && self.asked.has_passed(rt, CHANGE_WAIT_MILLIS)
        {
            self.tell_unmet();
            self.operator.give_up();
            self.is_unmet = true;
        }
    }

    fn tell_unmet(&mut self) {
        for asked in self.operator.waiting() {
            if let Some(token) = named_order(asked) {
                let _ = self
                    .err
                    .write_all(b"gate: no order of yours is live under ");
                let _ = self.err.write_all(unpadded(&token.bytes));
                let _ = self.err.write_all(b"\n");
            }
        }
    }
}
