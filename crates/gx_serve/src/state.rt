//! What the two threads of a connection share under its lock.

ghost use Rattle.std.specs.Prelude.{◌≡◌, IsFalse, IsTrue, is_some, true, IfErr, IfOk, OnOk};
ghost use Rattle.gx_history.specs.Showing.{has_its_first};
ghost use Rattle.gx_control.specs.PullCursors.{pull_cursor};
ghost use Rattle.gx_session.specs.{Events.{is_over, CanAsk}, Happenings.happening_of, Outboxes.{empty, left_after}, Table.{turn, new_session}};
ghost use Rattle.gx_session.specs.Happenings as happens;
ghost use Rattle.gx_door.specs.Acts.{asked_on, gate_met, history_met};
ghost use Rattle.gx_serve.specs.{States.{user_after, WasFollowed, Heeds, WasAnswered, WasLoggedOut, WasRefused, WasTaken, WasTold, WasToldRefusal, WasTurned}, Announcements.{Announces, WasAnnounced}, Breaks.break_of, Tellings.is_idle_event};
ghost use Rattle.gx_access_gate.specs.Matches.{matching_of};

pub mod outgoing;
pub mod resting;
pub mod settling;
pub mod taking;

use crate::announcing::{Announced, EndedOrders, announced_of};
use crate::conduct::Conduct;
use gx_access_gate::StepFault;
use gx_control::{Notified, PullCursor, ShutdownAsked};
use gx_door::{Caller, Dial, Door};
use gx_history::record::Request;
use gx_session::{Event, Next, Outbox, Session};
use gx_soup::{ClientPacket, LoginRequest};
use gx_units::{Moment, UserName};
use std::marker::Model;
use std::sync::Wait;

/// So many matching steps are made at most behind a request's step, before others come in between.
pub(crate) const STEPS: u64 = 8;

/// What breaks a session off, other than a packet or the end of its input.
#[derive(Clone, Copy)]
pub enum Break {
    /// A step, or room for what came, was refused.
    Refused(StepFault),
    /// Bytes that are no packets, or a device that failed.
    Fault,
}

impl Break {
    /// What the session is told.
    fn event<'a>(self) -> Event<'a>
        ensures { happening_of result ≡ break_of self }
    {
        match self {
            Break::Refused(fault) => Event::Refused(fault),
            Break::Fault => Event::Fault,
        }
    }
}

/// That a session was told of what breaks it off. A [`ConnectionState`] alone makes one.
#[derive(Drop)]
pub struct BrokenOff {
    cause: Break,
}

impl Model for BrokenOff {
    ghost use Rattle.gx_session.specs.Happenings.{Happening};
    ghost use Rattle.gx_serve.specs.Breaks.{break_of};

    ghost Value = { Happening };

    ghost view = { λ b. break_of b.cause };
}

/// That a session was told of a packet, what is to be announced of it, and whether it was over then. A [`ConnectionState`]
/// alone makes one.
#[derive(Drop)]
pub struct TakenPacket<'a> {
    event: Event<'a>,
    ended: Option<EndedOrders>,
    over: bool,
}

impl<'a> Model for TakenPacket<'a> {
    ghost use Rattle.gx_session.specs.Happenings.{happening_of};
    ghost use Rattle.gx_serve.specs.Tellings.{TakenPacketData};

    ghost Value = { TakenPacketData };

    ghost view = { λ t. record {
      event = happening_of t.event;
      ended = t.ended;
      over = t.over;
    } };
}

/// That a session was over.
#[derive(Drop)]
pub struct Over {
    _seen: (),
}

impl TakenPacket<'_> {
    /// The orders that a command ended, if the packet was one: they are to be announced.
    pub fn ended(&self) -> Option<EndedOrders>
        ensures { result ≡ self.now.ended }
    {
        self.ended
    }

    /// That the session was over, if it was, once what a command ended was announced, and the matcher was woken, unless
    /// the packet asks for nothing.
    pub fn over(&self, _announced: &Announced, _notified: &Option<Notified>) -> Option<Over>
        requires announced { _announced.now ≡ self.now.ended }
        requires notified { IsFalse (is_idle_event self.now.event)
            → IsTrue (is_some _notified.now) }
        ensures { is_some result ≡ self.now.over }
    {
        if self.over {
            Some(Over { _seen: () })
        } else {
            None
        }
    }
}

/// That a session was told of the server's end, where it was asked for. A [`ConnectionState`] alone makes one, at each look.
#[derive(Drop)]
pub struct ShutdownNoted {
    _told: (),
}

/// That a session was told of the end of its input, and that its reader has ended. A [`ConnectionState`] alone makes one.
#[derive(Drop)]
pub struct ReaderEnded {
    _told: (),
}

/// A connection's session, its pass, and what the session asked to send.
#[derive(Drop)]
pub struct ConnectionState<T: Drop> {
    session: Session,
    /// Who asked to be logged in, as he wrote his name; blank before.
    user: UserName,
    /// When he asked for it; before, when the session began.
    login: Moment,
    /// Taken out for each call of the gate.
    pass: Option<T>,
    outbox: Outbox,
    /// The reader has ended.
    reader_done: bool,
    /// The writer has looked for reports since the last step that was made with the pass, and left none.
    drained: bool,
    /// No order waited to be matched behind the last of these steps.
    is_settled: bool,
    /// The session was found silent when that was asked last.
    doubted: bool,
    /// What the writer has seen of the records.
    cursor: PullCursor,
    conduct: Conduct,
    ghost has_pass: { IsTrue (is_some pass) },
}

impl<T: Drop> ConnectionState<T> {
    /// A new session, with the pass that its steps are made with, of somebody who is this.
    pub fn new<R: Dial>(_rt: &R, pass: T, caller: Caller, moment: Moment) -> ConnectionState<T>
        requires clock { R.shown moment }
        ensures session { result.session ≡ new_session moment }
        ensures outbox { result.outbox ≡ empty }
        ensures cursor { result.cursor ≡ pull_cursor 0 true }
    {
        ConnectionState {
            session: Session::new(moment),
            user: UserName { bytes: *b"      " },
            login: moment,
            pass: Some(pass),
            outbox: Outbox::new(),
            reader_done: false,
            drained: false,
            is_settled: false,
            doubted: false,
            cursor: PullCursor::new(),
            conduct: Conduct::new(caller),
        }
    }

    /// Whether the reader has ended.
    pub fn is_reader_done(&self) -> bool
        ensures { result ≡ self.now.reader_done }
    {
        self.reader_done
    }

    /// Whether a user is logged in for whom the writer has still to look for reports.
    pub fn has_unsent_reports(&self) -> bool {
        self.session.is_on() && !self.drained
    }

    /// Makes the request's step, and the matching steps that it asks for, unless they are many. Answers what is to be
    /// announced.
    fn ask_gate<D: Door<Pass = T>, R: Wait + Dial>(
        &mut self,
        rt: &R,
        door: &D,
        request: Request,
        moment: Moment,
    ) -> Result<Option<EndedOrders>, StepFault>
        requires clock { R.shown moment }
        requires first { IsTrue (has_its_first request) }
        ensures announced { IfOk result (λ told. WasAnnounced D.policy
            (asked_on (history_met D.observed self.old.pass).line self.old.user request moment)
            (history_met D.observed self.old.pass) (history_met D.observed self.new.pass) told) }
        ensures made { OnOk result (WasTurned D.policy
            (asked_on (history_met D.observed self.old.pass).line self.old.user request moment)
            (history_met D.observed self.old.pass) (history_met D.observed self.new.pass)) }
        ensures refused { IfErr result (λ fault. WasRefused D.policy
            (asked_on (history_met D.observed self.old.pass).line self.old.user request moment)
            fault
            (history_met D.observed self.old.pass) (history_met D.observed self.new.pass)) }
        ensures settled { OnOk result (IsTrue self.new.is_settled
            → matching_of (gate_met D.policy (history_met D.observed self.new.pass)) ≡ None) }
        ensures user { self.new.user ≡ self.old.user }
        ensures login { self.new.login ≡ self.old.login }
        ensures session { self.new.session ≡ self.old.session }
        ensures outbox { self.new.outbox ≡ self.old.outbox }
        ensures cursor { self.new.cursor ≡ self.old.cursor }
    {
        let Some(pass) = self.pass.take() else {
            unreachable!()
        };
        let (pass, answer) = door.turn(rt, pass, self.user, request, moment, STEPS);
        self.pass = Some(pass);
        self.drained = false;
        match answer {
            Ok(turned) => {
                self.conduct.note(&turned.outcome.verdict);
                self.is_settled = turned.matched.end.is_idle();
                Ok(announced_of(self.user, &request, &turned.outcome, turned.ended))
            }
            Err(fault) => Err(fault),
        }
    }

    /// Makes a logout step. The session is over by now: where the step is refused, nothing more can
    /// be done. The gate refuses none that it grants.
    fn log_out<D: Door<Pass = T>, R: Wait + Dial>(&mut self, rt: &R, door: &D, moment: Moment)
        requires clock { R.shown moment }
        ensures out { WasLoggedOut D.policy self.old.user moment
            (history_met D.observed self.old.pass) (history_met D.observed self.new.pass) }
        ensures user { self.new.user ≡ self.old.user }
        ensures login { self.new.login ≡ self.old.login }
        ensures session { self.new.session ≡ self.old.session }
        ensures outbox { self.new.outbox ≡ self.old.outbox }
        ensures cursor { self.new.cursor ≡ self.old.cursor }
    {
        let Some(pass) = self.pass.take() else {
            unreachable!()
        };
        let (pass, _answer) = door.logout(rt, pass, self.user, moment);
        self.pass = Some(pass);
    }

    /// Tells the session that a step was refused, which ends it.
    fn refuse<D: Door<Pass = T>, R: Wait + Dial>(
        &mut self,
        rt: &R,
        door: &D,
        fault: StepFault,
        moment: Moment,
    )
        requires clock { R.shown moment }
        ensures told { WasToldRefusal D.policy self.old.user fault moment
            self.old.session (history_met D.observed self.old.pass)
            self.new.session (history_met D.observed self.new.pass) }
        ensures user { self.new.user ≡ self.old.user }
        ensures login { self.new.login ≡ self.old.login }
        ensures outbox { self.new.outbox ≡ self.old.outbox }
        ensures cursor { self.new.cursor ≡ self.old.cursor }
    {
        match self.session.on(Event::Refused(fault), moment).next {
            Next::Logout => self.log_out(rt, door, moment),
            Next::Idle | Next::Login | Next::Act(_) | Next::Close => {}
        }
    }

    /// Makes the step that a session asks for. Where it is refused, the session is told so. Answers what is to be announced.
    fn follow<D: Door<Pass = T>, R: Wait + Dial>(
        &mut self,
        rt: &R,
        door: &D,
        next: Next,
        moment: Moment,
    ) -> Option<EndedOrders>
        requires clock { R.shown moment }
        requires able { CanAsk next }
        ensures announced { Announces next D.policy self.old.user moment
            self.old.session (history_met D.observed self.old.pass)
            self.new.session (history_met D.observed self.new.pass) result }
        ensures follows { WasFollowed next D.policy self.old.user moment
            self.old.session (history_met D.observed self.old.pass)
            self.new.session (history_met D.observed self.new.pass) }
        ensures user { self.new.user ≡ self.old.user }
        ensures login { self.new.login ≡ self.old.login }
        ensures outbox { self.new.outbox ≡ self.old.outbox }
        ensures cursor { self.new.cursor ≡ self.old.cursor }
    {
        match next {
            Next::Act(request) => match self.ask_gate(rt, door, request, moment) {
                Ok(ended) => ended,
                Err(fault) => {
                    self.refuse(rt, door, fault, moment);
                    None
                }
            },
            Next::Logout => {
                self.log_out(rt, door, moment);
                None
            }
            Next::Idle | Next::Login | Next::Close => None,
        }
    }

    /// Tells the session of an event, makes the step that it asks for, and leaves what it asks to
    /// send. Answers what it asks for, and what is to be announced.
    pub fn tell<D: Door<Pass = T>, R: Wait + Dial>(
        &mut self,
        rt: &R,
        door: &D,
        event: Event<'_>,
        moment: Moment,
    ) -> (Next, Option<EndedOrders>)
        requires clock { R.shown moment }
        ensures next { result.0
            ≡ (turn self.old.session (happening_of event.entry) moment).reply.next }
        ensures announced { Announces
            (turn self.old.session (happening_of event.entry) moment).reply.next
            D.policy self.old.user moment
            (turn self.old.session (happening_of event.entry) moment).session
            (history_met D.observed self.old.pass)
            self.new.session (history_met D.observed self.new.pass) result.1 }
        ensures told { WasTold D.policy self.old.user (happening_of event.entry) moment
            self.old.session (history_met D.observed self.old.pass)
            self.new.session (history_met D.observed self.new.pass) }
        ensures user { self.new.user ≡ self.old.user }
        ensures login { self.new.login ≡ self.old.login }
        ensures outbox { self.new.outbox ≡ left_after self.old.outbox
            (turn self.old.session (happening_of event.entry) moment).reply.send }
        ensures cursor { self.new.cursor ≡ self.old.cursor }
    {
        let reply = self.session.on(event, moment);
        self.outbox.leave(reply.send);
        let ended = self.follow(rt, door, reply.next, moment);
        (reply.next, ended)
    }

    /// Tells the session of what breaks it off, and does what it asks for.
    pub fn break_off<D: Door<Pass = T>, R: Wait + Dial>(
        &mut self,
        rt: &R,
        door: &D,
        cause: Break,
        moment: Moment,
    ) -> BrokenOff
        requires clock { R.shown moment }
        ensures cause { result ≡ break_of cause }
        ensures told { WasTold D.policy self.old.user (break_of cause) moment
            self.old.session (history_met D.observed self.old.pass)
            self.new.session (history_met D.observed self.new.pass) }
        ensures user { self.new.user ≡ self.old.user }
        ensures outbox { self.new.outbox ≡ left_after self.old.outbox
            (turn self.old.session (break_of cause) moment).reply.send }
        ensures cursor { self.new.cursor ≡ self.old.cursor }
    {
        self.tell(rt, door, cause.event(), moment);
        BrokenOff { cause }
    }

    /// Tells the session of the server's end, where it was asked for.
    #[tactic(auto, using(crate::proofs::Session_call::ends_leave_nothing))]
    pub fn heed<D: Door<Pass = T>, R: Wait + Dial>(
        &mut self,
        rt: &R,
        door: &D,
        asked: ShutdownAsked,
        moment: Moment,
    ) -> ShutdownNoted
        requires clock { R.shown moment }
        ensures told { Heeds asked D.policy self.old.user moment
            self.old.session (history_met D.observed self.old.pass)
            self.new.session (history_met D.observed self.new.pass) }
        ensures user { self.new.user ≡ self.old.user }
        ensures outbox { self.new.outbox ≡ self.old.outbox }
        ensures cursor { self.new.cursor ≡ self.old.cursor }
    {
        if asked.is_yes() {
            self.tell(rt, door, Event::End, moment);
        }
        ShutdownNoted { _told: () }
    }

    /// The reader has ended: its input has no more, and the session is told so.
    #[tactic(auto, using(crate::proofs::Session_call::ends_leave_nothing))]
    pub fn end<D: Door<Pass = T>, R: Wait + Dial>(
        &mut self,
        rt: &R,
        door: &D,
        moment: Moment,
    ) -> ReaderEnded
        requires clock { R.shown moment }
        ensures reader_done { self.new.reader_done ≡ true }
        ensures told { WasTold D.policy self.old.user happens.End moment
            self.old.session (history_met D.observed self.old.pass)
            self.new.session (history_met D.observed self.new.pass) }
        ensures user { self.new.user ≡ self.old.user }
        ensures outbox { self.new.outbox ≡ self.old.outbox }
        ensures cursor { self.new.cursor ≡ self.old.cursor }
    {
        self.tell(rt, door, Event::End, moment);
        self.reader_done = true;
        ReaderEnded { _told: () }
    }

    fn log_in<D: Door<Pass = T>, R: Wait + Dial>(
        &mut self,
        rt: &R,
        door: &D,
        login: &LoginRequest,
        moment: Moment,
    )
        requires clock { R.shown moment }
        ensures answered { WasAnswered D.policy login.now moment
            self.old.session (history_met D.observed self.old.pass) self.old.outbox
            self.new.session (history_met D.observed self.new.pass) self.new.outbox }
        ensures user { self.new.user ≡ login.now.user }
        ensures login { self.new.login ≡ moment }
    {
        let Some(pass) = self.pass.take() else {
            unreachable!()
        };
        let (pass, answer) = door.login(
            rt,
            pass,
            login.user,
            login.password,
            login.session,
            login.wanted,
            moment,
        );
        self.pass = Some(pass);
        self.user = login.user;
        self.login = moment;
        match answer {
            Ok(answer) => {
                self.tell(rt, door, Event::Answered(answer), moment);
            }
            Err(fault) => self.refuse(rt, door, fault, moment),
        }
    }

    /// Tells the session of a packet, and does what it asks for. Answers what is to be announced.
    fn serve<D: Door<Pass = T>, R: Wait + Dial>(
        &mut self,
        rt: &R,
        door: &D,
        packet: &ClientPacket,
        moment: Moment,
    ) -> Option<EndedOrders>
        requires clock { R.shown moment }
        ensures announced { Announces
            (turn self.old.session (happens.Packet packet.now) moment).reply.next
            D.policy self.old.user moment
            (turn self.old.session (happens.Packet packet.now) moment).session
            (history_met D.observed self.old.pass)
            self.new.session (history_met D.observed self.new.pass) result }
        ensures taken { WasTaken D.policy self.old.user packet.now moment
            self.old.session (history_met D.observed self.old.pass) self.old.outbox
            self.new.session (history_met D.observed self.new.pass) self.new.outbox }
        ensures user { self.new.user ≡ user_after
            (turn self.old.session (happens.Packet packet.now) moment).reply.next
            packet.now self.old.user }
    {
        let (next, ended) = self.tell(rt, door, Event::Packet(packet), moment);
        match (next, packet) {
            (Next::Login, ClientPacket::Login(login)) => {
                self.log_in(rt, door, login, moment);
                None
            }
            _ => ended,
        }
    }

    /// Takes a packet: tells the session of it, and does what it asks for. What is given tells what is to be announced.
    pub fn take<'a, D: Door<Pass = T>, R: Wait + Dial>(
        &mut self,
        rt: &R,
        door: &D,
        packet: &'a ClientPacket,
        moment: Moment,
    ) -> TakenPacket<'a>
        requires clock { R.shown moment }
        ensures event { result.event ≡ happens.Packet packet.now }
        ensures announced { Announces
            (turn self.old.session (happens.Packet packet.now) moment).reply.next
            D.policy self.old.user moment
            (turn self.old.session (happens.Packet packet.now) moment).session
            (history_met D.observed self.old.pass)
            self.new.session (history_met D.observed self.new.pass) result.ended }
        ensures over { result.over ≡ is_over self.new.session.phase }
        ensures taken { WasTaken D.policy self.old.user packet.now moment
            self.old.session (history_met D.observed self.old.pass) self.old.outbox
            self.new.session (history_met D.observed self.new.pass) self.new.outbox }
        ensures user { self.new.user ≡ user_after
            (turn self.old.session (happens.Packet packet.now) moment).reply.next
            packet.now self.old.user }
    {
        let ended = self.serve(rt, door, packet, moment);
        TakenPacket {
            event: Event::Packet(packet),
            ended,
            over: self.session.is_over(),
        }
    }
}
