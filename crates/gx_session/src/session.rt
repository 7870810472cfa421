//! The session table.

ghost use Rattle.std.specs.Prelude.{◌≡◌, false, None, IsTrue};
ghost use Rattle.gx_history.specs.Showing.{has_its_first};
ghost use Rattle.gx_soup.specs.declared.packet.ClientPacket.TheVariants.{Data};
ghost use Rattle.gx_session.specs.{Happenings.Happening.{Packet, Pulled}, declared.event.Next.TheVariants.{Idle, Act}, Table.{is_silent, fresh_packet, fresh_row, waiting_row, on_packet, on_row, abandoned_row, row, row_at, is_sending, heard_after, sent_after, turn, new_session, rest_of}, Happenings.happening_of, Events.{is_phase_on, is_over, CanAsk}};

use crate::event::{Control, Event, Next, Reply, Sign};
use gx_access_gate::LoginAnswer;
use gx_history::record::Request;
use gx_soup::{ClientPacket, Payload};
use std::marker::Model;

/// How far a session has come.
#[derive(Clone, Copy, PartialEq, Eq)]
pub enum Phase {
    /// No login has come.
    Fresh,
    /// A login has come, and its answer has not.
    Waiting,
    /// A user is logged in.
    On,
    /// The session is over, and the answer to its login has not come.
    Abandoned,
    /// The session is over.
    Done,
}

/// After so many nanoseconds without a packet from the client a session is over.
const IDLE_TIMEOUT_NANOS: u64 = 15_000_000_000;

/// After so many nanoseconds without a packet to the client a heartbeat is sent.
const HEARTBEAT_AFTER_NANOS: u64 = 1_000_000_000;

/// A row of the table: where the session goes, and what follows.
#[derive(Clone, Copy, PartialEq, Eq)]
pub(crate) struct Row {
    pub(crate) phase: Phase,
    pub(crate) reply: Reply,
}

impl Row {
    fn new(phase: Phase, send: Option<Control>, next: Next) -> Row
        ensures { result ≡ row phase send next }
    {
        Row {
            phase,
            reply: Reply { send, next },
        }
    }

    fn stay(phase: Phase) -> Row
        ensures { result ≡ row phase None Idle }
    {
        Row::new(phase, None, Next::Idle)
    }

    fn leave(phase: Phase, next: Next) -> Row
        ensures { result ≡ row phase None next }
    {
        Row::new(phase, None, next)
    }
}

fn fresh_packet(packet: &ClientPacket) -> Row
    ensures row { result ≡ fresh_packet packet.now }
    ensures able { CanAsk result.reply.next }
{
    match packet {
        ClientPacket::Login(_) => Row::leave(Phase::Waiting, Next::Login),
        ClientPacket::Data(_) | ClientPacket::Logout => Row::leave(Phase::Done, Next::Close),
        ClientPacket::Heartbeat | ClientPacket::Debug => Row::stay(Phase::Fresh),
    }
}

fn fresh_row(event: Event<'_>, silent: bool) -> Row
    ensures row { result ≡ fresh_row (happening_of event.entry) silent }
    ensures able { CanAsk result.reply.next }
{
    match event {
        Event::Packet(packet) => fresh_packet(packet),
        Event::Tick if !silent => Row::stay(Phase::Fresh),
        Event::Tick | Event::Refused(_) | Event::Fault | Event::End => {
            Row::leave(Phase::Done, Next::Close)
        }
        Event::Answered(_) | Event::Pulled { .. } => Row::stay(Phase::Fresh),
    }
}

fn waiting_row(event: Event<'_>, silent: bool) -> Row
    ensures row { result ≡ waiting_row (happening_of event.entry) silent }
    ensures able { CanAsk result.reply.next }
{
    match event {
        Event::Answered(answer @ LoginAnswer::Accepted { .. }) => {
            Row::new(Phase::On, Some(Control::Answer(answer)), Next::Idle)
        }
        Event::Answered(answer @ LoginAnswer::Rejected(_)) => {
            Row::new(Phase::Done, Some(Control::Answer(answer)), Next::Close)
        }
        Event::Tick if !silent => Row::stay(Phase::Waiting),
        Event::Tick | Event::Refused(_) | Event::Fault | Event::End => {
            Row::leave(Phase::Abandoned, Next::Close)
        }
        Event::Packet(_) | Event::Pulled { .. } => Row::stay(Phase::Waiting),
    }
}

fn on_packet(packet: &ClientPacket) -> Row
    ensures row { result ≡ on_packet packet.now }
    ensures able { CanAsk result.reply.next }
{
    match packet {
        ClientPacket::Data(payload) => {
            Row::leave(Phase::On, Next::Act(Request::read(payload.as_slice())))
        }
        ClientPacket::Login(_) | ClientPacket::Logout => Row::leave(Phase::Done, Next::Logout),
        ClientPacket::Heartbeat | ClientPacket::Debug => Row::stay(Phase::On),
    }
}

fn on_row(event: Event<'_>, silent: bool, quiet: bool) -> Row
    ensures row { result ≡ on_row (happening_of event.entry) silent quiet }
    ensures able { CanAsk result.reply.next }
{
    match event {
        Event::Packet(packet) => on_packet(packet),
        Event::Pulled { ended: true, .. } => Row::new(
            Phase::Done,
            Some(Control::Sign(Sign::EndOfSession)),
            Next::Logout,
        ),
        Event::Tick if silent => Row::leave(Phase::Done, Next::Logout),
        Event::Tick if quiet => {
            Row::new(Phase::On, Some(Control::Sign(Sign::Heartbeat)), Next::Idle)
        }
        Event::Refused(_) | Event::Fault | Event::End => Row::leave(Phase::Done, Next::Logout),
        Event::Answered(_) | Event::Pulled { .. } | Event::Tick => Row::stay(Phase::On),
    }
}

fn abandoned_row(event: Event<'_>) -> Row
    ensures row { result ≡ abandoned_row (happening_of event.entry) }
    ensures able { CanAsk result.reply.next }
{
    match event {
        Event::Answered(LoginAnswer::Accepted { .. }) => Row::leave(Phase::Done, Next::Logout),
        Event::Answered(LoginAnswer::Rejected(_)) => Row::stay(Phase::Done),
        _ => Row::stay(Phase::Abandoned),
    }
}

/// Whether a packet goes to the client: the session's own, or reports of a user who is on.
fn is_sending(phase: Phase, event: Event<'_>, send: Option<Control>) -> bool
    ensures { result ≡ is_sending phase (happening_of event.entry) send }
{
    match (phase, event) {
        (Phase::On, Event::Pulled { count, .. }) => count > 0 || send.is_some(),
        _ => send.is_some(),
    }
}

/// A connection's session: how far it has come, and when packets were last received and sent.
///
/// It decides and does nothing itself: the caller sends what it is told to, and tells what came of it.
#[derive(Clone, Copy)]
pub struct Session {
    phase: Phase,
    /// The moment of the last packet received.
    heard: u64,
    /// The moment of the last packet sent.
    sent: u64,
}

impl Model for Session {
    ghost use Rattle.gx_session.specs.Table.{SessionData};

    ghost Value = { SessionData };

    ghost view = { λ s. record { phase = s.phase; heard = s.heard; sent = s.sent } };

    ghost inverse = { λ d. record { phase = d.phase; heard = d.heard; sent = d.sent } };
}

impl Session {
    /// A session that begins at this moment.
    pub fn new(moment: u64) -> Session
        ensures { result ≡ new_session moment }
    {
        Session {
            phase: Phase::Fresh,
            heard: moment,
            sent: moment,
        }
    }

    /// The moment of the last packet received; before one, the moment that the session began at.
    pub fn heard(&self) -> u64
        ensures { result ≡ self.now.heard }
    {
        self.heard
    }

    /// Whether no packet has come for 15 seconds.
    pub fn is_silent(&self, moment: u64) -> bool
        ensures { result ≡ is_silent self.now moment }
    {
        moment.saturating_sub(self.heard) >= IDLE_TIMEOUT_NANOS
    }

    /// So many nanoseconds it is from this moment until the time alone asks for something of a user who is on: a heartbeat,
    /// or his logout.
    pub fn rest(&self, moment: u64) -> u64
        ensures { result ≡ rest_of self.now moment }
    {
        let patience = IDLE_TIMEOUT_NANOS.saturating_sub(moment.saturating_sub(self.heard));
        patience.min(HEARTBEAT_AFTER_NANOS.saturating_sub(moment.saturating_sub(self.sent)))
    }

    /// Whether a user is logged in.
    pub fn is_on(&self) -> bool
        ensures { result ≡ is_phase_on self.now.phase }
    {
        matches!(self.phase, Phase::On)
    }

    /// Whether the session is over.
    pub fn is_over(&self) -> bool
        ensures { result ≡ is_over self.now.phase }
    {
        matches!(self.phase, Phase::Abandoned | Phase::Done)
    }

    fn row(&self, event: Event<'_>, moment: u64) -> Row
        ensures row { result ≡ row_at self.now (happening_of event.entry) moment }
        ensures able { CanAsk result.reply.next }
    {
        let silent = self.is_silent(moment);
        let quiet = moment.saturating_sub(self.sent) >= HEARTBEAT_AFTER_NANOS;
        match self.phase {
            Phase::Fresh => fresh_row(event, silent),
            Phase::Waiting => waiting_row(event, silent),
            Phase::On => on_row(event, silent, quiet),
            Phase::Abandoned => abandoned_row(event),
            Phase::Done => Row::stay(Phase::Done),
        }
    }

    fn heard_after(&self, event: Event<'_>, moment: u64) -> u64
        ensures { result ≡ heard_after self.now (happening_of event.entry) moment }
    {
        match event {
            Event::Packet(_) => self.heard.max(moment),
            _ => self.heard,
        }
    }

    fn sent_after(&self, event: Event<'_>, moment: u64, send: Option<Control>) -> u64
        ensures { result ≡ sent_after self.now (happening_of event.entry) moment send }
    {
        if is_sending(self.phase, event, send) {
            self.sent.max(moment)
        } else {
            self.sent
        }
    }

    /// What follows the event at this moment. A moment before the last packet's counts as no time passed. Takes no
    /// memory. A request that it asks for is one that a gate may be asked (`able`).
    #[tactic(auto, unfolding(crate::specs::Table::turn))]
    pub fn on(&mut self, event: Event<'_>, moment: u64) -> Reply
        ensures reply { result ≡ (turn self.old (happening_of event.entry) moment).reply }
        ensures session { self.new ≡ (turn self.old (happening_of event.entry) moment).session }
        ensures able { CanAsk result.next }
    {
        let row = self.row(event, moment);
        let heard = self.heard_after(event, moment);
        let sent = self.sent_after(event, moment, row.reply.send);
        self.phase = row.phase;
        self.heard = heard;
        self.sent = sent;
        row.reply
    }

    /// What `on` does at a message of a user who is logged in: the request that it asks for, and nothing is sent.
    #[tactic(auto, unfolding(crate::specs::Table::turn))]
    pub fn take_message(&mut self, payload: &Payload, moment: u64) -> Request
        requires { IsTrue (is_phase_on self.old.phase) }
        ensures session { self.new ≡ (turn self.old (Packet (Data payload.now)) moment).session }
        ensures reply { (turn self.old (Packet (Data payload.now)) moment).reply
            ≡ record { send = None; next = Act result } }
        ensures shown { IsTrue (has_its_first result) }
    {
        self.heard = self.heard.max(moment);
        Request::read(payload.as_slice())
    }

    /// What `on` does once so many reports were pulled and sent and more may come: nothing follows.
    #[tactic(auto, unfolding(crate::specs::Table::turn))]
    pub fn take_pull(&mut self, count: u64, moment: u64)
        ensures session { self.new ≡ (turn self.old (Pulled count false) moment).session }
        ensures reply { (turn self.old (Pulled count false) moment).reply
            ≡ record { send = None; next = Idle } }
    {
        if count > 0 && self.is_on() {
            self.sent = self.sent.max(moment);
        }
    }
}
