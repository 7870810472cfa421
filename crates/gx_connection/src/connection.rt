//! A connection: what happens to its session, done to the gate and to the writer.

ghost use Rattle.std.specs.Prelude.{◌≡◌, ℕ, ◌-◌, ◌^◌, ◌<◌, ◌≤◌, List, ◌++◌, length, IfOk, IfErr, OnOk, OnErr, IsFalse, IsTrue};
ghost use Rattle.gx_units.specs.Spelling.{folded_user};
ghost use Rattle.gx_history.specs.{declared.record.RecordData.RecordData, Showing.has_its_first};
ghost use Rattle.gx_access_gate.specs.Matches.{settled_gate, IsSettling};
ghost use Rattle.gx_soup.specs.declared.packet.ClientPacket.TheVariants.{Data};
ghost use Rattle.gx_devices.specs.Stopping.{AreFewer, Mark};
ghost use Rattle.gx_session.specs.{declared.{event.Next.TheVariants.Act, session.Phase.TheVariants.Waiting}, Events.{CanAsk, asks_step, is_phase_on}, Happenings.happening_of, Table.turn};
ghost use Rattle.gx_session.specs.Happenings as happens;
ghost use Rattle.gx_connection.specs.{Faults.{IsToldFull, IsTold, fault_of_step}, Piping.{is_never_refused_in, logout_of, IsRunOf, IsTaken, IsGivenUp, IsTurnGivenUp, RunState, pull_marks, packet_marks, PipeStopsIn, GivesAll, IsLeaving, IsMatchedInPart}, Transcript.{gate_after_act, nothing_written, step_of, on_event, logged_in, run_of_login, run_of_matching, run_of_pull, run_of_packet, opened_at, run_at, run_to_its_end, first_told}};

use crate::asking::login_step;
use crate::fault::PipeFault;
use crate::room::PullRoom;
use gx_access_gate::{AccessGate, LoginAnswer, Reached, StepFault, asked, count_of};
use gx_devices::CallCounter;
use gx_history::record::Request;
use gx_history::report::Report;
use gx_session::{Event, Next, Session, send_control, send_reports};
use gx_soup::{ClientPacket, LoginRequest, Payload};
use gx_units::{OutOfMemory, UserName};
use std::alloc::Global;
use std::io::Write;

/// A connection: its session, who asked to be logged in, and how far it has come.
#[derive(Clone, Copy)]
pub struct Connection {
    /// How far it has come as a session of SoupBinTCP.
    pub session: Session,
    /// Who asked to be logged in, as he wrote his name; blank before.
    pub user: UserName,
    /// The number of the next report that the user is sent.
    pub next: u64,
    /// The moment of the next packet.
    pub coming: u64,
}

/// How many reports were pulled and sent, and whether there will be no more.
#[derive(Clone, Copy)]
struct Pull {
    count: u64,
    ended: bool,
}

/// Makes the step that a session asks for.
#[inline(always)]
#[tactic(auto, using(crate::proofs::Step_call::told_full))]
fn ask_gate<G: AccessGate>(
    gate: &mut G,
    user: UserName,
    next: Next,
    moment: u64,
) -> Result<(), StepFault>
    requires { CanAsk next }
    ensures ok { OnOk result
        (G.state gate.new ≡ gate_after_act (G.state gate.old) user moment next) }
    ensures err { OnErr result (G.state gate.new ≡ G.state gate.old) }
    ensures step { OnErr result (IsTrue (asks_step next)) }
    ensures sure { OnErr result
        (IsFalse (is_never_refused_in (G.state gate.old) (step_of user moment next))) }
    ensures grows { length (G.state gate.old).records ≤ length (G.state gate.new).records }
    ensures full { IfErr result (IsToldFull (G.state gate.new)) }
{
    match next {
        Next::Act(request) => {
            let _ = gate.step(asked(user, request, moment))?;
            Ok(())
        }
        Next::Logout => {
            let _ = gate.step(asked(user, Request::Logout, moment))?;
            Ok(())
        }
        Next::Idle | Next::Login | Next::Close => Ok(()),
    }
}

/// Makes the step of a request, and answers the user's name as the gate knows it.
#[inline(always)]
#[tactic(auto, using(crate::proofs::Step_call::told_full))]
fn make_step<G: AccessGate>(
    gate: &mut G,
    user: UserName,
    request: Request,
    moment: u64,
) -> Result<UserName, StepFault>
    requires { IsTrue (has_its_first request) }
    ensures name { IfOk result (λ name. name ≡ folded_user user) }
    ensures ok { OnOk result
        (G.state gate.new ≡ gate_after_act (G.state gate.old) user moment (Act request)) }
    ensures err { OnErr result (G.state gate.new ≡ G.state gate.old) }
    ensures full { IfErr result (IsToldFull (G.state gate.new)) }
{
    let asked = asked(user, request, moment);
    let name = asked.user;
    let _ = gate.step(asked)?;
    Ok(name)
}

/// Makes matching steps at this moment until no order waits.
///
/// A refused step ends it. Those before it stand, and an order still waits.
#[tactic(auto, using(crate::proofs::Step_call::match_told_full))]
fn settle<G: AccessGate>(gate: &mut G, moment: u64) -> Result<(), StepFault>
    ensures ok { OnOk result (G.state gate.new ≡ settled_gate (G.state gate.old) moment) }
    ensures err { OnErr result (IsSettling (G.state gate.old) moment (G.state gate.new)) }
    ensures left { OnErr result (AreFewer
        (G.state gate.new).records (settled_gate (G.state gate.old) moment).records) }
    ensures grows { length (G.state gate.old).records ≤ length (G.state gate.new).records }
    ensures full { IfErr result (IsToldFull (G.state gate.new)) }
{
    loop {
        // What this ensures: the records are those of a legal day, on which what settles rests.
        gate.is_legal();
        if gate.match_one(moment)?.is_none() {
            return Ok(());
        }
    }
}

impl Connection {
    /// A new connection, whose first packet comes at this moment.
    pub(crate) fn new(first: u64) -> Connection
        ensures { result ≡ opened_at first }
    {
        Connection {
            session: Session::new(first),
            user: UserName { bytes: *b"      " },
            next: 0,
            coming: first,
        }
    }

    /// Tells the session of an event: makes the step that it asks for, and sends its packet.
    /// Answers what it asked for.
    ///
    /// Where the step is refused, the session stands as before the event.
    #[tactic(auto, using(crate::proofs::Step_call::of_step), unfolding(crate::specs::Transcript::on_event))]
    fn turn<G: AccessGate, W: Write>(
        &mut self,
        alloc: Global,
        gate: &mut G,
        event: Event<'_>,
        moment: u64,
        writer: &mut CallCounter<W>,
    ) -> Result<Next, PipeFault>
        requires { writer.old.failed < 2 ^ 64 - 1 }
        ensures next { IfOk result (λ next.
            next ≡ (turn self.old.session (happening_of event.entry) moment).reply.next) }
        ensures ok { OnOk result (IsTaken
            (on_event (G.state gate.old) self.old (happening_of event.entry) moment)
            (G.state gate.new) self.new
            (W.contents writer.old.device) (W.contents writer.new.device)) }
        ensures err { IfErr result (λ fault. IsTurnGivenUp (G.state gate.old) self.old
            (happening_of event.entry) moment fault (G.state gate.new) self.new
            (W.contents writer.old.device) (W.contents writer.new.device)) }
        ensures kept { OnOk result (writer.new.failed ≡ writer.old.failed) }
        ensures told { IfErr result
            (IsTold writer.old.failed writer.new.failed (G.state gate.new)) }
    {
        let mut session = self.session;
        let reply = session.on(event, moment);
        ask_gate(gate, self.user, reply.next, moment)?;
        self.session = session;
        if let Some(control) = reply.send {
            send_control(alloc, control, writer)?;
        }
        Ok(reply.next)
    }

    /// Makes a login's step, and tells the session of its answer.
    #[tactic(auto, using(crate::proofs::Step_call::of_step), unfolding(crate::specs::Transcript::logged_in))]
    fn log_in<G: AccessGate, W: Write>(
        &mut self,
        alloc: Global,
        gate: &mut G,
        login: &LoginRequest,
        moment: u64,
        writer: &mut CallCounter<W>,
    ) -> Result<(), PipeFault>
        requires waiting { self.old.session.phase ≡ Waiting }
        requires writer { writer.old.failed < 2 ^ 64 - 1 }
        ensures ok { OnOk result (IsTaken (logged_in (G.state gate.old) self.old login.now moment)
            (G.state gate.new) self.new
            (W.contents writer.old.device) (W.contents writer.new.device)) }
        ensures err { IfErr result (λ fault. IsGivenUp (G.state gate.old) self.old
            (logged_in (G.state gate.old) self.old login.now moment) fault
            (G.state gate.new) self.new
            (W.contents writer.old.device) (W.contents writer.new.device)) }
        ensures kept { OnOk result (writer.new.failed ≡ writer.old.failed) }
        ensures told { IfErr result
            (IsTold writer.old.failed writer.new.failed (G.state gate.new)) }
    {
        let answer = login_step(gate, moment, login)?;
        self.user = login.user;
        self.next = first_told(answer);
        self.turn(alloc, gate, Event::Answered(answer), moment, writer)?;
        Ok(())
    }

    /// Tells the session of a packet; where it asks for a login, makes and answers it.
    #[tactic(auto, unfolding(crate::specs::Transcript::run_of_login))]
    fn answer<G: AccessGate, W: Write>(
        &mut self,
        alloc: Global,
        gate: &mut G,
        packet: &ClientPacket,
        moment: u64,
        writer: &mut CallCounter<W>,
    ) -> Result<(), PipeFault>
        requires { writer.old.failed < 2 ^ 64 - 1 }
        ensures ok { OnOk result (IsTaken
            (run_of_login (G.state gate.old) self.old packet.now moment)
            (G.state gate.new) self.new
            (W.contents writer.old.device) (W.contents writer.new.device)) }
        ensures err { IfErr result (λ fault. IsGivenUp (G.state gate.old) self.old
            (run_of_login (G.state gate.old) self.old packet.now moment) fault
            (G.state gate.new) self.new
            (W.contents writer.old.device) (W.contents writer.new.device)) }
        ensures kept { OnOk result (writer.new.failed ≡ writer.old.failed) }
        ensures told { IfErr result
            (IsTold writer.old.failed writer.new.failed (G.state gate.new)) }
    {
        let next = self.turn(alloc, gate, Event::Packet(packet), moment, writer)?;
        match (next, packet) {
            (Next::Login, ClientPacket::Login(login)) => {
                self.log_in(alloc, gate, login, moment, writer)
            }
            _ => Ok(()),
        }
    }

    /// Makes the step that a message of a user who is logged in asks for. Answers his name as the gate knows it.
    fn ask<G: AccessGate>(
        &mut self,
        gate: &mut G,
        payload: &Payload,
        moment: u64,
    ) -> Result<UserName, StepFault>
        requires { IsTrue (is_phase_on self.old.session.phase) }
        ensures name { IfOk result (λ name. name ≡ folded_user self.new.user) }
        ensures ok { OnOk result (IsRunOf
            (on_event (G.state gate.old) self.old (happens.Packet (Data payload.now)) moment)
            (G.state gate.new) self.new) }
        ensures err { OnErr result
            ((G.state gate.new ≡ G.state gate.old) × (self.new ≡ self.old)) }
        ensures asks { IsTrue (asks_step
            (turn self.old.session (happens.Packet (Data payload.now)) moment).reply.next) }
        ensures full { IfErr result (IsToldFull (G.state gate.new)) }
    {
        let mut session = self.session;
        let request = session.take_message(payload, moment);
        let name = make_step(gate, self.user, request, moment)?;
        self.session = session;
        Ok(name)
    }

    /// Tells the session of a packet, and makes the step that it asks for: `answer`, and a short
    /// way for messages. Answers the name of the user behind it, as the gate knows it.
    fn hear<G: AccessGate, W: Write>(
        &mut self,
        alloc: Global,
        gate: &mut G,
        packet: &ClientPacket,
        moment: u64,
        writer: &mut CallCounter<W>,
    ) -> Result<UserName, PipeFault>
        requires { writer.old.failed < 2 ^ 64 - 1 }
        ensures name { IfOk result (λ name. name ≡ folded_user self.new.user) }
        ensures ok { OnOk result (IsTaken
            (run_of_login (G.state gate.old) self.old packet.now moment)
            (G.state gate.new) self.new
            (W.contents writer.old.device) (W.contents writer.new.device)) }
        ensures err { IfErr result (λ fault. IsGivenUp (G.state gate.old) self.old
            (run_of_login (G.state gate.old) self.old packet.now moment) fault
            (G.state gate.new) self.new
            (W.contents writer.old.device) (W.contents writer.new.device)) }
        ensures kept { OnOk result (writer.new.failed ≡ writer.old.failed) }
        ensures told { IfErr result
            (IsTold writer.old.failed writer.new.failed (G.state gate.new)) }
    {
        match packet {
            ClientPacket::Data(payload) if self.session.is_on() => {
                Ok(self.ask(gate, payload, moment)?)
            }
            _ => {
                self.answer(alloc, gate, packet, moment, writer)?;
                Ok(self.user.folded())
            }
        }
    }

    /// Makes the matching steps that follow a packet; none once the session is over.
    #[tactic(auto, using(crate::proofs::Step_call::of_matching), unfolding(crate::specs::Transcript::run_of_matching))]
    fn match_orders<G: AccessGate>(&self, gate: &mut G, moment: u64) -> Result<(), StepFault>
        ensures ok { OnOk result
            (G.state gate.new ≡ (run_of_matching (G.state gate.old) self.now moment).gate) }
        ensures err { IfErr result (λ refused. IsMatchedInPart
            (G.state gate.old) self.now moment (fault_of_step refused) (G.state gate.new)) }
        ensures full { IfErr result (IsToldFull (G.state gate.new)) }
    {
        if self.session.is_over() {
            return Ok(());
        }
        settle(gate, moment)
    }

    /// Puts all reports that are there for the user of this name into this list. He is looked for at this place of the
    /// policy's users first.
    fn put_reports<G: AccessGate>(
        &self,
        gate: &G,
        name: UserName,
        near: usize,
        list: &mut Vec<Report>,
    ) -> Result<Reached, OutOfMemory>
        requires { name ≡ folded_user self.now.user }
        ensures all { IfOk result (λ r.
            GivesAll (G.state gate.now) self.now list.new.items r.next r.ended) }
    {
        let reached = gate.put_reports(name, near, self.next, u64::MAX, list)?;
        let _few = count_of(list.as_slice());
        Ok(reached)
    }

    /// Tells the session that so many reports were pulled and sent: `turn`, and a short way where
    /// more may come.
    fn tell_pulled<G: AccessGate, W: Write>(
        &mut self,
        alloc: Global,
        gate: &mut G,
        pull: Pull,
        moment: u64,
        writer: &mut CallCounter<W>,
    ) -> Result<(), PipeFault>
        requires { writer.old.failed < 2 ^ 64 - 1 }
        ensures ok { OnOk result (IsTaken
            (on_event (G.state gate.old) self.old (happens.Pulled pull.count pull.ended) moment)
            (G.state gate.new) self.new
            (W.contents writer.old.device) (W.contents writer.new.device)) }
        ensures err { IfErr result (λ fault. IsTurnGivenUp (G.state gate.old) self.old
            (happens.Pulled pull.count pull.ended) moment fault (G.state gate.new) self.new
            (W.contents writer.old.device) (W.contents writer.new.device)) }
        ensures kept { OnOk result (writer.new.failed ≡ writer.old.failed) }
        ensures told { IfErr result
            (IsTold writer.old.failed writer.new.failed (G.state gate.new)) }
    {
        let Pull { count, ended } = pull;
        if ended {
            self.turn(alloc, gate, Event::Pulled { count, ended }, moment, writer)?;
            return Ok(());
        }
        self.session.take_pull(count, moment);
        Ok(())
    }

    /// Sends all reports that are there, where a user is logged in, whose name as the gate knows it is this, and tells
    /// the session of them. They are put together in this room.
    #[tactic(auto, unfolding(crate::specs::Transcript::run_of_pull, crate::specs::Transcript::run_of_sending))]
    fn pull<G: AccessGate, W: Write>(
        &mut self,
        room: &mut PullRoom,
        gate: &mut G,
        name: UserName,
        moment: u64,
        writer: &mut CallCounter<W>,
    ) -> Result<(), PipeFault>
        requires name { name ≡ folded_user self.old.user }
        requires writer { writer.old.failed < 2 ^ 64 - 1 }
        ensures ok { OnOk result (IsTaken (run_of_pull (G.state gate.old) self.old moment)
            (G.state gate.new) self.new
            (W.contents writer.old.device) (W.contents writer.new.device)) }
        ensures err { IfErr result (λ fault. (text : List ℕ)
            (more : List (Mark RecordData RunState)) → PipeStopsIn
            (run_at (G.state gate.old) self.old text)
            (pull_marks (run_at (G.state gate.old) self.old text) moment ++ more)
            fault (G.state gate.new) self.new
            (W.contents writer.old.device) (W.contents writer.new.device)) }
        ensures kept { OnOk result (writer.new.failed ≡ writer.old.failed) }
        ensures told { IfErr result
            (IsTold writer.old.failed writer.new.failed (G.state gate.new)) }
    {
        if !self.session.is_on() {
            return Ok(());
        }
        let reached = self.put_reports(gate, name, room.near, &mut room.reports)?;
        room.near = reached.place;
        let ended = reached.ended;
        let count = count_of(room.reports.as_slice());
        send_reports(
            &mut room.text,
            room.reports.as_slice(),
            writer,
            room.flushes,
        )?;
        self.next = reached.next;
        self.tell_pulled(room.alloc, gate, Pull { count, ended }, moment, writer)
    }

    /// Takes a packet at its moment: tells the session of it, makes matching steps until no order
    /// waits, and then sends reports, which are put together in this room. Nothing once the session
    /// is over.
    #[tactic(auto, unfolding(crate::specs::Transcript::run_of_packet))]
    pub(crate) fn take<G: AccessGate, W: Write>(
        &mut self,
        room: &mut PullRoom,
        gate: &mut G,
        packet: &ClientPacket,
        writer: &mut CallCounter<W>,
    ) -> Result<(), PipeFault>
        requires { writer.old.failed < 2 ^ 64 - 1 }
        ensures ok { OnOk result (IsTaken (run_of_packet (G.state gate.old) self.old packet.now)
            (G.state gate.new) self.new
            (W.contents writer.old.device) (W.contents writer.new.device)) }
        ensures err { IfErr result (λ fault. (text : List ℕ)
            (more : List (Mark RecordData RunState)) → PipeStopsIn
            (run_at (G.state gate.old) self.old text)
            (packet_marks (run_at (G.state gate.old) self.old text) packet.now ++ more)
            fault (G.state gate.new) self.new
            (W.contents writer.old.device) (W.contents writer.new.device)) }
        ensures kept { OnOk result (writer.new.failed ≡ writer.old.failed) }
        ensures told { IfErr result
            (IsTold writer.old.failed writer.new.failed (G.state gate.new)) }
    {
        if self.session.is_over() {
            return Ok(());
        }
        let moment = self.coming;
        self.coming = moment.saturating_add(1);
        let name = self.hear(room.alloc, gate, packet, moment, writer)?;
        self.match_orders(gate, moment)?;
        self.pull(room, gate, name, moment, writer)
    }

    /// Tells the session that its input has a fault or is at its end, and logs out a user who is on.
    ///
    /// A logout that the gate grants is not refused; and of a user who is on it grants it, wherever a run stops.
    #[tactic(auto, using(crate::proofs::Run_logout::leaves_as_at_the_end, crate::proofs::Run_logout::refused_as_at_the_end, crate::proofs::Run_logout::asks_as_at_the_end))]
    pub(crate) fn leave<G: AccessGate>(
        &mut self,
        gate: &mut G,
        event: Event<'_>,
    ) -> Result<(), StepFault>
        requires { IsLeaving (happening_of event) }
        ensures ok { OnOk result
            (G.state gate.new
            ≡ (run_to_its_end (nothing_written (G.state gate.old) self.old)).gate) }
        ensures err { OnErr result
            ((G.state gate.new ≡ G.state gate.old) × (self.new ≡ self.old)) }
        ensures asks { OnErr result (IsTrue (is_phase_on self.old.session.phase)) }
        ensures sure { OnErr result
            (IsFalse (is_never_refused_in (G.state gate.old) (logout_of self.old))) }
        ensures grows { length (G.state gate.old).records ≤ length (G.state gate.new).records }
        ensures full { IfErr result (IsToldFull (G.state gate.new)) }
    {
        let moment = self.session.heard();
        let mut session = self.session;
        let reply = session.on(event, moment);
        ask_gate(gate, self.user, reply.next, moment)?;
        self.session = session;
        Ok(())
    }
}

/// The number of the first report that a login is sent.
fn first_told(answer: LoginAnswer) -> u64
    ensures { result ≡ first_told answer }
{
    match answer {
        LoginAnswer::Accepted { next, .. } => next,
        LoginAnswer::Rejected(_) => 0,
    }
}
