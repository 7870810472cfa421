//! The writer of a connection.

ghost use Rattle.gx_devices.specs.{Blaming.IsBlamed, Devices.IsFront};
ghost use Rattle.std.specs.{Prelude.{◌≡◌, ◌-◌, ◌^◌, ◌<◌, is_some, IfErr, IsTrue, OnOk, OnErr}, Io.KnownBytes.Appends};
ghost use Rattle.gx_door.specs.Keeping.{ShowsKept};
ghost use Rattle.gx_session.specs.{Sending.control_bytes};
ghost use Rattle.gx_serve.specs.{Speech.{due_text, is_last_write, next_after, IfOn, IsCut, IsDueKept, IsGreeted, WasSaid, WasSpoken}, Tellings.event_of_write_fault, Timings.AreTimes, Breaks.break_of};

use crate::shared_connection::SharedConnection;
use crate::state::Break;
use crate::state::outgoing::{Answered, Bookmark, Fetched, Finished, LoginOutcome, NextWrite};
use crate::timing::times_of;
use gx_access_gate::StepFault;
use gx_control::{AnswerTimes, AnswersNoted, ShutdownFlag, WriterWakeup};
use gx_devices::{CallCounter, WriteFault};
use gx_door::{Dial, Door};
use gx_session::{Control, send_control, send_pulled};
use std::alloc::Global;
use std::io::Write;
use std::sync::Wait;
use std::time::{Clock, Duration};

/// What breaks a session off where a packet was not sent.
fn cause_of(fault: WriteFault) -> Break
    ensures { break_of result ≡ event_of_write_fault fault }
{
    match fault {
        WriteFault::OutOfMemory => Break::Refused(StepFault::OutOfMemory),
        WriteFault::WriteFailed => Break::Fault,
    }
}

/// Sends what is due: a packet of the session's own, or one for each report, in order; and nothing
/// else.
fn send<O: Write>(
    alloc: Global,
    due: &NextWrite,
    writer: &mut CallCounter<O>,
) -> Result<(), WriteFault>
    requires { writer.old.failed < 2 ^ 64 - 1 }
    ensures sent { OnOk result (Appends
        (O.contents writer.old.device) (O.contents writer.new.device) (due_text due.now)) }
    ensures front { OnErr result (IsFront
        (O.contents writer.old.device) (O.contents writer.new.device) (due_text due.now)) }
    ensures kept { OnOk result (writer.new.failed ≡ writer.old.failed) }
    ensures told { IfErr result (IsBlamed writer.old.failed writer.new.failed) }
{
    match due {
        NextWrite::Sign(signed) => send_control(alloc, Control::Sign(signed.sign()), writer),
        NextWrite::Reports(fetched) => send_pulled(alloc, fetched.pulled(), writer),
        NextWrite::Nothing | NextWrite::Over(_) => Ok(()),
    }
}

/// Whether so many of the day's first records may be told. Where they may not, no more is to be done: the server is asked to
/// end.
fn is_kept<D: Door, R: Wait>(rt: &R, door: &D, shutdown: &ShutdownFlag, count: u64) -> bool
    ensures { IsTrue result → ShowsKept D.kept count }
{
    let kept = door.keep(rt, count);
    if !kept {
        shutdown.request();
    }
    kept
}

/// Whether all that was done so far may be told. Where it may not, no more is to be done: the server is asked to end.
pub(crate) fn is_all_kept<D: Door, R: Wait>(rt: &R, door: &D, shutdown: &ShutdownFlag) -> bool {
    let kept = door.keep_all(rt);
    if !kept {
        shutdown.request();
    }
    kept
}

/// Whether what is due may be sent: reports tell of records.
fn may_send<D: Door, R: Wait>(rt: &R, door: &D, shutdown: &ShutdownFlag, due: &NextWrite) -> bool
    ensures { IsTrue result → IsDueKept D.kept due.now }
{
    match due {
        NextWrite::Reports(fetched) => is_kept(rt, door, shutdown, fetched.known()),
        NextWrite::Sign(_) | NextWrite::Nothing | NextWrite::Over(_) => true,
    }
}

/// Sends what is due, reports once the records are kept of which they may tell. At `Err` it answers what breaks the session
/// off.
#[tactic(auto, using(crate::proofs::Writer_next::none_written, crate::proofs::Writer_next::front_written))]
fn send_kept<D: Door, O: Write, R: Wait>(
    rt: &R,
    alloc: Global,
    door: &D,
    shutdown: &ShutdownFlag,
    due: &NextWrite,
    writer: &mut CallCounter<O>,
) -> Result<(), Break>
    requires { writer.old.failed < 2 ^ 64 - 1 }
    ensures sent { OnOk result (Appends
        (O.contents writer.old.device) (O.contents writer.new.device) (due_text due.now)) }
    ensures told { OnOk result (IsDueKept D.kept due.now) }
    ensures cut { OnErr result (IsCut D.kept due.now
        (O.contents writer.old.device) (O.contents writer.new.device)) }
    ensures kept { OnOk result (writer.new.failed ≡ writer.old.failed) }
{
    if !may_send(rt, door, shutdown, due) {
        return Err(Break::Fault);
    }
    match send(alloc, due, writer) {
        Ok(()) => Ok(()),
        Err(fault) => Err(cause_of(fault)),
    }
}

/// Sends the answer to a login, once so many of the day's first records are kept. At `Err` it answers what breaks the session
/// off.
#[tactic(auto, using(crate::proofs::Writer_next::nothing_sent))]
fn send_answer<D: Door, O: Write, R: Wait>(
    rt: &R,
    alloc: Global,
    door: &D,
    shutdown: &ShutdownFlag,
    answered: &Answered,
    writer: &mut CallCounter<O>,
) -> Result<(), Break>
    requires { writer.old.failed < 2 ^ 64 - 1 }
    ensures sent { OnOk result (Appends (O.contents writer.old.device)
        (O.contents writer.new.device) (control_bytes (Control.Answer answered.now.answer))) }
    ensures told { OnOk result (ShowsKept D.kept answered.now.known) }
    ensures front { OnErr result (IsFront (O.contents writer.old.device)
        (O.contents writer.new.device) (control_bytes (Control.Answer answered.now.answer))) }
    ensures kept { OnOk result (writer.new.failed ≡ writer.old.failed) }
{
    if !is_kept(rt, door, shutdown, answered.known()) {
        return Err(Break::Fault);
    }
    match send_control(alloc, Control::Answer(answered.answer()), writer) {
        Ok(()) => Ok(()),
        Err(fault) => Err(cause_of(fault)),
    }
}

/// Counts how long it took until these reports were sent.
fn note_times<R: Dial>(
    rt: &R,
    times: &AnswerTimes,
    fetched: &Fetched,
    bookmark: &Bookmark,
) -> AnswersNoted
    ensures { AreTimes R.shown bookmark.now.login fetched.now.pulled.reports result }
{
    let reports = fetched.pulled().reports.as_slice();
    times.add(times_of(reports, bookmark.login(), rt.moment()))
}

/// Goes on behind what was sent: of reports it is counted how long they took, and the session is told of them, and the writer
/// rests behind the last of them until he is woken. Answers that nothing is sent any more, if so.
fn go_on<D: Door, R: Wait + Clock + Dial>(
    rt: &R,
    door: &D,
    wakeup: &WriterWakeup,
    times: &AnswerTimes,
    shared: &SharedConnection<D::Pass>,
    due: NextWrite,
    bookmark: &mut Bookmark,
) -> Option<Finished>
    ensures last { is_some result ≡ is_last_write due }
    ensures next { bookmark.new.next ≡ next_after due bookmark.old.next }
    ensures user { bookmark.new.user ≡ bookmark.old.user }
{
    match due {
        NextWrite::Reports(fetched) => {
            let noted = note_times(rt, times, &fetched, bookmark);
            let rest = shared.sent(rt, door, noted, fetched, bookmark);
            if rest > 0 {
                wakeup.wait(rt, Duration::from_nanos(rest));
            }
            None
        }
        NextWrite::Sign(signed) => signed.finished(),
        NextWrite::Nothing => None,
        NextWrite::Over(finished) => Some(finished),
    }
}

/// Waits for the answer to the login, and sends it once the records are kept of which it may tell.
#[tactic(auto, using(crate::proofs::Writer_next::is_greeted))]
fn write_answer<D: Door, O: Write, R: Wait + Clock + Dial>(
    rt: &R,
    alloc: Global,
    door: &D,
    shutdown: &ShutdownFlag,
    wakeup: &WriterWakeup,
    shared: &SharedConnection<D::Pass>,
    writer: &mut CallCounter<O>,
) -> LoginOutcome
    requires { writer.old.failed < 2 ^ 64 - 1 }
    ensures answered { IsGreeted
        (O.contents writer.old.device) (O.contents writer.new.device) result }
    ensures kept { IfOn result (writer.new.failed ≡ writer.old.failed) }
{
    let answered = match shared.await_answer(rt, door, shutdown, wakeup) {
        Ok(answered) => answered,
        Err(finished) => return LoginOutcome::Over(finished),
    };
    match send_answer(rt, alloc, door, shutdown, &answered, writer) {
        Ok(()) => answered.sent(),
        Err(cause) => {
            shared.break_off(rt, door, cause);
            LoginOutcome::Cut
        }
    }
}

/// Writes heartbeats and a user's reports from the bookmark on, until the session is over or the writer
/// fails. Answers that all was written, if so.
fn write_reports<D: Door, O: Write, R: Wait + Clock + Dial>(
    rt: &R,
    alloc: Global,
    door: &D,
    shutdown: &ShutdownFlag,
    wakeup: &WriterWakeup,
    times: &AnswerTimes,
    shared: &SharedConnection<D::Pass>,
    bookmark: Bookmark,
    writer: &mut CallCounter<O>,
) -> Option<Finished>
    requires { writer.old.failed < 2 ^ 64 - 1 }
    ensures spoken { WasSpoken (is_some result) D.kept D.policy bookmark.user bookmark.next
        (O.contents writer.old.device) (O.contents writer.new.device) }
{
    let mut bookmark = bookmark;
    for _ in rt.forever() {
        let due = shared.await_next_write(rt, door, shutdown, wakeup, &bookmark);
        if let Err(cause) = send_kept(rt, alloc, door, shutdown, &due, writer) {
            shared.break_off(rt, door, cause);
            return None;
        }
        if let Some(finished) = go_on(rt, door, wakeup, times, shared, due, &mut bookmark) {
            return Some(finished);
        }
    }
    unreachable!()
}

/// Writes the answer to a connection's login, and then, where it was accepted, its user's reports from the
/// number that the answer names on, each once and in order, heartbeats between them, until the
/// session is over or the writer fails. The answer and the reports are sent once the door keeps all records of which they may
/// tell; where it can't, nothing more is sent, and the server is asked to end. How long reports took until they were sent is counted there.
/// Answers that the session is over and all was written, if so.
pub fn write_on<D: Door, O: Write, R: Wait + Clock + Dial>(
    rt: &R,
    alloc: Global,
    door: &D,
    shutdown: &ShutdownFlag,
    wakeup: &WriterWakeup,
    times: &AnswerTimes,
    shared: &SharedConnection<D::Pass>,
    writer: &mut CallCounter<O>,
) -> Option<Finished>
    requires { writer.old.failed < 2 ^ 64 - 1 }
    ensures said { WasSaid (is_some result) D.kept D.policy
        (O.contents writer.old.device) (O.contents writer.new.device) }
{
    match write_answer(rt, alloc, door, shutdown, wakeup, shared, writer) {
        LoginOutcome::On(bookmark) => write_reports(
            rt, alloc, door, shutdown, wakeup, times, shared, bookmark, writer,
        ),
        LoginOutcome::Over(finished) => Some(finished),
        LoginOutcome::Cut => None,
    }
}
