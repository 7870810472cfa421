//! A server whose day is kept.

ghost use Rattle.std.specs.Prelude.{◌≡◌, ◌≤◌, [], drop, length, IfOk, IfSome, None};
ghost use Rattle.gx_events.specs.Known.{known_of};
ghost use mathlib.Core.List.{IsPrefix};
ghost use Rattle.gx_history.specs.Verdicts.{IsLegal};
ghost use Rattle.gx_shared.specs.{Permits.all_parts, GoingOn.GoesOn};
ghost use Rattle.gx_journal.specs.Journals.{journal_bytes, IsGrown};

use crate::counted_pass::CountedPass;
use crate::entrance::Entrance;
use crate::logging::day_log;
use crate::permit::{BlankLedgers, Permits};
use crate::rest::put_rest;
use crate::shared::SharedGate;
use gx_audit_bytes::AuditVersion;
use gx_control::{ServerControl, Tallied};
use gx_devices::WriteFailed;
use gx_journal::{Journal, JournalName, JournalRoom, Journaled};
use gx_leaving::log_out_at_last;
use gx_listen::{Companion, DayLog, Ending, serve_door};
use gx_pass::{Blank, GateName, PassFault};
use gx_policy::Policy;
use gx_records::{ShowsRecords, ShowsState};
use std::alloc::Global;
use std::io::Write;
use std::marker::Brand;
use std::net::TcpListener;
use std::sync::Wait;
use std::sync::ledger::Total;
use std::thread::Threads;
use std::time::Clock;

/// What is left of a day that was kept. Its gate is closed, and never dropped.
pub struct KeptDay<G, W> {
    /// The gate that was served: its records are a legal day.
    pub gate: G,
    /// Why no more records were kept, if so: a call of the device has failed. The server was asked to end then.
    pub fault: Option<WriteFailed>,
    /// The device of the journal.
    pub device: W,
}

/// Closes a gate that no thread shares any more, and keeps what its journal lacks, unless that has failed. Gives a pass
/// too, which has met all that was done, and how many records that are.
pub fn close_kept<G: ShowsRecords + ShowsState, N: GateName, J: JournalName, W: Write + Drop>(
    shared: SharedGate<G, N>,
    journal: Journal<SharedGate<G, N>, W, J>,
) -> (KeptDay<G, W>, CountedPass<N>, Total<N>)
    ensures policy { (G.state result.0.gate).policy ≡ N.policy }
    ensures legal { IsLegal N.policy (G.state result.0.gate).records }
    ensures front { IsPrefix J.earlier (G.state result.0.gate).records }
    ensures met { result.1.held.front ≡ (G.state result.0.gate).records }
    ensures total { result.2.amount ≡ length (G.state result.0.gate).records }
    ensures kept { result.0.fault ≡ None → IsGrown J.begun (W.contents result.0.device)
        (journal_bytes J.version (drop J.count (G.state result.0.gate).records)) }
{
    let (pass, mut writer, mut room) = journal.into_parts();
    let (gate, met, total) = shared.close(pass);
    put_rest(&gate, &mut writer, &mut room);
    let (device, fault) = writer.into_parts();
    let kept = KeptDay {
        gate,
        fault,
        device,
    };
    (kept, met, total)
}

/// What is left of a day whose journal's writes were counted.
fn untallied<G, W>(kept: KeptDay<G, Tallied<'_, W>>) -> KeptDay<G, W>
    ensures gate { result.gate ≡ kept.entry.gate }
    ensures fault { result.fault ≡ kept.entry.fault }
    ensures device { result.device ≡ kept.entry.device.device }
{
    let KeptDay {
        gate,
        fault,
        device,
    } = kept;
    KeptDay {
        gate,
        fault,
        device: device.into_inner(),
    }
}

/// Serves at a gate whose records are kept on this device, on which there are so many of those that the pass has met. What is
/// written on it is counted in what the threads share. Gives a pass too, which has met all that was done, how many records that are, and how
/// the server ended.
fn serve_kept<
    G: ShowsRecords + ShowsState + Send,
    N: GateName + Send + Sync,
    J: JournalName + Send + Sync,
    W: Write + Drop + Send,
    C: Companion + Send,
    R: Threads + Wait + Clock + Sync,
>(
    rt: &R,
    alloc: Global,
    shared: SharedGate<G, N>,
    permits: Permits<N>,
    pass: CountedPass<N>,
    room: JournalRoom,
    version: AuditVersion,
    count: u64,
    device: W,
    policy: &Policy,
    control: &ServerControl,
    log: Option<DayLog>,
    companion: Option<C>,
    listener: TcpListener,
    connections: u64,
) -> (KeptDay<G, W>, CountedPass<N>, Total<N>, Ending)
    requires known { IfSome log (λ l. l.events.known ≡ known_of N.policy []) }
    requires policy { policy.now ≡ N.policy }
    requires version { version ≡ J.version }
    requires begun { W.contents device ≡ J.begun }
    requires count { count ≡ J.count }
    requires met { pass.held.front ≡ J.earlier }
    requires none_added { pass.added ≡ 0 }
    requires within { count ≤ length J.earlier }
    ensures policy { (G.state result.0.gate).policy ≡ N.policy }
    ensures legal { IsLegal N.policy (G.state result.0.gate).records }
    ensures front { IsPrefix J.earlier (G.state result.0.gate).records }
    ensures met { result.1.held.front ≡ (G.state result.0.gate).records }
    ensures total { result.2.amount ≡ length (G.state result.0.gate).records }
    ensures kept { result.0.fault ≡ None → IsGrown J.begun (W.contents result.0.device)
        (journal_bytes J.version (drop J.count (G.state result.0.gate).records)) }
{
    let device = Tallied::new(device, &control.journal);
    let door: Journaled<'_, SharedGate<G, N>, Tallied<'_, W>, J> = Journaled::new(
        room, version, &shared, pass, count, device,
    );
    let entrance = Entrance::new(&shared, permits);
    let served = serve_door(
        rt,
        alloc,
        &door,
        policy,
        entrance,
        control,
        log,
        companion,
        listener,
        connections,
    );
    let ended = match served {
        Ok((_pass, ended)) => ended,
        Err(unserved) => unserved.ending(),
    };
    let journal = door.into_journal();
    let (kept, met, total) = close_kept(shared, journal);
    (untallied(kept), met, total, ended)
}

fn serve_named<
    G: ShowsRecords + ShowsState + Send,
    N: GateName + Send + Sync,
    J: JournalName + Send + Sync,
    W: Write + Drop + Send,
    C: Companion + Send,
    R: Threads + Wait + Clock + Sync,
>(
    rt: &R,
    alloc: Global,
    gate: G,
    blank: Blank,
    ledgers: BlankLedgers,
    room: JournalRoom,
    version: AuditVersion,
    count: u64,
    device: W,
    policy: &Policy,
    control: &ServerControl,
    companion: Option<C>,
    listener: TcpListener,
    connections: u64,
) -> Result<(KeptDay<G, W>, Ending), PassFault>
    requires policy { (G.state gate).policy ≡ N.policy }
    requires same { policy.now ≡ N.policy }
    requires blank { blank ≡ N.table }
    requires records { ledgers.records ≡ N.name }
    requires lines { ledgers.lines ≡ N.lines }
    requires parts { N.parts ≡ all_parts }
    requires version { version ≡ J.version }
    requires begun { W.contents device ≡ J.begun }
    requires count { count ≡ J.count }
    requires earlier { (G.state gate).records ≡ J.earlier }
    requires within { count ≤ length J.earlier }
    ensures policy { IfOk result (λ left. (G.state left.0.gate).policy ≡ N.policy) }
    ensures legal { IfOk result (λ left. IsLegal N.policy (G.state left.0.gate).records) }
    ensures front { IfOk result (λ left. IsPrefix J.earlier (G.state left.0.gate).records) }
    ensures kept { IfOk result (λ left. left.0.fault ≡ None → IsGrown J.begun
        (W.contents left.0.device)
        (journal_bytes J.version (drop J.count (G.state left.0.gate).records))) }
{
    let Ok(log) = day_log(alloc, gate.policy(), control, count) else {
        gate.close();
        return Err(PassFault::OutOfMemory);
    };
    match SharedGate::<G, N>::over(gate, blank, ledgers) {
        Ok((shared, permits, pass)) => {
            let (kept, _met, _total, ended) = serve_kept::<G, N, J, W, C, R>(
                rt,
                alloc,
                shared,
                permits,
                pass,
                room,
                version,
                count,
                device,
                policy,
                control,
                log,
                companion,
                listener,
                connections,
            );
            Ok((kept, ended))
        }
        Err(fault) => Err(fault),
    }
}

/// Serves connections on a gate that has records, as [`serve`](crate::serve) does, and keeps its records on this device in
/// this version, on which there are the first `count` of them: each is written before anything that comes of it is sent. Whoever is
/// logged in by the records is logged out before. What is written on the device is counted in what the threads share. Gives what is left of
/// the day, and how the server ended.
///
/// After a fault of the device nothing more is sent, and the server ends. All memory that its writes take is taken before it
/// serves anybody.
///
/// # Errors
///
/// `NoLines` where the records have the last line that there is. The gate is closed then, as it is where memory is refused.
pub fn serve_journaled<
    G: ShowsRecords + ShowsState + Send,
    W: Write + Drop + Send,
    C: Companion + Send,
    R: Threads + Wait + Clock + Sync,
>(
    rt: &R,
    alloc: Global,
    gate: G,
    version: AuditVersion,
    count: u64,
    device: W,
    control: &ServerControl,
    companion: Option<C>,
    listener: TcpListener,
    connections: u64,
) -> Result<(KeptDay<G, W>, Ending), PassFault>
    requires count { count ≤ length (G.state gate).records }
    ensures policy { IfOk result
        (λ left. (G.state left.0.gate).policy ≡ (G.state gate).policy) }
    ensures legal { IfOk result
        (λ left. IsLegal (G.state gate).policy (G.state left.0.gate).records) }
    ensures goes_on { IfOk result (λ left.
        GoesOn (G.state gate).policy (G.state gate).records (G.state left.0.gate).records) }
    ensures kept { IfOk result (λ left. left.0.fault ≡ None → IsGrown (W.contents device)
        (W.contents left.0.device)
        (journal_bytes version (drop count (G.state left.0.gate).records))) }
{
    let mut gate = gate;
    let Ok(blank) = Blank::new(alloc) else {
        gate.close();
        return Err(PassFault::OutOfMemory);
    };
    let Ok(policy) = gate.policy().copied(alloc) else {
        gate.close();
        return Err(PassFault::OutOfMemory);
    };
    let Ok(room) = JournalRoom::new(alloc) else {
        gate.close();
        return Err(PassFault::OutOfMemory);
    };
    // no connection is left that made the records
    log_out_at_last(&mut gate);
    serve_named::<G, Brand, Brand, W, C, R>(
        rt,
        alloc,
        gate,
        blank,
        BlankLedgers::new(),
        room,
        version,
        count,
        device,
        &policy,
        control,
        companion,
        listener,
        connections,
    )
}
