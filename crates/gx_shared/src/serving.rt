//! A server whose day begins with it.

ghost use Rattle.std.specs.Prelude.{◌≡◌, length, IfOk};
ghost use Rattle.gx_history.specs.Verdicts.{IsLegal};
ghost use Rattle.gx_shared.specs.Permits.{all_parts};

use crate::counted_pass::CountedPass;
use crate::entrance::Entrance;
use crate::logging::day_log;
use crate::permit::BlankLedgers;
use crate::shared::SharedGate;
use gx_control::ServerControl;
use gx_listen::{Companion, Ending, ServeFault, serve_door};
use gx_pass::{Blank, GateName};
use gx_policy::Policy;
use gx_records::{ShowsRecords, ShowsState};
use std::alloc::Global;
use std::marker::Brand;
use std::net::TcpListener;
use std::sync::Wait;
use std::sync::ledger::Total;
use std::thread::Threads;
use std::time::Clock;

/// What a server leaves. Its gate is closed, and never dropped.
pub struct Served<G> {
    /// The gate that was served: its records are a legal day.
    pub gate: G,
    /// How the server ended.
    pub ended: Ending,
}

/// Serves at a gate of this name. Gives a pass too, which has met all that was done, and how many records that are.
fn serve_shared<
    G: ShowsRecords + ShowsState + Send,
    N: GateName + Send + Sync,
    C: Companion + Send,
    R: Threads + Wait + Clock + Sync,
>(
    rt: &R,
    alloc: Global,
    policy: &Policy,
    blank: Blank,
    ledgers: BlankLedgers,
    control: &ServerControl,
    companion: Option<C>,
    listener: TcpListener,
    connections: u64,
) -> Result<(Served<G>, CountedPass<N>, Total<N>), ServeFault>
    requires policy { policy.now ≡ N.policy }
    requires blank { blank ≡ N.table }
    requires records { ledgers.records ≡ N.name }
    requires lines { ledgers.lines ≡ N.lines }
    requires parts { N.parts ≡ all_parts }
    ensures policy { IfOk result (λ left. (G.state left.0.gate).policy ≡ N.policy) }
    ensures legal { IfOk result (λ left. IsLegal N.policy (G.state left.0.gate).records) }
    ensures met { IfOk result (λ left. left.1.held.front ≡ (G.state left.0.gate).records) }
    ensures total { IfOk result
        (λ left. left.2.amount ≡ length (G.state left.0.gate).records) }
{
    let log = day_log(alloc, policy, control, 0)?;
    let (door, permits) = SharedGate::<G, N>::new(alloc, policy, blank, ledgers)?;
    let entrance = Entrance::new(&door, permits);
    let served = serve_door(
        rt,
        alloc,
        &door,
        policy,
        entrance,
        control,
        log,
        companion,
        listener,
        connections,
    );
    match served {
        Ok((pass, ended)) => {
            let (gate, pass, total) = door.close(pass);
            Ok((Served { gate, ended }, pass, total))
        }
        Err(unserved) => {
            door.release();
            Err(unserved.fault())
        }
    }
}

/// Serves at a gate of this name.
fn serve_named<
    G: ShowsRecords + ShowsState + Send,
    N: GateName + Send + Sync,
    C: Companion + Send,
    R: Threads + Wait + Clock + Sync,
>(
    rt: &R,
    alloc: Global,
    policy: &Policy,
    blank: Blank,
    ledgers: BlankLedgers,
    control: &ServerControl,
    companion: Option<C>,
    listener: TcpListener,
    connections: u64,
) -> Result<Served<G>, ServeFault>
    requires policy { policy.now ≡ N.policy }
    requires blank { blank ≡ N.table }
    requires records { ledgers.records ≡ N.name }
    requires lines { ledgers.lines ≡ N.lines }
    requires parts { N.parts ≡ all_parts }
    ensures policy { IfOk result (λ served. (G.state served.gate).policy ≡ N.policy) }
    ensures legal { IfOk result (λ served. IsLegal N.policy (G.state served.gate).records) }
{
    match serve_shared::<G, N, C, R>(
        rt,
        alloc,
        policy,
        blank,
        ledgers,
        control,
        companion,
        listener,
        connections,
    ) {
        Ok((served, _pass, _total)) => Ok(served),
        Err(fault) => Err(fault),
    }
}

/// Takes connections under the policy, and serves each until it ends: so many of them, or
/// fewer where the server is asked to end. The companion, if there is one, is served beside them. Gives the gate back, also
/// where it gave up.
pub fn serve<
    G: ShowsRecords + ShowsState + Send,
    C: Companion + Send,
    R: Threads + Wait + Clock + Sync,
>(
    rt: &R,
    alloc: Global,
    policy: &Policy,
    control: &ServerControl,
    companion: Option<C>,
    listener: TcpListener,
    connections: u64,
) -> Result<Served<G>, ServeFault>
    ensures policy { IfOk result (λ served. (G.state served.gate).policy ≡ policy.now) }
    ensures legal { IfOk result (λ served. IsLegal policy.now (G.state served.gate).records) }
{
    let blank = Blank::new(alloc)?;
    let ledgers = BlankLedgers::new();
    serve_named::<G, Brand, C, R>(
        rt,
        alloc,
        policy,
        blank,
        ledgers,
        control,
        companion,
        listener,
        connections,
    )
}
