//! What is served beside a server, of the same gate.

ghost use Rattle.std.specs.Prelude.{◌≡◌};

use crate::dated::Dated;
use crate::fault::ServeFault;
use gx_control::{ServerControl, ShutdownFlag};
use gx_door::{Dial, Door, Issuer};
use gx_policy::Policy;
use gx_serve::Announces;
use std::alloc::Global;
use std::marker::Model;
use std::sync::Wait;
use std::time::Clock;

/// What is served beside a server, in a thread of its own, as a risk desk's page is.
pub trait Companion: Drop {
    /// Goes on until the end is asked for. It looks at the gate, and makes steps, at the door with the pass.
    fn go_on<T: Drop, D: Door<Pass = T>, R: Wait + Clock + Dial + Announces>(
        self,
        rt: &R,
        alloc: Global,
        door: &D,
        pass: T,
        policy: &Policy,
        control: &ServerControl,
        closing: &ShutdownFlag,
    )
        requires policy { policy.now ≡ D.policy };
}

/// A companion, and what it goes on with.
#[derive(Drop)]
pub(crate) struct Accompanied<'x, T: Drop, D: Door<Pass = T>, C: Companion> {
    companion: C,
    pass: T,
    door: &'x D,
    policy: &'x Policy,
    ghost same: { policy.now ≡ D.policy },
}

// Clauses see nothing of it, which keeps the proofs of threads small.
impl<'x, T: Drop, D: Door<Pass = T>, C: Companion> Model for Accompanied<'x, T, D, C> {
    ghost use Rattle.std.specs.Prelude.{⊤};

    ghost Value = { ⊤ };

    ghost view = { λ _. tt };
}

/// The companion of a server at this door, if it is to have one. It has a line of the day.
pub(crate) fn accompany<'x, T: Drop, D: Door<Pass = T>, I: Issuer<D>, C: Companion, R: Wait>(
    rt: &R,
    door: &'x D,
    policy: &'x Policy,
    issuer: &mut I,
    companion: Option<C>,
) -> Result<Option<Accompanied<'x, T, D, C>>, ServeFault>
    requires policy { policy.now ≡ D.policy }
{
    let Some(companion) = companion else {
        return Ok(None);
    };
    let pass = issuer.issue(rt)?;
    Ok(Some(Accompanied {
        companion,
        pass,
        door,
        policy,
    }))
}

/// What goes on beside a server, until its end is asked for.
pub(crate) trait Aside {
    /// Goes on.
    fn go_on<R: Wait + Clock>(
        self,
        rt: &R,
        alloc: Global,
        control: &ServerControl,
        closing: &ShutdownFlag,
    );
}

impl<T: Drop, D: Door<Pass = T>, C: Companion> Aside for Accompanied<'_, T, D, C> {
    fn go_on<R: Wait + Clock>(
        self,
        rt: &R,
        alloc: Global,
        control: &ServerControl,
        closing: &ShutdownFlag,
    ) {
        let Accompanied {
            companion,
            pass,
            door,
            policy,
        } = self;
        let rt = &Dated::new(rt, alloc, control);
        companion.go_on(rt, alloc, door, pass, policy, control, closing);
    }
}
