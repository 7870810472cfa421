//! A connection up to its login.

ghost use Rattle.std.specs.Prelude.{◌≡◌, ◌-◌, ◌^◌, ◌<◌};
ghost use Rattle.gx_units.specs.declared.names.LoginRejection.TheVariants as rejections;
ghost use Rattle.gx_access_gate.specs.declared.outcome.LoginAnswer.TheVariants as answers;
ghost use Rattle.gx_door.specs.Callers.{caller_of};
ghost use Rattle.gx_door.specs.declared.caller.Caller.TheVariants as callers;
ghost use Rattle.gx_serve.specs.Receptions.{WasReceived, WasTurnedAway, WasTurnedOff};

use crate::reading::Cut;
use crate::writing::is_all_kept;
use gx_control::ShutdownFlag;
use gx_devices::CallCounter;
use gx_door::{Caller, Dial, Door};
use gx_reception::{
    Admission, Admits, Denial, Knock, NoLine, Opening, Undenied, await_login, read_piece,
};
use gx_session::{Control, send_control};
use gx_soup::LoginRequest;
use std::alloc::Global;
use std::io::{Read, Write};
use std::sync::Wait;

/// Why a connection has ended.
#[derive(Clone, Copy)]
pub enum Gone {
    /// It was cut off for what came of its peer.
    Cut(Cut),
    /// There is no line for its user, who has the right password.
    NoLine(NoLine),
    /// Its login was denied for its password.
    Denied,
    /// Its login has no user's password, and was not put on record.
    Spared,
    /// It ended, or began with another packet, or there was no memory or no room in the day for it.
    Quietly,
}

/// What comes of a connection's first packets.
#[derive(Drop)]
pub enum Received<T: Drop> {
    /// A user with the right password, the pass of a line of his own, who he is, and what was read so far: his login is to
    /// be made.
    Admitted(T, Caller, Opening),
    /// The login of somebody who has no user's password: it is to be denied.
    Stranger(LoginRequest),
    /// The session is over.
    Gone(Gone),
}

/// Gives a login a line, if its user has the right password.
fn admit<D: Door, A: Admits<D>, R: Wait>(
    rt: &R,
    door: &D,
    reception: &A,
    opening: Opening,
) -> Received<D::Pass>
    ensures { WasReceived D.policy D.observed result }
{
    let login = opening.login();
    match reception.admit(rt, door, &login) {
        Admission::Line(pass, caller) => Received::Admitted(pass, caller, opening),
        Admission::NoLine(why) => Received::Gone(Gone::NoLine(why)),
        Admission::Stranger => Received::Stranger(login),
    }
}

/// Reads a connection up to its login, and gives it a line. Nothing is written.
pub fn receive<D: Door, A: Admits<D>, N: Read, R: Wait>(
    rt: &R,
    alloc: Global,
    door: &D,
    reception: &A,
    reader: &mut CallCounter<N>,
) -> Received<D::Pass>
    ensures { WasReceived D.policy D.observed result }
{
    match await_login(rt, alloc, reader) {
        Knock::Login(opening) => admit(rt, door, reception, opening),
        Knock::Broken(fault) => Received::Gone(Gone::Cut(Cut::Broken(fault))),
        Knock::Other | Knock::Refused | Knock::Ended => Received::Gone(Gone::Quietly),
    }
}

/// Answers a login that was denied, once the record of it is kept.
fn turn_off<D: Door, O: Write, R: Wait>(
    rt: &R,
    alloc: Global,
    door: &D,
    shutdown: &ShutdownFlag,
    denial: Denial,
    writer: &mut CallCounter<O>,
)
    requires writer { writer.old.failed < 2 ^ 64 - 1 }
    requires denied { denial ≡ answers.Rejected rejections.NotAuthorized }
    ensures { WasTurnedOff (answers.Rejected rejections.NotAuthorized)
        (O.contents writer.old.device) (O.contents writer.new.device) }
{
    if is_all_kept(rt, door, shutdown) {
        let _ = send_control(alloc, Control::Answer(denial.answer()), writer);
    }
}

/// Denies the login of somebody who has no user's password, and answers it, once the record of it is kept. Nobody else writes
/// meanwhile.
pub fn turn_away<D: Door, A: Admits<D>, O: Write, R: Wait + Dial>(
    rt: &R,
    alloc: Global,
    door: &D,
    shutdown: &ShutdownFlag,
    reception: &A,
    login: &LoginRequest,
    writer: &mut CallCounter<O>,
) -> Gone
    requires writer { writer.old.failed < 2 ^ 64 - 1 }
    requires stranger { caller_of D.policy login.now.user login.now.password ≡ callers.Stranger }
    ensures { WasTurnedAway (O.contents writer.old.device) (O.contents writer.new.device) result }
{
    match reception.deny(rt, door, login) {
        Ok(denial) => {
            turn_off(rt, alloc, door, shutdown, denial, writer);
            Gone::Denied
        }
        Err(Undenied::Spared) => Gone::Spared,
        Err(Undenied::Refused(_)) => Gone::Quietly,
    }
}

/// Reads on until the input ends or fails, and lets go of what comes.
pub fn read_to_end<N: Read, R: Wait>(rt: &R, reader: &mut CallCounter<N>) {
    let mut buffer = [0u8; 4096];
    for _ in rt.forever() {
        if read_piece(reader, &mut buffer).is_none() {
            return;
        }
    }
}
