//! Who is given a line.

ghost use Rattle.std.specs.Prelude.{◌≡◌, ◌≢◌, IfOk};
ghost use Rattle.gx_units.specs.declared.names.LoginRejection.TheVariants as rejections;
ghost use Rattle.gx_access_gate.specs.declared.outcome.LoginAnswer.TheVariants as answers;
ghost use Rattle.gx_door.specs.Callers.{caller_of};
ghost use Rattle.gx_door.specs.declared.caller.Caller.TheVariants as callers;
ghost use Rattle.gx_reception.specs.Admissions.{IsAdmitted};

use crate::lines::{Lines, NoLine};
use crate::strangers::{Denial, Strangers, Undenied};
use gx_door::{Caller, Dial, Door, Issuer};
use gx_pass::PassFault;
use gx_soup::LoginRequest;
use std::sync::{Mutex, Wait};

/// What comes of a login, before its user has a line.
#[derive(Drop)]
pub enum Admission<T: Drop> {
    /// He has a user's password: the pass of a line of his own, and who he is.
    Line(T, Caller),
    /// He has a user's password, and there is no line for him.
    NoLine(NoLine),
    /// He has none.
    Stranger,
}

/// Where those who come to a door of this kind are given lines, as whoever serves them sees it.
pub trait Admits<D: Door> {
    /// What comes of a login, before its user has a line. No step is made.
    fn admit<R: Wait>(&self, rt: &R, door: &D, login: &LoginRequest) -> Admission<D::Pass>
        ensures { IsAdmitted D.policy D.observed login.now result };

    /// Makes the step of a login that is denied for its password. At `Err` none was made, and it is not answered.
    fn deny<R: Wait + Dial>(
        &self,
        rt: &R,
        door: &D,
        login: &LoginRequest,
    ) -> Result<Denial, Undenied>
        requires stranger { caller_of D.policy login.now.user login.now.password
            ≡ callers.Stranger }
        ensures rejected { IfOk result (λ d. d ≡ answers.Rejected rejections.NotAuthorized) };
}

/// Where those who ask to log in are given lines. Nobody else uses one up: whoever has no user's password is denied on a
/// line that all of them share.
#[derive(Drop)]
pub struct Reception<D: Door, I: Issuer<D> + Drop> {
    lines: Mutex<Lines<D, I>>,
    strangers: Mutex<Strangers<D>>,
}

impl<D: Door, I: Issuer<D> + Drop> Reception<D, I> {
    /// Opens it: the next line is that of strangers.
    ///
    /// # Errors
    ///
    /// Where the issuer gives no pass.
    pub fn open<R: Wait>(rt: &R, door: &D, issuer: I) -> Result<Reception<D, I>, PassFault> {
        let mut issuer = issuer;
        let pass = issuer.issue(rt)?;
        let last = door.line_of(&pass);
        Ok(Reception {
            lines: Mutex::new(Lines::behind(issuer, last)),
            strangers: Mutex::new(Strangers::new(pass)),
        })
    }

    /// Gives a line to somebody with a user's password.
    fn give<R: Wait>(
        &self,
        rt: &R,
        door: &D,
        login: &LoginRequest,
        caller: Caller,
    ) -> Admission<D::Pass>
        requires caller { caller ≡ caller_of D.policy login.now.user login.now.password }
        requires known { caller ≢ callers.Stranger }
        ensures { IsAdmitted D.policy D.observed login.now result }
    {
        let given = self.lines.lock(rt).give(rt, door, caller);
        match given {
            Ok(pass) => Admission::Line(pass, caller),
            Err(why) => Admission::NoLine(why),
        }
    }

    /// Gives a line to a trader, unless the records that are left are kept for others.
    fn give_trader<R: Wait>(&self, rt: &R, door: &D, login: &LoginRequest) -> Admission<D::Pass>
        requires caller { caller_of D.policy login.now.user login.now.password ≡ callers.Trader }
        ensures { IsAdmitted D.policy D.observed login.now result }
    {
        let length = self.strangers.lock(rt).length(door);
        match NoLine::for_records(length) {
            Some(why) => Admission::NoLine(why),
            None => self.give(rt, door, login, Caller::Trader),
        }
    }
}

impl<D: Door, I: Issuer<D> + Drop> Admits<D> for Reception<D, I> {
    fn admit<R: Wait>(&self, rt: &R, door: &D, login: &LoginRequest) -> Admission<D::Pass> {
        match door.caller(rt, login.user, login.password) {
            Caller::Trader => self.give_trader(rt, door, login),
            Caller::Staff => self.give(rt, door, login, Caller::Staff),
            Caller::Stranger => Admission::Stranger,
        }
    }

    fn deny<R: Wait + Dial>(
        &self,
        rt: &R,
        door: &D,
        login: &LoginRequest,
    ) -> Result<Denial, Undenied> {
        self.strangers.lock(rt).deny(rt, door, login, rt.moment())
    }
}
