//! The line of those who have no password.

ghost use Rattle.std.specs.Prelude.{◌≡◌, ◌≢◌, ◌≤◌, ◌<◌, ◌+◌, [], length, IfErr, IfOk, IsFalse, IsTrue, OnErr, OnOk, is_some};
ghost use Rattle.gx_units.specs.declared.names.LoginRejection.TheVariants as rejections;
ghost use Rattle.gx_access_gate.specs.declared.outcome.LoginAnswer.TheVariants as answers;
ghost use Rattle.gx_pass.specs.Views.{mine};
ghost use Rattle.gx_door.specs.{Acts.history_met, Callers.caller_of};
ghost use Rattle.gx_door.specs.declared.caller.Caller.TheVariants as callers;
ghost use Rattle.gx_reception.specs.Denials.{are_denied, is_reserved};
ghost use Rattle.gx_reception.specs.declared.strangers.Undenied.TheVariants as unmade;

use crate::reserve::{LAST_TRADERS_RECORD, MOST_DENIALS};
use gx_access_gate::{LoginAnswer, StepFault};
use gx_door::{Dial, Door};
use gx_soup::LoginRequest;
use gx_units::Moment;
use std::marker::Model;
use std::sync::Wait;

/// That a login was denied for its password, and what it is told. It is made by the denied step alone.
#[derive(Drop)]
pub struct Denial {
    answer: LoginAnswer,
}

impl Model for Denial {
    ghost use Rattle.gx_access_gate.specs.declared.outcome.LoginAnswer.{LoginAnswer};

    ghost Value = { LoginAnswer };

    ghost view = { λ d. d.answer };
}

impl Denial {
    /// What the login is told.
    pub fn answer(&self) -> LoginAnswer
        ensures { result ≡ self.now }
    {
        self.answer
    }
}

/// Why the login of a stranger is not put on record, and not answered.
#[derive(Clone, Copy, PartialEq, Eq)]
pub enum Undenied {
    /// So many are on record, or there are so many records, that the rest of the day's are for others.
    Spared,
    /// Its step was refused.
    Refused(StepFault),
}

/// The pass of a line that nobody is ever logged in on: the logins of those who have no password are made on it. All records
/// of the line are such logins, each denied, and they are never more than may be. Contracts see how many they are, and how many
/// records of the day the pass was told of.
#[derive(Drop)]
pub struct Strangers<D: Door> {
    /// Taken out for each call of the gate.
    pass: Option<D::Pass>,
    count: u32,
    ghost has_pass: { IsTrue (is_some pass) },
    ghost denied: { IsTrue (are_denied (mine (history_met D.observed pass))) },
    ghost counted: { length (mine (history_met D.observed pass)) ≡ count },
    ghost few: { count ≤ 1048576 },
}

impl<D: Door> Model for Strangers<D> {
    ghost use Rattle.gx_door.specs.{Acts.history_met};
    ghost use Rattle.gx_reception.specs.Denials.{StrangersData};

    ghost Value = { StrangersData };

    ghost view = { λ s. record {
      count = s.count;
      told = (history_met D.observed s.pass).told;
    } };
}

impl<D: Door> Strangers<D> {
    /// On a new line.
    pub fn new(pass: D::Pass) -> Strangers<D>
        requires own { mine (D.observed pass) ≡ [] }
        ensures none { result.count ≡ 0 }
    {
        Strangers {
            pass: Some(pass),
            count: 0,
        }
    }

    /// How many records there are, as the pass is told.
    pub fn length(&mut self, door: &D) -> u64
        ensures told { self.new.told ≡ result }
        ensures more { self.old.told ≤ result }
        ensures same { self.new.count ≡ self.old.count }
    {
        let Some(mut pass) = self.pass.take() else {
            unreachable!()
        };
        let length = door.length(&mut pass);
        self.pass = Some(pass);
        length
    }

    /// Makes a login's step.
    #[tactic(auto, using(crate::proofs::Login_denied::more_denied, crate::proofs::Login_denied::one_more, crate::proofs::Login_denied::stranger_is_told))]
    fn log_in<R: Wait + Dial>(
        &mut self,
        rt: &R,
        door: &D,
        login: &LoginRequest,
        moment: Moment,
    ) -> Result<Denial, Undenied>
        requires clock { R.shown moment }
        requires stranger { caller_of D.policy login.now.user login.now.password
            ≡ callers.Stranger }
        requires few { self.old.count < 1048576 }
        ensures rejected { IfOk result (λ d. d ≡ answers.Rejected rejections.NotAuthorized) }
        ensures counted { OnOk result (self.new.count ≡ self.old.count + 1) }
        ensures same { OnErr result (self.new.count ≡ self.old.count) }
        ensures refused { IfErr result (λ e. e ≢ unmade.Spared) }
    {
        let Some(pass) = self.pass.take() else {
            unreachable!()
        };
        let (pass, answer) = door.login(
            rt,
            pass,
            login.user,
            login.password,
            login.session,
            login.wanted,
            moment,
        );
        self.pass = Some(pass);
        match answer {
            Ok(answer) => {
                self.count += 1;
                Ok(Denial { answer })
            }
            Err(fault) => Err(Undenied::Refused(fault)),
        }
    }

    /// Makes a login's step, which is denied. At `Err` none was made.
    ///
    /// # Errors
    ///
    /// `Spared` where so many logins of strangers are on record, or there are so many records, that the rest is for others;
    /// else what the step was refused for.
    pub fn deny<R: Wait + Dial>(
        &mut self,
        rt: &R,
        door: &D,
        login: &LoginRequest,
        moment: Moment,
    ) -> Result<Denial, Undenied>
        requires clock { R.shown moment }
        requires stranger { caller_of D.policy login.now.user login.now.password
            ≡ callers.Stranger }
        ensures rejected { IfOk result (λ d. d ≡ answers.Rejected rejections.NotAuthorized) }
        ensures counted { OnOk result (self.new.count ≡ self.old.count + 1) }
        ensures same { OnErr result (self.new.count ≡ self.old.count) }
        ensures spared { IfErr result (λ e. e ≡ unmade.Spared
            → IsTrue (is_reserved self.new)) }
        ensures left { OnOk result (IsFalse (is_reserved self.old)) }
    {
        if self.count >= MOST_DENIALS || self.length(door) >= LAST_TRADERS_RECORD {
            return Err(Undenied::Spared);
        }
        self.log_in(rt, door, login, moment)
    }
}
