//! A reception of officers alone.

ghost use Rattle.std.specs.Prelude.{◌≡◌, IsTrue};
ghost use Rattle.gx_units.specs.Spelling.{folded_user};
ghost use Rattle.gx_policy.specs.People.{is_officer, role_in};
ghost use Rattle.gx_reception.specs.Admissions.{IfLine, IsAdmitted};

use crate::lines::NoLine;
use crate::reception::{Admission, Admits};
use crate::strangers::{Denial, Undenied};
use gx_door::{Caller, Dial, Door};
use gx_policy::Policy;
use gx_soup::LoginRequest;
use std::marker::Model;
use std::sync::Wait;

/// A reception that gives lines to the policy's officers alone, those of another one: whoever else has a user's password is
/// told that there is none for him. Contracts see the policy.
#[derive(Drop)]
pub struct OfficersAlone<'x, A> {
    policy: &'x Policy,
    reception: &'x A,
}

impl<'x, A> Model for OfficersAlone<'x, A> {
    ghost use Rattle.gx_policy.specs.declared.policy.PolicyData.{PolicyData};

    ghost Value = { PolicyData };

    ghost view = { λ o. o.policy.now };
}

impl<'x, A> OfficersAlone<'x, A> {
    /// Gives the lines of this reception to the officers of this policy.
    pub fn new(policy: &'x Policy, reception: &'x A) -> OfficersAlone<'x, A>
        ensures { result ≡ policy.now }
    {
        OfficersAlone { policy, reception }
    }

    /// What comes of a login, before its user has a line: a line for officers alone. No step is made.
    pub fn admit_officer<D: Door, R: Wait>(
        &self,
        rt: &R,
        door: &D,
        login: &LoginRequest,
    ) -> Admission<D::Pass>
    where
        A: Admits<D>,
        ensures admitted { IsAdmitted D.policy D.observed login.now result }
        ensures officers { IfLine result (IsTrue (is_officer
            (role_in self.now.users (folded_user login.now.user)))) }
    {
        let Some(why) = NoLine::for_no_officer(self.policy, login.user.folded()) else {
            return self.reception.admit(rt, door, login);
        };
        match door.caller(rt, login.user, login.password) {
            Caller::Stranger => Admission::Stranger,
            Caller::Trader | Caller::Staff => Admission::NoLine(why),
        }
    }
}

impl<D: Door, A: Admits<D>> Admits<D> for OfficersAlone<'_, A> {
    fn admit<R: Wait>(&self, rt: &R, door: &D, login: &LoginRequest) -> Admission<D::Pass> {
        self.admit_officer(rt, door, login)
    }

    fn deny<R: Wait + Dial>(
        &self,
        rt: &R,
        door: &D,
        login: &LoginRequest,
    ) -> Result<Denial, Undenied> {
        self.reception.deny(rt, door, login)
    }
}
