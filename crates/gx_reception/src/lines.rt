//! The day's lines.

ghost use Rattle.std.specs.Prelude.{◌≡◌, ◌+◌, ◌≤◌, ◌<◌, [], IfErr, IfNone, IfOk, IfSome, IsFalse, IsTrue, OnErr, OnOk};
ghost use Rattle.gx_policy.specs.People.{is_officer, role_in};
ghost use Rattle.gx_history.specs.Verdicts.{IsLegal};
ghost use Rattle.gx_pass.specs.declared.pass.PassFault.TheVariants as pass_faults;
ghost use Rattle.gx_pass.specs.Views.{mine};
ghost use Rattle.gx_door.specs.declared.caller.Caller.TheVariants as callers;
ghost use Rattle.gx_reception.specs.declared.lines.LineFault.TheVariants as line_faults;

use crate::reserve::{LAST_TRADERS_LINE, LAST_TRADERS_RECORD};
use gx_door::{Caller, Door, Issuer, is_officer};
use gx_pass::PassFault;
use gx_policy::Policy;
use gx_units::UserName;
use std::marker::{Model, PhantomData};
use std::sync::Wait;

/// Why somebody with a right password is given no line.
#[derive(Clone, Copy, PartialEq, Eq)]
pub enum LineFault {
    /// He is a trader, and the lines or the records that are left are kept for officers and readers.
    Kept,
    /// He is no officer, and officers alone are taken: the server has taken as many connections as it was to.
    NoOfficer,
    /// No pass was issued.
    Unissued(PassFault),
}

/// That somebody with a right password is given no line: only [`Lines::give`] makes one, [`NoLine::for_records`],
/// and, of whom the policy has as no officer, [`OfficersAlone`](crate::OfficersAlone). Contracts see why.
#[derive(Clone, Copy)]
pub struct NoLine {
    why: LineFault,
}

impl Model for NoLine {
    ghost use Rattle.gx_reception.specs.declared.lines.LineFault.{LineFault};

    ghost Value = { LineFault };

    ghost view = { λ n. n.why };

    ghost inverse = { λ why. record { why = why } };
}

impl NoLine {
    /// That a trader is given none, since there are so many records that the day's last are left, which are kept for
    /// others; `None` where there are fewer.
    pub fn for_records(records: u64) -> Option<NoLine>
        ensures some { IfSome result (λ n. (n ≡ line_faults.Kept) × (16711680 ≤ records)) }
        ensures none { IfNone result (records < 16711680) }
    {
        if records < LAST_TRADERS_RECORD {
            return None;
        }
        Some(NoLine {
            why: LineFault::Kept,
        })
    }

    /// That this user is given none where officers alone are taken, since the policy has no officer of this name; `None` where
    /// it has one.
    pub(crate) fn for_no_officer(policy: &Policy, user: UserName) -> Option<NoLine>
        ensures some { IfSome result (λ n. (n ≡ line_faults.NoOfficer)
            × IsFalse (is_officer (role_in policy.now.users user))) }
        ensures none { IfNone result (IsTrue (is_officer (role_in policy.now.users user))) }
    {
        if is_officer(policy, user) {
            return None;
        }
        Some(NoLine {
            why: LineFault::NoOfficer,
        })
    }

    /// Why he is given none.
    pub fn why(&self) -> LineFault
        ensures { result ≡ self.now }
    {
        self.why
    }
}

/// The day's lines, which are given in their order. Contracts see the last that was given.
#[derive(Drop)]
pub struct Lines<D: Door, I: Issuer<D> + Drop> {
    issuer: I,
    last: u16,
    of: PhantomData<D::Pass>,
}

impl<D: Door, I: Issuer<D> + Drop> Model for Lines<D, I> {
    ghost use Rattle.std.specs.Prelude.{◌≡◌, ℕ};

    ghost Value = { ℕ };

    ghost view = { λ l. l.last };

    ghost invariant = { λ l. I.last l.issuer ≡ l.last };
}

impl<D: Door, I: Issuer<D> + Drop> Lines<D, I> {
    /// The lines behind this one, which was issued last.
    pub fn behind(issuer: I, last: u16) -> Lines<D, I>
        requires { I.last issuer ≡ last }
        ensures { result ≡ last }
    {
        Lines {
            issuer,
            last,
            of: PhantomData,
        }
    }

    /// A pass of the next line, for somebody with a right password.
    ///
    /// # Errors
    ///
    /// `Kept` exactly where a trader comes once the last of the traders' lines was given; else what the issuer answers:
    /// `NoLines` only where the last line was given that there is, 65,535.
    pub fn give<R: Wait>(&mut self, rt: &R, door: &D, caller: Caller) -> Result<D::Pass, NoLine>
        ensures legal { IfOk result (λ p. IsLegal D.policy (D.observed p).front) }
        ensures own { IfOk result (λ p. mine (D.observed p) ≡ []) }
        ensures adds_none { IfOk result (λ p. D.added p ≡ 0) }
        ensures last { IfOk result (λ p. self.new ≡ (D.observed p).line) }
        ensures next { OnOk result (self.new ≡ self.old + 1) }
        ensures same { OnErr result (self.new ≡ self.old) }
        ensures traders { OnOk result (caller ≡ callers.Trader → self.old ≤ 61438) }
        ensures reserved { IfErr result (λ e.
            e ≡ line_faults.Kept → (caller ≡ callers.Trader) × (61439 ≤ self.old)) }
        ensures no_lines { IfErr result (λ e.
            e ≡ line_faults.Unissued pass_faults.NoLines → self.old ≡ 65535) }
    {
        if caller == Caller::Trader && self.last >= LAST_TRADERS_LINE {
            return Err(NoLine {
                why: LineFault::Kept,
            });
        }
        match self.issuer.issue(rt) {
            Ok(pass) => {
                self.last = door.line_of(&pass);
                Ok(pass)
            }
            Err(fault) => Err(NoLine {
                why: LineFault::Unissued(fault),
            }),
        }
    }
}
