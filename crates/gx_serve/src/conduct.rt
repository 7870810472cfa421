//! How a user behaves, and when he is put out for it.

ghost use Rattle.std.specs.Prelude.{◌≡◌};
ghost use Rattle.gx_serve.specs.Conducts.{exclusion_of, is_silent_rule, silent_after};

use gx_door::Caller;
use gx_history::record::Verdict;
use gx_policy::RuleName;
use gx_reception::LAST_TRADERS_RECORD;
use std::marker::Model;

/// Once so many requests of a user, one behind the other, were denied in silence, he is put out.
const MOST_SILENT: u16 = 1_000;

/// Why a user is put out.
#[derive(Clone, Copy, PartialEq, Eq)]
pub enum Exclusion {
    /// 1,000 of his requests, one behind the other, were denied by rules that nobody is told of: G1, G2 or G3.
    Silent,
    /// He is a trader, and the records that are left of the day are kept for officers and readers.
    Kept,
}

/// Who a user is, and how many of his last requests, one behind the other, were denied in silence; 1,000 where there are
/// more.
#[derive(Drop)]
pub struct Conduct {
    caller: Caller,
    silent: u16,
}

impl Model for Conduct {
    ghost use Rattle.std.specs.Prelude.{◌≤◌};
    ghost use Rattle.gx_serve.specs.Conducts.{ConductData};

    ghost Value = { ConductData };

    ghost view = { λ c. record { caller = c.caller; silent = c.silent } };

    ghost invariant = { λ c. c.silent ≤ 1000 };
}

/// Whether nobody is told of a denial by this rule.
fn is_silent(rule: RuleName) -> bool
    ensures { result ≡ is_silent_rule rule }
{
    matches!(rule, RuleName::G1 | RuleName::G2 | RuleName::G3)
}

impl Conduct {
    /// Of somebody who has asked for nothing yet.
    pub fn new(caller: Caller) -> Conduct
        ensures caller { result.caller ≡ caller }
        ensures none { result.silent ≡ 0 }
    {
        Conduct { caller, silent: 0 }
    }

    /// One more request of his was decided so.
    pub fn note(&mut self, verdict: &Verdict)
        ensures caller { self.new.caller ≡ self.old.caller }
        ensures silent { self.new.silent ≡ silent_after self.old.silent verdict.now }
    {
        self.silent = match verdict {
            Verdict::Denied(rule) if is_silent(*rule) => (self.silent + 1).min(MOST_SILENT),
            _ => 0,
        };
    }

    /// Why he is put out, if he is, where there are so many records.
    pub fn exclusion(&self, length: u64) -> Option<Exclusion>
        ensures { result ≡ exclusion_of self.now length }
    {
        if self.silent >= MOST_SILENT {
            Some(Exclusion::Silent)
        } else if self.caller == Caller::Trader && length >= LAST_TRADERS_RECORD {
            Some(Exclusion::Kept)
        } else {
            None
        }
    }
}
