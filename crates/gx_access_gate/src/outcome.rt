//! What a step answers, and what a login is told.

ghost use Rattle.std.specs.Prelude.{◌≡◌};
ghost use Rattle.gx_access_gate.specs.Gates.{left_by, matched_by};

use gx_history::record::{Asked, RecordData, Step, Verdict};
use gx_units::{LoginRejection, Moment, OutOfMemory, SessionName};
use thiserror::Error;

/// The number, the moment and the verdict of the record that a step left.
#[derive(Clone, Copy, PartialEq, Eq)]
pub struct Outcome {
    /// The number of the record; the first is 1.
    pub number: u64,
    /// The moment handed in, or that of the record before where it is later.
    pub moment: Moment,
    /// What became of the step.
    pub verdict: Verdict,
}

/// The record of a request with this outcome.
pub fn record_of(a: &Asked, outcome: Outcome) -> RecordData
    ensures { result ≡ left_by a.now outcome }
{
    RecordData {
        number: outcome.number,
        moment: outcome.moment,
        step: Step::Asked(*a),
        verdict: outcome.verdict,
    }
}

/// The record of a matching step with this outcome.
pub fn record_of_match(handed: Moment, outcome: Outcome) -> RecordData
    ensures { result ≡ matched_by handed outcome }
{
    RecordData {
        number: outcome.number,
        moment: outcome.moment,
        step: Step::Matching(handed),
        verdict: outcome.verdict,
    }
}

/// What a login is told: SoupBinTCP's Login Accepted or Login Rejected.
#[derive(Clone, Copy, PartialEq, Eq)]
pub enum LoginAnswer {
    /// Login Accepted.
    Accepted {
        /// The session that the user is logged in to.
        session: SessionName,
        /// The number of the next report that is sent.
        next: u64,
    },
    /// Login Rejected, with its reason.
    Rejected(LoginRejection),
}

/// Why a step was not made. Nothing has changed then.
#[derive(Clone, Copy, Debug, PartialEq, Eq, Error)]
pub enum StepFault {
    /// The allocator refused the place of the record.
    #[error("out of memory")]
    OutOfMemory,
    /// The day has as many records as it may have.
    #[error("day full")]
    DayFull,
}

impl From<OutOfMemory> for StepFault {
    ghost use Rattle.gx_access_gate.specs.declared.outcome.StepFault.TheVariants as faults;

    ghost from_gives = { λ _ e. e ≡ faults.OutOfMemory };

    fn from(_refused: OutOfMemory) -> StepFault {
        StepFault::OutOfMemory
    }
}
