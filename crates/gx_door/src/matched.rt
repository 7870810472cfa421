//! What becomes of matching steps.

ghost use Rattle.std.specs.Prelude.{◌≡◌, ◌↔◌, IsTrue};
ghost use Rattle.gx_door.specs.declared.matched.MatchEnd.TheVariants as ends;

use crate::ended::EndedTotals;
use gx_access_gate::{Outcome, StepFault};

/// Why no more matching steps were made.
#[derive(Clone, Copy)]
pub enum MatchEnd {
    /// No order waits.
    Idle,
    /// As many were made as were asked for.
    Enough,
    /// One was refused, and an order waits still.
    Refused(StepFault),
}

impl MatchEnd {
    /// Whether no order waits.
    pub fn is_idle(self) -> bool
        ensures { IsTrue result ↔ self ≡ ends.Idle }
    {
        match self {
            MatchEnd::Idle => true,
            MatchEnd::Enough | MatchEnd::Refused(_) => false,
        }
    }
}

/// How many matching steps were made, and why no more.
#[derive(Clone, Copy)]
pub struct Matched {
    /// How many steps were made.
    pub made: u64,
    /// Why no more were made.
    pub end: MatchEnd,
}

/// What becomes of a request, and of matching steps behind it.
#[derive(Clone, Copy)]
pub struct Turned {
    /// What the request's record says.
    pub outcome: Outcome,
    /// What the request's own record ended.
    pub ended: EndedTotals,
    /// The matching steps behind it.
    pub matched: Matched,
}
