//! Why a request was denied, in words.

ghost use Rattle.std.specs.Prelude.{◌≡◌};
ghost use Rattle.gx_history.specs.Reasons.{reject_reason};
ghost use Rattle.gx_fields.specs.Reasons.{built_in_words, reason_of, reason_words};

use gx_ouch::RejectReason;
use gx_policy::{KindName, Policy, RuleName};

/// Why a request was denied.
#[derive(Clone, Copy, PartialEq, Eq)]
pub enum Reason {
    /// By a built-in rule.
    BuiltIn(RuleName),
    /// By a rule of the file of this kind.
    OfKind(KindName),
}

/// Why the rule forbids; `None` where it is none of the policy's.
pub fn reason_of(policy: &Policy, rule: RuleName) -> Option<Reason>
    ensures { result ≡ reason_of policy.now rule }
{
    match rule {
        RuleName::File(name) => Some(Reason::OfKind(policy.rule(name)?.kind.name())),
        _ => Some(Reason::BuiltIn(rule)),
    }
}

/// What a built-in rule forbids.
fn built_in_words(rule: RuleName) -> &'static [u8]
    ensures { result.now ≡ built_in_words rule }
{
    match rule {
        RuleName::L1 => b"user unknown or password wrong",
        RuleName::L2 => b"user is logged in",
        RuleName::L3 => b"session or number not available",
        RuleName::G1 => b"user is not logged in on this line",
        RuleName::G2 => b"not of the user's role",
        RuleName::G3 => b"payload is no message",
        RuleName::I1 => b"token is used",
        RuleName::I2 => b"no live order under the token",
        RuleName::I3 => b"no fewer shares than the present total",
        RuleName::P1 => b"day is closed",
        RuleName::P2 => b"account is killed",
        RuleName::P3 => b"firm is not the account's",
        RuleName::P4 => b"stock is not listed",
        RuleName::P5 => b"no shares, or too many",
        RuleName::P6 => b"no order may have this price",
        RuleName::P7 => b"no such display",
        RuleName::P8 => b"no such time in force",
        RuleName::P9 => b"minimum quantity is not taken",
        RuleName::P10 => b"crosses are not taken",
        RuleName::P11 => b"no such side",
        RuleName::P12 => b"no more shares than are executed",
        RuleName::Q1 => b"a name is unknown, or the rule has no such setting",
        RuleName::Q2 => b"officer lacks the power",
        RuleName::Q3 => b"account is not the officer's",
        RuleName::Q4 => b"nothing would change",
        RuleName::File(_) => b"rule of the policy",
    }
}

impl Reason {
    /// In words.
    pub fn words(self) -> &'static [u8]
        ensures { result.now ≡ reason_words self }
    {
        match self {
            Reason::BuiltIn(rule) => built_in_words(rule),
            Reason::OfKind(kind) => kind.meaning(),
        }
    }
}

/// The reason of the Rejected that answers a denial by the rule; `None` where it is not answered so.
pub fn reject_of(policy: &Policy, rule: RuleName) -> Option<RejectReason>
    ensures { result ≡ reject_reason policy.now rule }
{
    match rule {
        RuleName::P1 => Some(RejectReason::Closed),
        RuleName::P2 => Some(RejectReason::RejectAll),
        RuleName::P3 => Some(RejectReason::FirmNotAuthorized),
        RuleName::P4 => Some(RejectReason::InvalidStock),
        RuleName::P5 => Some(RejectReason::SharesExceedSafety),
        RuleName::P6 => Some(RejectReason::InvalidPrice),
        RuleName::P7 => Some(RejectReason::InvalidDisplay),
        RuleName::P8 => Some(RejectReason::Other),
        RuleName::P9 => Some(RejectReason::InvalidMinimumQuantity),
        RuleName::P10 => Some(RejectReason::NotAllowedInCross),
        RuleName::P11 => Some(RejectReason::Other),
        RuleName::P12 => Some(RejectReason::Other),
        RuleName::File(name) => Some(policy.rule(name)?.kind.name().reject_reason()),
        _ => None,
    }
}
