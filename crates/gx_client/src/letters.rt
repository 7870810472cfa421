//! Codes of the gate's messages, read from their letters.

ghost use Rattle.std.specs.Prelude.{◌≡◌};
ghost use Rattle.gx_client.specs.Letters.{event_in, liquidity_in, cancel_reason_in, reject_reason_in, answer_code_in};

use gx_desk::AnswerCode;
use gx_ouch::{CancelReason, EventCode, Liquidity, RejectReason};

/// Every event code.
pub(crate) const EVENT_CODES: [EventCode; 1] = [EventCode::EndOfDay];

/// Every liquidity flag.
pub(crate) const LIQUIDITY_FLAGS: [Liquidity; 2] = [Liquidity::Added, Liquidity::Removed];

/// Every reason of a Canceled.
pub(crate) const CANCEL_REASONS: [CancelReason; 3] = [
    CancelReason::UserRequested,
    CancelReason::ImmediateOrCancel,
    CancelReason::Supervisory,
];

/// Every reason of a Rejected.
pub(crate) const REJECT_REASONS: [RejectReason; 17] = [
    RejectReason::Closed,
    RejectReason::RejectAll,
    RejectReason::FirmNotAuthorized,
    RejectReason::InvalidStock,
    RejectReason::SharesExceedSafety,
    RejectReason::InvalidPrice,
    RejectReason::InvalidDisplay,
    RejectReason::InvalidMinimumQuantity,
    RejectReason::NotAllowedInCross,
    RejectReason::Other,
    RejectReason::Halted,
    RejectReason::RestrictedStock,
    RejectReason::ShortSale,
    RejectReason::IntermarketSweep,
    RejectReason::OddLot,
    RejectReason::SharesLimit,
    RejectReason::DollarLimit,
];

/// Every code of an answer.
pub(crate) const ANSWER_CODES: [AnswerCode; 6] = [
    AnswerCode::Done,
    AnswerCode::PartlyLifted,
    AnswerCode::UnknownName,
    AnswerCode::NoPower,
    AnswerCode::NotHisAccount,
    AnswerCode::NoChange,
];

pub(crate) fn event_code(letter: u8) -> Option<EventCode>
    ensures { result ≡ event_in letter }
{
    EVENT_CODES
        .iter()
        .copied()
        .find(|code| code.letter() == letter)
}

pub(crate) fn liquidity(letter: u8) -> Option<Liquidity>
    ensures { result ≡ liquidity_in letter }
{
    LIQUIDITY_FLAGS
        .iter()
        .copied()
        .find(|flag| flag.letter() == letter)
}

pub(crate) fn cancel_reason(letter: u8) -> Option<CancelReason>
    ensures { result ≡ cancel_reason_in letter }
{
    CANCEL_REASONS
        .iter()
        .copied()
        .find(|reason| reason.letter() == letter)
}

pub(crate) fn reject_reason(letter: u8) -> Option<RejectReason>
    ensures { result ≡ reject_reason_in letter }
{
    REJECT_REASONS
        .iter()
        .copied()
        .find(|reason| reason.letter() == letter)
}

pub(crate) fn answer_code(field: [u8; 2]) -> Option<AnswerCode>
    ensures { result ≡ answer_code_in field }
{
    ANSWER_CODES
        .iter()
        .copied()
        .find(|code| code.code() == field)
}
