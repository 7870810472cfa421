//! The day of an audit.

ghost use Rattle.std.specs.Prelude.{◌≡◌, ◌<◌, ◌^◌, take};
ghost use Rattle.gx_clock.specs.Offsets.{minutes_in};
ghost use Rattle.gx_audit_bytes.specs.{Bodies.zero_padded, Days.{day_in, day_shown, offset_shown, sign_shown}};

use crate::draft::{RECORD_SIZE, zero_padded};
use crate::reading::{byte, number, short};
use gx_clock::UtcOffset;

/// Which day an audit is of.
#[derive(Clone, Copy, PartialEq, Eq)]
pub struct AuditDay {
    /// The date, in days since 1 January 1970.
    pub date: u32,
    /// How far the day's midnight is from that of UTC.
    pub offset: UtcOffset,
}

/// `+` ahead of UTC, `-` behind.
pub(crate) fn sign(offset: UtcOffset) -> u8
    ensures { result ≡ sign_shown offset }
{
    match offset {
        UtcOffset::Ahead(_) => b'+',
        UtcOffset::Behind(_) => b'-',
    }
}

/// How many minutes it is ahead or behind.
pub(crate) fn minutes(offset: UtcOffset) -> u16
    ensures minutes { result ≡ minutes_in offset }
    ensures fits { minutes_in offset < 2 ^ 16 }
{
    match offset {
        UtcOffset::Ahead(minutes) | UtcOffset::Behind(minutes) => minutes,
    }
}

/// The offset with this sign and so many minutes.
fn offset(sign: u8, minutes: u16) -> UtcOffset
    ensures { result ≡ offset_shown sign minutes }
{
    if sign == b'-' {
        UtcOffset::Behind(minutes)
    } else {
        UtcOffset::Ahead(minutes)
    }
}

/// The first 128 bytes; zero bytes for those that are missing.
#[tactic(auto, using(crate::proofs::Fields_cut::take_short))]
fn header_bytes(audit: &[u8]) -> [u8; RECORD_SIZE]
    ensures { result ≡ zero_padded 128 (take 128 audit.now) }
{
    if audit.len() < RECORD_SIZE {
        zero_padded(audit)
    } else {
        zero_padded(&audit[..RECORD_SIZE])
    }
}

/// The day that a whole header shows.
fn day_shown(header: &[u8; RECORD_SIZE]) -> AuditDay
    ensures { result ≡ day_shown header.now }
{
    AuditDay {
        date: number(&header[55..59]),
        offset: offset(byte(&header[59..60]), short(&header[60..62])),
    }
}

/// The day that an audit's header shows.
#[tactic(auto, unfolding(crate::specs::Days::day_in))]
pub(crate) fn day_in(audit: &[u8]) -> AuditDay
    ensures { result ≡ day_in audit.now }
{
    day_shown(&header_bytes(audit))
}
