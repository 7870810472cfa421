//! Numbers and marks, as both forms show them.

use gx_money::append_dollars;
use gx_overview::commands::GrantedCommand;
use gx_policy::{ExposureLimit, OrderLimit, RuleKind};
use gx_text::{Decimals, append, append_moment, append_name, append_number, append_with_zeros};
use gx_units::{OutOfMemory, unpadded};
use itoa::{Buffer, Integer};

/// What a rule's limit counts.
#[derive(Clone, Copy, PartialEq, Eq)]
pub(crate) enum Unit {
    Shares,
    /// Ten-thousandths of a dollar.
    Value,
    /// Ten-thousandths of the reference price.
    Parts,
}

/// What the limit of a rule of this kind counts.
pub(crate) fn unit_of(kind: &RuleKind) -> Unit {
    match kind {
        RuleKind::Order(OrderLimit::Value, _)
        | RuleKind::Exposure(ExposureLimit::GrossValue, _, _) => Unit::Value,
        RuleKind::Order(OrderLimit::Collar, _) => Unit::Parts,
        _ => Unit::Shares,
    }
}

/// Puts a name at the end of the text, with the spaces that fill its field.
pub(crate) fn append_padded(text: &mut Vec<u8>, name: &[u8]) -> Result<(), OutOfMemory> {
    append_name(text, name)?;
    for _ in unpadded(name).len()..name.len() {
        append(text, b" ")?;
    }
    Ok(())
}

/// Puts a whole number at the end of the text.
pub(crate) fn append_integer<I: Integer>(text: &mut Vec<u8>, number: I) -> Result<(), OutOfMemory> {
    let mut digits = Buffer::new();
    append(text, digits.format(number).as_bytes())
}

/// Puts ten-thousandths, of a price or a part of one, at the end of the text, as `25.0000`.
pub(crate) fn append_decimal(text: &mut Vec<u8>, value: u128) -> Result<(), OutOfMemory> {
    append_integer(text, value / 10_000)?;
    append(text, b".")?;
    append_with_zeros(text, 4, (value % 10_000) as u64)
}

/// Puts an amount at the end of the text: shares singly, a value in dollars, a collar as a part of the reference price.
pub(crate) fn append_amount(
    text: &mut Vec<u8>,
    amount: u128,
    unit: Unit,
) -> Result<(), OutOfMemory> {
    match unit {
        Unit::Shares => append_integer(text, amount),
        Unit::Value => append_dollars(text, amount),
        Unit::Parts => append_decimal(text, amount),
    }
}

/// Puts who gave a command, when, and its record at the end of the text, as `OPAL 10:29:43.000000000, record 17`.
pub(crate) fn append_command(
    text: &mut Vec<u8>,
    command: &GrantedCommand,
) -> Result<(), OutOfMemory> {
    append_name(text, &command.officer.bytes)?;
    append(text, b" ")?;
    append_moment(text, command.moment, Decimals::Nine)?;
    append(text, b", record ")?;
    append_number(text, command.number)
}
