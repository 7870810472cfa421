//! What stands in a place of a table.

use gx_money::append_dollars;
use gx_text::{Decimals, append, append_moment, append_name, append_number, append_with_zeros};
use gx_units::{Moment, OutOfMemory};
use itoa::{Buffer, Integer};

/// How many bytes the longest name has.
const NAME_SIZE: usize = 16;

/// A name, or a word of the program's: 16 bytes, filled up with spaces.
#[derive(Clone, Copy, PartialEq, Eq)]
pub struct Name {
    /// The name, with spaces behind a shorter one.
    pub bytes: [u8; NAME_SIZE],
}

/// The bytes as a name: the first 16 of them, or filled up with spaces.
pub fn name_of(bytes: &[u8]) -> Name {
    let mut name = [b' '; NAME_SIZE];
    for (place, byte) in name.iter_mut().zip(bytes) {
        *place = *byte;
    }
    Name { bytes: name }
}

/// What stands in a place of a table.
#[derive(Clone, Copy, PartialEq, Eq)]
pub enum Cell {
    /// There is none.
    Empty,
    /// A name of the policy, or a word.
    Name(Name),
    /// How many.
    Count(u64),
    /// A number that is never below 0, as of shares.
    Sum(u128),
    /// A number that may be below 0.
    Difference(i128),
    /// Ten-thousandths of a dollar.
    Dollars(u128),
    /// Ten-thousandths of the reference price.
    Parts(u64),
    /// Nanoseconds past midnight.
    Moment(Moment),
    /// Tenths of a percent.
    Tenths(u128),
}

/// Puts a whole number at the end of the text.
///
/// # Errors
///
/// `OutOfMemory` where memory was refused.
pub fn append_integer<I: Integer>(text: &mut Vec<u8>, number: I) -> Result<(), OutOfMemory> {
    let mut digits = Buffer::new();
    append(text, digits.format(number).as_bytes())
}

/// Puts ten-thousandths with all four digits at the end of the text, as `2500.0000`.
///
/// # Errors
///
/// `OutOfMemory` where memory was refused; then a part of it may stand at the end of the text.
pub(crate) fn append_decimal(text: &mut Vec<u8>, value: u128) -> Result<(), OutOfMemory> {
    append_integer(text, value / 10_000)?;
    append(text, b".")?;
    append_with_zeros(text, 4, (value % 10_000) as u64)
}

/// Puts tenths of a percent at the end of the text, as `93.7`.
fn append_tenths(text: &mut Vec<u8>, tenths: u128) -> Result<(), OutOfMemory> {
    append_integer(text, tenths / 10)?;
    append(text, b".")?;
    append_integer(text, tenths % 10)
}

/// Puts what a person reads in the place at the end of the text: nothing where it is empty, a value in dollars as
/// `$2,500.00`, a moment as a clock shows it.
///
/// # Errors
///
/// `OutOfMemory` where the text was refused its memory.
pub fn append_cell(text: &mut Vec<u8>, cell: Cell) -> Result<(), OutOfMemory> {
    match cell {
        Cell::Empty => Ok(()),
        Cell::Name(name) => append_name(text, &name.bytes),
        Cell::Count(count) => append_number(text, count),
        Cell::Sum(sum) => append_integer(text, sum),
        Cell::Difference(difference) => append_integer(text, difference),
        Cell::Dollars(value) => append_dollars(text, value),
        Cell::Parts(parts) => append_decimal(text, u128::from(parts)),
        Cell::Moment(moment) => append_moment(text, moment, Decimals::Six),
        Cell::Tenths(tenths) => append_tenths(text, tenths),
    }
}

impl Cell {
    /// Whether it is a number, which stands at the right end of its column.
    pub(crate) fn is_number(self) -> bool {
        match self {
            Cell::Empty | Cell::Name(_) => false,
            Cell::Count(_)
            | Cell::Sum(_)
            | Cell::Difference(_)
            | Cell::Dollars(_)
            | Cell::Parts(_)
            | Cell::Moment(_)
            | Cell::Tenths(_) => true,
        }
    }
}
