//! Text fields: fixed bytes, spaces and numbers.

ghost use Rattle.std.specs.{Prelude.{◌≡◌, ◌≤◌, length, None, IfNone, IfOk, IfSome}, Char.is_ascii_digit, List.list_all};
ghost use Rattle.gx_units.specs.Spelling.{padded_left};
ghost use Rattle.gx_soup.specs.Login.{in_64_bits, number_of, spelled_number, with_digit};

use gx_units::{OutOfMemory, trimmed};
use std::alloc::Global;

/// The bytes as an array.
pub(crate) fn fixed<const N: usize>(bytes: &[u8]) -> [u8; N]
    requires { length bytes.now ≡ N }
    ensures { result ≡ bytes.now }
{
    let mut field = [0; N];
    field.copy_from_slice(bytes);
    field
}

/// The text with spaces in front, `width` bytes in all.
pub(crate) fn padded_left(alloc: Global, width: usize, text: &[u8]) -> Result<Vec<u8>, OutOfMemory>
    requires { length text.now ≤ width }
    ensures text { IfOk result (λ bytes. bytes.items ≡ padded_left width text.now) }
    ensures width { IfOk result (λ bytes. length bytes.items ≡ width) }
{
    let mut bytes = Vec::from_elem(alloc, b' ', width - text.len())?;
    bytes.extend_from_slice(text)?;
    Ok(bytes)
}

/// The number that a field spells.
pub(crate) fn number_of(field: &[u8]) -> Option<u64>
    ensures { result ≡ number_of field.now }
{
    let digits = trimmed(field);
    if !are_digits(digits) {
        return None;
    }
    Some(spelled_value(digits).unwrap_or(u64::MAX))
}

fn are_digits(text: &[u8]) -> bool
    ensures { result ≡ list_all is_ascii_digit text.now }
{
    text.iter().all(|byte| byte.is_ascii_digit())
}

/// The number that ASCII digits spell; `None` where 64 bits do not hold it.
pub fn spelled_value(digits: &[u8]) -> Option<u64>
    ensures { result ≡ in_64_bits (spelled_number digits.now) }
{
    let mut number = Some(0);
    for digit in digits {
        number = next_value(number, *digit);
    }
    number
}

/// One digit more, where there is a number.
fn next_value(number: Option<u64>, digit: u8) -> Option<u64>
    ensures some { IfSome number (λ n. result ≡ in_64_bits (with_digit n digit)) }
    ensures none { IfNone number (result ≡ None) }
{
    with_digit(number?, digit)
}

/// One digit more.
fn with_digit(number: u64, digit: u8) -> Option<u64>
    ensures { result ≡ in_64_bits (with_digit number digit) }
{
    number
        .checked_mul(10)?
        .checked_add(u64::from(digit.saturating_sub(b'0')))
}
