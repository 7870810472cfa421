//! Prices as a person writes them.

ghost use Rattle.std.specs.Prelude.{◌≡◌, ◌*◌, ◌+◌, ◌-◌, ◌^◌, ◌<◌, nat_le, position, if◌then◌else◌, Some, None, IfSome};
ghost use Rattle.gx_terminal.specs.Prices.{is_point, in_32_bits, decimals_of, whole_price, pointed_price, price_of};

use crate::words::number32;

/// The ten-thousandths of a dollar.
const DOLLAR: u64 = 10_000;

/// The number, where 32 bits hold it.
fn in_32_bits(number: u64) -> Option<u32>
    ensures { result ≡ in_32_bits number }
{
    if number > u64::from(u32::MAX) {
        return None;
    }
    Some(number as u32)
}

/// What the last of so many decimals is worth, in ten-thousandths.
fn worth_of_last(count: usize) -> Option<u64>
    ensures { result ≡ (if nat_le count 4 then Some (10 ^ (4 - count)) else None) }
{
    match count {
        0 => Some(10_000),
        1 => Some(1_000),
        2 => Some(100),
        3 => Some(10),
        4 => Some(1),
        _ => None,
    }
}

/// One to four decimals, in ten-thousandths.
pub(crate) fn decimals(text: &[u8]) -> Option<u64>
    ensures exact { result ≡ decimals_of text.now }
    ensures small { IfSome result (λ part. part < 2 ^ 46) }
{
    let worth = worth_of_last(text.len())?;
    let number = number32(text)?;
    Some(u64::from(number) * worth)
}

fn whole_price(dollars: &[u8]) -> Option<u32>
    ensures { result ≡ whole_price dollars.now }
{
    let whole = number32(dollars)?;
    in_32_bits(u64::from(whole) * DOLLAR)
}

fn pointed_price(dollars: &[u8], part: &[u8]) -> Option<u32>
    ensures { result ≡ pointed_price dollars.now part.now }
{
    let whole = number32(dollars)?;
    let part = decimals(part)?;
    in_32_bits(u64::from(whole) * DOLLAR + part)
}

/// A price in dollars, with at most four decimals, in ten-thousandths of a dollar.
#[tactic(auto, unfolding(crate::specs::Prices::price_of))]
pub(crate) fn price(word: &[u8]) -> Option<u32>
    ensures { result ≡ price_of word.now }
{
    match point_of(word) {
        None => whole_price(word),
        Some(point) => pointed_price(&word[..point], &word[point + 1..]),
    }
}

/// Where the point stands.
pub(crate) fn point_of(word: &[u8]) -> Option<usize>
    ensures { result ≡ position is_point word.now }
{
    word.iter().position(|byte| *byte == b'.')
}
