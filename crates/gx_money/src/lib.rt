//! Amounts of money, as a person reads them.
#![tactic(auto)]

ghost use Rattle.std.specs.Prelude.{◌≡◌, ◌++◌, IfOk, OnErr, OnOk};
ghost use Rattle.gx_money.specs.Amounts.{cents_text, comma, dollars_text, grouped};

use gx_text::{append, append_with_zeros};
use gx_units::{OutOfMemory, Value};
use itoa::Buffer;
use std::alloc::Global;

mod laws;

pub use laws::amounts_are_told_apart;

/// Puts a comma at the end of the text where so many digits behind it are whole groups of three.
fn append_comma(text: &mut Vec<u8>, behind: usize) -> Result<(), OutOfMemory>
    ensures { OnOk result (text.new.items ≡ text.old.items ++ comma behind) }
{
    if behind > 0 && behind % 3 == 0 {
        return append(text, b",");
    }
    Ok(())
}

/// Puts digits in groups of three at the end of the text.
fn append_grouped(text: &mut Vec<u8>, digits: &[u8]) -> Result<(), OutOfMemory>
    ensures { OnOk result (text.new.items ≡ text.old.items ++ grouped digits.now) }
{
    for place in 0..digits.len() {
        append(text, &[digits[place]])?;
        append_comma(text, digits.len() - place - 1)?;
    }
    Ok(())
}

/// Puts what stands behind the point at the end of the text.
fn append_cents(text: &mut Vec<u8>, part: u64) -> Result<(), OutOfMemory>
    ensures { OnOk result (text.new.items ≡ text.old.items ++ cents_text part) }
{
    if part % 100 == 0 {
        return append_with_zeros(text, 2, part / 100);
    }
    append_with_zeros(text, 4, part)
}

/// The amount in dollars.
#[tactic(auto, unfolding(crate::specs::Amounts::dollars_text))]
fn shown_dollars(alloc: Global, amount: Value) -> Result<Vec<u8>, OutOfMemory>
    ensures { IfOk result (λ shown. shown.items ≡ dollars_text amount) }
{
    let mut text = Vec::new(alloc);
    let mut digits = Buffer::new();
    append(&mut text, b"$")?;
    append_grouped(&mut text, digits.format(amount / 10_000).as_bytes())?;
    append(&mut text, b".")?;
    append_cents(&mut text, (amount % 10_000) as u64)?;
    Ok(text)
}

/// Puts an amount of ten-thousandths of a dollar at the end of the text, in dollars and never rounded: `$30,000.00`, or with
/// four digits behind the point where cents do not tell it, `$999.9999`.
///
/// # Errors
///
/// `OutOfMemory` where memory was refused; then the text is as it was.
pub fn append_dollars(text: &mut Vec<u8>, amount: Value) -> Result<(), OutOfMemory>
    ensures appended { OnOk result (text.new.items ≡ text.old.items ++ dollars_text amount) }
    ensures refused { OnErr result (text.new.items ≡ text.old.items) }
{
    let shown = shown_dollars(*text.allocator(), amount)?;
    append(text, shown.as_slice())
}
