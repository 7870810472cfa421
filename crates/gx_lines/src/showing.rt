//! Prices as they are shown.

ghost use Rattle.std.specs.Prelude.{◌≡◌, ◌++◌, OnOk};
ghost use Rattle.gx_lines.specs.Showing.{price_decimals_text, price_text};

use gx_text::{append, append_number, append_with_zeros};
use gx_units::OutOfMemory;

/// Room for nearly each line.
pub(crate) const LINE_ROOM: usize = 160;

fn append_decimals(text: &mut Vec<u8>, part: u64) -> Result<(), OutOfMemory>
    ensures { OnOk result (text.new.items ≡ text.old.items ++ price_decimals_text part) }
{
    if part % 100 == 0 {
        return append_with_zeros(text, 2, part / 100);
    }
    if part % 10 == 0 {
        return append_with_zeros(text, 3, part / 10);
    }
    append_with_zeros(text, 4, part)
}

/// Puts a price at the end of the text, in dollars.
#[tactic(auto, unfolding(crate::specs::Showing::price_text))]
pub(crate) fn append_price(text: &mut Vec<u8>, price: u32) -> Result<(), OutOfMemory>
    ensures { OnOk result (text.new.items ≡ text.old.items ++ price_text price) }
{
    let price = u64::from(price);
    append_number(text, price / 10_000)?;
    append(text, b".")?;
    append_decimals(text, price % 10_000)
}
