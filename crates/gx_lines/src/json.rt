//! The fields of a JSON line.

ghost use Rattle.std.specs.Prelude.{◌≡◌, ◌++◌, decimal, OnOk};
ghost use Rattle.gx_lines.specs.Showing.{price_text, key_text, text_field, name_field, json_number_field, json_front};

use crate::showing::append_price;
use gx_text::{Decimals, append, append_json_string, append_moment, append_number};
use gx_units::{Moment, OutOfMemory, unpadded};

/// Begins a line: when, and what.
#[tactic(auto, unfolding(crate::specs::Showing::json_front))]
pub(crate) fn append_front(
    line: &mut Vec<u8>,
    moment: Moment,
    event: &[u8],
) -> Result<(), OutOfMemory>
    ensures { OnOk result (line.new.items ≡ line.old.items ++ json_front moment event.now) }
{
    append(line, b"{\"at\":\"")?;
    append_moment(line, moment, Decimals::Nine)?;
    append(line, b"\"")?;
    append_text_field(line, b"event", event)
}

/// Puts the beginning of a field at the end of the line.
#[tactic(auto, unfolding(crate::specs::Showing::key_text))]
fn append_key(line: &mut Vec<u8>, key: &[u8]) -> Result<(), OutOfMemory>
    ensures { OnOk result (line.new.items ≡ line.old.items ++ key_text key.now) }
{
    append(line, b",\"")?;
    append(line, key)?;
    append(line, b"\":")
}

/// Puts a field whose value is a text at the end of the line.
#[tactic(auto, unfolding(crate::specs::Showing::text_field))]
pub(crate) fn append_text_field(
    line: &mut Vec<u8>,
    key: &[u8],
    text: &[u8],
) -> Result<(), OutOfMemory>
    ensures { OnOk result (line.new.items ≡ line.old.items ++ text_field key.now text.now) }
{
    append_key(line, key)?;
    append_json_string(line, text)
}

/// Puts a field whose value is a name at the end of the line, without the spaces that fill the name up.
pub(crate) fn append_name_field(
    line: &mut Vec<u8>,
    key: &[u8],
    name: &[u8],
) -> Result<(), OutOfMemory>
    ensures { OnOk result (line.new.items ≡ line.old.items ++ name_field key.now name.now) }
{
    append_text_field(line, key, unpadded(name))
}

/// Puts a field whose value is a number at the end of the line.
#[tactic(auto, unfolding(crate::specs::Showing::json_number_field))]
pub(crate) fn append_number_field(
    line: &mut Vec<u8>,
    key: &[u8],
    number: u64,
) -> Result<(), OutOfMemory>
    ensures { OnOk result (line.new.items
        ≡ line.old.items ++ json_number_field key.now (decimal number)) }
{
    append_key(line, key)?;
    append_number(line, number)
}

/// Puts a field whose value is a price at the end of the line.
#[tactic(auto, unfolding(crate::specs::Showing::json_number_field))]
pub(crate) fn append_price_field(
    line: &mut Vec<u8>,
    key: &[u8],
    price: u32,
) -> Result<(), OutOfMemory>
    ensures { OnOk result (line.new.items
        ≡ line.old.items ++ json_number_field key.now (price_text price)) }
{
    append_key(line, key)?;
    append_price(line, price)
}
