//! Numbers, names and moments as members of a JSON object.
//!
//! Each function refuses with `OutOfMemory` where memory was refused; then a part of what it puts may stand at the end of the text.

ghost use Rattle.std.specs.Prelude.{◌≡◌, ◌++◌, codes, decimal, OnOk};
ghost use Rattle.gx_text.specs.Shown.{json_name};
ghost use Rattle.gx_json.specs.Parts.{bool_text, first_member, integer_or_null, member, number_or_null, time_text};

use gx_text::{Decimals, append, append_json_name, append_moment, append_number};
use gx_units::{Moment, OutOfMemory};
use itoa::Buffer;

/// Puts a key at the end of the text, with the comma in front of it.
pub fn append_key(text: &mut Vec<u8>, key: &[u8]) -> Result<(), OutOfMemory>
    ensures { OnOk result
        (text.new.items ≡ text.old.items ++ (codes ",\"" ++ key.now ++ codes "\":")) }
{
    append(text, b",\"")?;
    append(text, key)?;
    append(text, b"\":")
}

/// Puts the first key of an object at the end of the text.
pub fn append_first_key(text: &mut Vec<u8>, key: &[u8]) -> Result<(), OutOfMemory>
    ensures { OnOk result
        (text.new.items ≡ text.old.items ++ (codes "{\"" ++ key.now ++ codes "\":")) }
{
    append(text, b"{\"")?;
    append(text, key)?;
    append(text, b"\":")
}

/// A number, behind other members.
pub fn append_number_member(text: &mut Vec<u8>, key: &[u8], number: u64) -> Result<(), OutOfMemory>
    ensures { OnOk result
        (text.new.items ≡ text.old.items ++ member key.now (decimal number)) }
{
    append_key(text, key)?;
    append_number(text, number)
}

/// A name without the spaces that fill its field, behind other members.
pub fn append_name_member(text: &mut Vec<u8>, key: &[u8], name: &[u8]) -> Result<(), OutOfMemory>
    ensures { OnOk result
        (text.new.items ≡ text.old.items ++ member key.now (json_name name.now)) }
{
    append_key(text, key)?;
    append_json_name(text, name)
}

/// A name as the first member of an object.
pub fn append_first_name(text: &mut Vec<u8>, key: &[u8], name: &[u8]) -> Result<(), OutOfMemory>
    ensures { OnOk result
        (text.new.items ≡ text.old.items ++ first_member key.now (json_name name.now)) }
{
    append_first_key(text, key)?;
    append_json_name(text, name)
}

/// A number as the first member of an object.
pub fn append_first_number(text: &mut Vec<u8>, key: &[u8], number: u64) -> Result<(), OutOfMemory>
    ensures { OnOk result
        (text.new.items ≡ text.old.items ++ first_member key.now (decimal number)) }
{
    append_first_key(text, key)?;
    append_number(text, number)
}

fn append_bool(text: &mut Vec<u8>, value: bool) -> Result<(), OutOfMemory>
    ensures { OnOk result (text.new.items ≡ text.old.items ++ bool_text value) }
{
    if value {
        append(text, b"true")
    } else {
        append(text, b"false")
    }
}

/// A yes or no, behind other members.
pub fn append_bool_member(text: &mut Vec<u8>, key: &[u8], value: bool) -> Result<(), OutOfMemory>
    ensures { OnOk result
        (text.new.items ≡ text.old.items ++ member key.now (bool_text value)) }
{
    append_key(text, key)?;
    append_bool(text, value)
}

fn append_time(text: &mut Vec<u8>, moment: Moment) -> Result<(), OutOfMemory>
    ensures { OnOk result (text.new.items ≡ text.old.items ++ time_text moment) }
{
    append(text, b"\"")?;
    append_moment(text, moment, Decimals::Nine)?;
    append(text, b"\"")
}

/// A moment of the day, behind other members.
pub fn append_time_member(text: &mut Vec<u8>, key: &[u8], moment: Moment) -> Result<(), OutOfMemory>
    ensures { OnOk result
        (text.new.items ≡ text.old.items ++ member key.now (time_text moment)) }
{
    append_key(text, key)?;
    append_time(text, moment)
}

/// A count or `null`, behind other members.
pub fn append_count_member(
    text: &mut Vec<u8>,
    key: &[u8],
    count: Option<u64>,
) -> Result<(), OutOfMemory>
    ensures { OnOk result
        (text.new.items ≡ text.old.items ++ member key.now (number_or_null count)) }
{
    append_key(text, key)?;
    match count {
        Some(count) => append_number(text, count),
        None => append(text, b"null"),
    }
}

/// A sum or `null`, behind other members.
pub fn append_sum_member(
    text: &mut Vec<u8>,
    key: &[u8],
    sum: Option<u128>,
) -> Result<(), OutOfMemory>
    ensures { OnOk result
        (text.new.items ≡ text.old.items ++ member key.now (number_or_null sum)) }
{
    append_key(text, key)?;
    let mut digits = Buffer::new();
    match sum {
        Some(sum) => append(text, digits.format(sum).as_bytes()),
        None => append(text, b"null"),
    }
}

/// A sum that may be below 0 or `null`, behind other members.
pub fn append_integer_member(
    text: &mut Vec<u8>,
    key: &[u8],
    sum: Option<i128>,
) -> Result<(), OutOfMemory>
    ensures { OnOk result
        (text.new.items ≡ text.old.items ++ member key.now (integer_or_null sum)) }
{
    append_key(text, key)?;
    let mut digits = Buffer::new();
    match sum {
        Some(sum) => append(text, digits.format(sum).as_bytes()),
        None => append(text, b"null"),
    }
}
