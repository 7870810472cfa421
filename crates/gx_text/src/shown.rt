//! Bytes that a peer chose, shown in a text and in JSON.

ghost use Rattle.std.specs.Prelude.{◌≡◌, ◌<◌, ◌++◌, flat_map, OnOk};
ghost use Rattle.gx_text.specs.Shown.{is_printed, hex_digit, hex_pair, shown_byte, shown_text, json_byte, json_string, shown_name, json_name};

use crate::appending::append;
use gx_units::{OutOfMemory, is_visible, unpadded};

/// Whether the byte is a character that is seen, or a space.
fn is_printed(byte: u8) -> bool
    ensures { result ≡ is_printed byte }
{
    is_visible(byte) || byte == b' '
}

fn hex_digit(digit: u8) -> u8
    requires { digit < 16 }
    ensures { result ≡ hex_digit digit }
{
    if digit < 10 {
        b'0' + digit
    } else {
        b'a' - 10 + digit
    }
}

/// The two hex digits of a byte.
fn hex_pair(byte: u8) -> [u8; 2]
    ensures { result ≡ hex_pair byte }
{
    [hex_digit(byte / 16), hex_digit(byte % 16)]
}

fn append_shown_byte(text: &mut Vec<u8>, byte: u8) -> Result<(), OutOfMemory>
    ensures { OnOk result (text.new.items ≡ text.old.items ++ shown_byte byte) }
{
    if is_visible(byte) && byte != b'\\' {
        return append(text, &[byte]);
    }
    append(text, b"\\x")?;
    append(text, &hex_pair(byte))
}

/// Puts bytes that a peer chose at the end of the text: visible ASCII as it is, all else and `\` as `\xNN`.
///
/// # Errors
///
/// `OutOfMemory` where memory was refused; then a part of it may stand at the end of the text.
pub fn append_shown(text: &mut Vec<u8>, bytes: &[u8]) -> Result<(), OutOfMemory>
    ensures { OnOk result (text.new.items ≡ text.old.items ++ shown_text bytes.now) }
{
    for byte in bytes {
        append_shown_byte(text, *byte)?;
    }
    Ok(())
}

/// Puts a name at the end of the text as [`append_shown`] does, without the spaces that fill it up.
///
/// # Errors
///
/// `OutOfMemory` where memory was refused; then a part of it may stand at the end of the text.
pub fn append_name(text: &mut Vec<u8>, name: &[u8]) -> Result<(), OutOfMemory>
    ensures { OnOk result (text.new.items ≡ text.old.items ++ shown_name name.now) }
{
    append_shown(text, unpadded(name))
}

fn append_json_byte(text: &mut Vec<u8>, byte: u8) -> Result<(), OutOfMemory>
    ensures { OnOk result (text.new.items ≡ text.old.items ++ json_byte byte) }
{
    if byte == b'"' || byte == b'\\' {
        return append(text, &[b'\\', byte]);
    }
    if is_printed(byte) {
        return append(text, &[byte]);
    }
    append(text, b"\\u00")?;
    append(text, &hex_pair(byte))
}

/// Puts what stands between the quotes of a JSON string at the end of the text.
fn append_json_bytes(text: &mut Vec<u8>, bytes: &[u8]) -> Result<(), OutOfMemory>
    ensures { OnOk result (text.new.items ≡ text.old.items ++ flat_map json_byte bytes.now) }
{
    for byte in bytes {
        append_json_byte(text, *byte)?;
    }
    Ok(())
}

/// Puts bytes that a peer chose at the end of the text as a JSON string: visible ASCII and spaces as they are, but `"` and `\`
/// behind a `\`, and all else as `\u00NN`.
///
/// # Errors
///
/// `OutOfMemory` where memory was refused; then a part of it may stand at the end of the text.
pub fn append_json_string(text: &mut Vec<u8>, bytes: &[u8]) -> Result<(), OutOfMemory>
    ensures { OnOk result (text.new.items ≡ text.old.items ++ json_string bytes.now) }
{
    append(text, b"\"")?;
    append_json_bytes(text, bytes)?;
    append(text, b"\"")
}

/// Puts a name at the end of the text as [`append_json_string`] does, without the spaces that fill it up.
///
/// # Errors
///
/// `OutOfMemory` where memory was refused; then a part of it may stand at the end of the text.
pub fn append_json_name(text: &mut Vec<u8>, name: &[u8]) -> Result<(), OutOfMemory>
    ensures { OnOk result (text.new.items ≡ text.old.items ++ json_name name.now) }
{
    append_json_string(text, unpadded(name))
}
