//! The request for what the page shows.

ghost use Rattle.std.specs.Prelude.{◌≡◌, ◌++◌, IfOk, OnErr, OnOk};
ghost use Rattle.http1.specs.Head.{pairs};
ghost use Rattle.gx_page_reader.specs.Requests.{basic_value, fields_of, name_and_password, request_bytes};

use base64::engine::general_purpose::STANDARD;
use gx_units::{OutOfMemory, Password, UserName, unpadded};
use http1::Header;
use http1::head::write_request;
use std::alloc::Global;

/// The user and his password, with a colon between them.
fn name_and_password(
    alloc: Global,
    user: &UserName,
    password: &Password,
) -> Result<Vec<u8>, OutOfMemory>
    ensures { IfOk result (λ text. text.items ≡ name_and_password user.now password.now) }
{
    let mut text = Vec::from_slice(alloc, unpadded(&user.bytes))?;
    text.push(b':')?;
    text.extend_from_slice(unpadded(&password.bytes))?;
    Ok(text)
}

/// The value of the field that names them.
fn basic_value(alloc: Global, user: &UserName, password: &Password) -> Result<Vec<u8>, OutOfMemory>
    ensures { IfOk result (λ text. text.items ≡ basic_value user.now password.now) }
{
    let named = name_and_password(alloc, user, password)?;
    let encoded = STANDARD.encode(alloc, named.as_slice())?;
    let mut value = Vec::from_slice(alloc, b"Basic ")?;
    value.extend_from_slice(encoded.as_bytes())?;
    Ok(value)
}

/// The fields of the request.
fn fields_of<'a>(value: &'a [u8]) -> [Header<'a>; 3]
    ensures { pairs result ≡ fields_of value.now }
{
    [
        Header {
            name: b"Host",
            value: b"localhost",
        },
        Header {
            name: b"Authorization",
            value,
        },
        Header {
            name: b"Connection",
            value: b"close",
        },
    ]
}

/// Puts the request of this user for what the page shows at the end of the text.
///
/// # Errors
///
/// `OutOfMemory` where memory was refused; then the text is as it was.
pub fn write_state_request(
    alloc: Global,
    text: &mut Vec<u8>,
    user: &UserName,
    password: &Password,
) -> Result<(), OutOfMemory>
    ensures written { OnOk result
        (text.new.items ≡ text.old.items ++ request_bytes user.now password.now) }
    ensures refused { OnErr result (text.new.items ≡ text.old.items) }
{
    let value = basic_value(alloc, user, password)?;
    let fields = fields_of(value.as_slice());
    match write_request(text, b"GET", b"/state.json", 1, &fields, &[]) {
        Ok(()) => Ok(()),
        Err(_) => Err(OutOfMemory),
    }
}
