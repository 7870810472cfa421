//! The user and the password that a request names.

ghost use Rattle.std.specs.Prelude.{◌≡◌, ◌<◌, ◌≤◌, All, IfSome, length, map, position, option_and_then, option_copied};
ghost use Rattle.base64.specs.{Engines.standard, GeneralPurpose.decoded_of};
ghost use Rattle.httparse.specs.Spans.{IsHeaderWithin, header_bytes};
ghost use Rattle.gx_http.specs.Credentials.{basic_text_in, credentials_in, is_colon, on_both_sides, user_and_password, value_named};

use base64::engine::general_purpose::STANDARD;
use gx_units::{Password, UserName, padded};
use http1::text::eq_ignore_case;
use httparse::spans::HeaderSpan;

/// The bytes that a user's name, a colon and a password have at the most, in base64.
const MOST_ENCODED: usize = 24;

/// The user and the password that a request names by HTTP's Basic scheme.
#[derive(Clone, Copy, PartialEq, Eq)]
pub struct Credentials {
    /// The name, in upper or lower case.
    pub user: UserName,
    /// The password, in upper or lower case.
    pub password: Password,
}

/// The value of the first field of this name, in upper or lower case.
pub(crate) fn value_named<'a>(
    bytes: &'a [u8],
    fields: &[HeaderSpan],
    name: &[u8],
) -> Option<&'a [u8]>
    requires { All (IsHeaderWithin (length bytes.now)) fields.now }
    ensures { option_copied result
        ≡ value_named name.now (map (header_bytes bytes.now) fields.now) }
{
    for field in fields {
        if eq_ignore_case(field.name.of(bytes), name) {
            return Some(field.value.of(bytes));
        }
    }
    None
}

/// The text that stands in base64 behind the word Basic.
fn basic_text_in(value: &[u8]) -> Option<&[u8]>
    ensures { option_copied result ≡ basic_text_in value.now }
{
    if value.len() < 6 {
        return None;
    }
    let (scheme, text) = value.split_at(6);
    if eq_ignore_case(scheme, b"Basic ") && text.len() <= MOST_ENCODED {
        Some(text)
    } else {
        None
    }
}

/// The user in front of this place, and the password behind it.
fn on_both_sides(text: &[u8], place: usize) -> Option<Credentials>
    requires { place < length text.now }
    ensures { result ≡ on_both_sides text.now place }
{
    let user = padded(&text[..place])?;
    let password = padded(&text[place + 1..])?;
    Some(Credentials {
        user: UserName { bytes: user },
        password: Password { bytes: password },
    })
}

/// The place of the first colon.
pub(crate) fn colon_in(text: &[u8]) -> Option<usize>
    ensures place { result ≡ position is_colon text.now }
    ensures within { IfSome result (λ place. place < length text.now) }
{
    text.iter().position(|byte| *byte == b':')
}

/// The user and the password on the two sides of the first colon.
fn user_and_password(text: &[u8]) -> Option<Credentials>
    ensures { result ≡ user_and_password text.now }
{
    on_both_sides(text, colon_in(text)?)
}

/// The user and the password that stand in base64 in this text.
#[tactic(auto, using(crate::proofs::Text_decoded::some_decoded))]
fn decoded_credentials(text: &[u8]) -> Option<Credentials>
    requires { length text.now ≤ 24 }
    ensures { result ≡ option_and_then user_and_password (decoded_of standard text.now) }
{
    let mut decoded = [0; 18];
    let Ok(length) = STANDARD.decode_slice(text, &mut decoded) else {
        return None;
    };
    user_and_password(&decoded[..length])
}

/// The user and the password that the fields of a request name.
pub(crate) fn credentials_in(bytes: &[u8], fields: &[HeaderSpan]) -> Option<Credentials>
    requires { All (IsHeaderWithin (length bytes.now)) fields.now }
    ensures { result ≡ credentials_in (map (header_bytes bytes.now) fields.now) }
{
    let value = value_named(bytes, fields, b"Authorization")?;
    decoded_credentials(basic_text_in(value)?)
}
