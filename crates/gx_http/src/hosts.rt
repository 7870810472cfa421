//! Which hosts a request may name: those that are the machine itself.
//!
//! A browser sends in the field Host the name by which it asks, whatever address that has. So a page of a foreign server whose
//! name is turned to 127.0.0.1 behind its back still gives its own name away, and is answered nothing.

ghost use Rattle.std.specs.{Prelude.{◌≡◌, ◌≤◌, length, option_copied}, List.list_all, Char.is_ascii_digit};
ghost use Rattle.gx_http.specs.Hosts.{is_for_own_host, is_loopback_address, is_own_host, is_port, length_to_colon, names_host, names_loopback};

use crate::credentials::colon_in;
use http1::text::eq_ignore_case;
use std::net::Ipv4Addr;

fn are_digits(text: &[u8]) -> bool
    ensures { result ≡ list_all is_ascii_digit text.now }
{
    text.iter().all(|byte| byte.is_ascii_digit())
}

/// Whether this may stand behind a host: nothing, or a colon and digits.
fn is_port(text: &[u8]) -> bool
    ensures { result ≡ is_port text.now }
{
    match text {
        [] => true,
        [byte, digits @ ..] => *byte == b':' && are_digits(digits),
    }
}

/// Whether the value is this host, in upper or lower case, and what may stand behind it.
fn names_host(host: &[u8], value: &[u8]) -> bool
    ensures { result ≡ names_host host.now value.now }
{
    if value.len() < host.len() {
        return false;
    }
    let (front, port) = value.split_at(host.len());
    eq_ignore_case(front, host) && is_port(port)
}

/// Whether it is an address of 127.0.0.0/8, as four decimal numbers with dots between them.
fn is_loopback_address(text: &[u8]) -> bool
    ensures { result ≡ is_loopback_address text.now }
{
    match Ipv4Addr::parse_ascii(text) {
        Ok(address) => address.octets()[0] == 127,
        Err(_) => false,
    }
}

/// The bytes in front of the first colon, or all.
fn length_to_colon(value: &[u8]) -> usize
    ensures length { result ≡ length_to_colon value.now }
    ensures within { result ≤ length value.now }
{
    match colon_in(value) {
        Some(place) => place,
        None => value.len(),
    }
}

/// Whether the value is such an address, and what may stand behind it.
fn names_loopback(value: &[u8]) -> bool
    ensures { result ≡ names_loopback value.now }
{
    let (host, port) = value.split_at(length_to_colon(value));
    is_loopback_address(host) && is_port(port)
}

/// Whether the value names the machine itself.
fn is_own_host(value: &[u8]) -> bool
    ensures { result ≡ is_own_host value.now }
{
    names_host(b"localhost", value) || names_host(b"[::1]", value) || names_loopback(value)
}

/// Whether what the field Host says, where there is one, names the machine itself.
pub(crate) fn is_for_own_host(value: Option<&[u8]>) -> bool
    ensures { result ≡ is_for_own_host (option_copied value.entry) }
{
    match value {
        Some(value) => is_own_host(value),
        None => true,
    }
}
