//! Texts in parts.

use gx_tables::append_escaped;
use gx_text::{append, append_name, append_number};
use gx_units::OutOfMemory;
use std::alloc::Global;

/// A part of a text: words, or a number in decimal digits.
#[derive(Clone, Copy)]
pub(crate) enum Part<'a> {
    Words(&'a [u8]),
    Number(u64),
}

fn append_part(text: &mut Vec<u8>, part: Part<'_>) -> Result<(), OutOfMemory> {
    match part {
        Part::Words(words) => append(text, words),
        Part::Number(number) => append_number(text, number),
    }
}

/// Puts the parts at the end of the text, one behind the other.
pub(crate) fn append_parts(text: &mut Vec<u8>, parts: &[Part<'_>]) -> Result<(), OutOfMemory> {
    for part in parts {
        append_part(text, *part)?;
    }
    Ok(())
}

/// Puts a name at the end of a text of HTML, without the spaces that fill it up.
pub(crate) fn append_escaped_name(
    text: &mut Vec<u8>,
    alloc: Global,
    name: &[u8],
) -> Result<(), OutOfMemory> {
    let mut shown = Vec::new(alloc);
    append_name(&mut shown, name)?;
    append_escaped(text, shown.as_slice())
}

fn append_between(
    text: &mut Vec<u8>,
    before: &[u8],
    shown: &[u8],
    behind: &[u8],
) -> Result<(), OutOfMemory> {
    append_parts(
        text,
        &[Part::Words(before), Part::Words(shown), Part::Words(behind)],
    )
}

/// Puts a digest in hexadecimal digits at the end of the text, between these words.
pub(crate) fn append_digest(
    text: &mut Vec<u8>,
    alloc: Global,
    before: &[u8],
    digest: &[u8; 32],
    behind: &[u8],
) -> Result<(), OutOfMemory> {
    let shown = hex::encode(alloc, digest)?;
    append_between(text, before, shown.as_bytes(), behind)
}
