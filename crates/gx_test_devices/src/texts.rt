//! The text of what a case did, as it is put together, and bytes in it.

use gx_units::OutOfMemory;
use std::alloc::Global;
use std::fmt::{Display, Write};

/// A text that is put together piece by piece. A piece that there was no memory for is missing, and the text is then marked
/// as incomplete, so that no call that adds to it need return an error.
#[derive(Drop)]
pub struct OutputText {
    text: String,
    is_complete: bool,
}

impl OutputText {
    /// An empty text.
    pub fn new(alloc: Global) -> OutputText {
        OutputText {
            text: String::new(alloc),
            is_complete: true,
        }
    }

    /// The text.
    pub fn as_str(&self) -> &str {
        self.text.as_str()
    }

    /// Whether nothing is missing.
    pub fn is_complete(&self) -> bool {
        self.is_complete
    }

    /// Notes that something is missing, since there was no memory for it.
    pub fn mark_incomplete(&mut self) {
        self.is_complete = false;
    }

    /// No bytes, in the place of those that there was no memory for; notes that they are missing.
    pub fn no_bytes(&mut self, alloc: Global) -> Vec<u8> {
        self.mark_incomplete();
        Vec::new(alloc)
    }

    /// Adds a text.
    pub fn put(&mut self, text: &str) {
        if self.text.push_str(text).is_err() {
            self.mark_incomplete();
        }
    }

    /// Adds a number.
    pub fn put_number(&mut self, number: u64) {
        if write!(self.text, "{number}").is_err() {
            self.mark_incomplete();
        }
    }

    /// Adds a value as it is displayed.
    pub fn put_shown<E: Display>(&mut self, value: &E) {
        if write!(self.text, "{value}").is_err() {
            self.mark_incomplete();
        }
    }

    /// Adds a text and a line end.
    pub fn put_line(&mut self, text: &str) {
        self.put(text);
        self.put("\n");
    }

    /// Adds bytes that are a text.
    pub fn put_bytes(&mut self, bytes: &[u8]) {
        self.put(str::from_utf8(bytes).unwrap_or("no UTF-8\n"));
    }

    /// Notes that something is missing where something is missing in another text.
    pub fn inherit_gaps(&mut self, other: &OutputText) {
        self.is_complete = self.is_complete && other.is_complete;
    }
}

/// The bytes of a text in hex, whose spaces and line ends are skipped; none where it is no hex.
pub fn decode_hex(alloc: Global, text: &str) -> Result<Vec<u8>, OutOfMemory> {
    let mut digits = Vec::new(alloc);
    for byte in text.bytes() {
        if !byte.is_ascii_whitespace() {
            digits.push(byte)?;
        }
    }
    match hex::decode(alloc, digits.as_slice()) {
        Ok(bytes) => Ok(bytes),
        Err(_) => Ok(Vec::new(alloc)),
    }
}

/// The bytes of a text in hex; none, and the output marked as incomplete, where there is no memory for them.
pub fn hex_bytes_of(alloc: Global, out: &mut OutputText, text: &str) -> Vec<u8> {
    match decode_hex(alloc, text) {
        Ok(bytes) => bytes,
        Err(_) => out.no_bytes(alloc),
    }
}

/// Writes bytes in hex on a line of their own, if there are any.
pub fn put_hex(alloc: Global, out: &mut OutputText, bytes: &[u8]) {
    if bytes.is_empty() {
        return;
    }
    match hex::encode(alloc, bytes) {
        Ok(digits) => out.put_line(digits.as_str()),
        Err(_) => out.mark_incomplete(),
    }
}

/// The text before the first such mark and the text behind it; the whole text and nothing where there is no mark.
pub fn halves<'a>(text: &'a str, mark: &str) -> (&'a str, &'a str) {
    text.split_once(mark).unwrap_or((text, ""))
}
