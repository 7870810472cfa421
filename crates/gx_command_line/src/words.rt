//! Words of the command line that are no text.

use std::env::{Env, FillError};
use std::fmt;

/// The most bytes that a word has: the system passes on none that is longer.
pub const LONGEST_WORD: usize = 131_072;

/// So many bytes of a word are shown at most.
const SHOWN: usize = 64;

/// A word of the command line that is not UTF-8. Its `Display` is the text for the user, with each byte that is no
/// visible ASCII character as `\xNN`.
#[derive(Clone, Copy)]
pub struct BadWord<'a> {
    /// Which word, the one behind the program's name being the first.
    pub number: usize,
    /// The word itself.
    pub bytes: &'a [u8],
}

impl fmt::Display for BadWord<'_> {
    fn fmt<W: fmt::Write>(&self, f: &mut fmt::Formatter<W>) -> fmt::Result {
        let number = self.number;
        let place = place_in(self.bytes);
        let shown = self.bytes[..self.bytes.len().min(SHOWN)].escape_ascii();
        let rest = if self.bytes.len() > SHOWN { ".." } else { "" };
        write!(
            f,
            "error: argument {number} is not UTF-8 from byte {place} on: {shown}{rest}\n\nFor more information, try '--help'.\n"
        )
    }
}

/// From which byte on, the first being 1, some bytes are not UTF-8.
fn place_in(bytes: &[u8]) -> usize {
    match str::from_utf8(bytes) {
        Ok(_) => 0,
        Err(error) => error.valid_up_to().saturating_add(1),
    }
}

/// Which word is the first that is not UTF-8, and how many bytes it has.
fn place_of<E: Env>(env: &E, room: &mut [u8]) -> Option<(usize, usize)> {
    for number in 0..usize::MAX {
        match env.arg(number, room) {
            Ok(length) => {
                if str::from_utf8(&room[..length.min(room.len())]).is_err() {
                    return Some((number, length));
                }
            }
            Err(FillError::TooLong) => {}
            Err(FillError::NotPresent) => return None,
        }
    }
    None
}

/// The first word that is not UTF-8, its bytes in the room; one that the room is too small for is passed over.
pub fn first_bad_word<'a, E: Env>(env: &E, room: &'a mut [u8]) -> Option<BadWord<'a>> {
    let (number, length) = place_of(env, room)?;
    Some(BadWord {
        number,
        bytes: &room[..length.min(room.len())],
    })
}
