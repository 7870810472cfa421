//! Texts as a fault shows them: no more than a front of a long one.
#![tactic(auto)]

ghost use Rattle.std.specs.{Prelude.{◌≡◌, ◌≤◌, ◌<◌, length, IsTrue, IsFalse}, Io.StartsWith};

use std::fmt;

/// The most bytes of a text that are shown.
const MOST: usize = 80;

/// A text as a fault shows it: all of it where it has at most 80 bytes, else a front of at most 80 bytes and `..`.
#[derive(Clone, Copy)]
pub struct Shortened<'a> {
    front: &'a str,
    is_cut: bool,
}

/// The longest front of a text that has at most so many bytes, give or take a character; the text where it is as short.
fn front_of(text: &str, most: usize) -> &str
    ensures short { length result.now ≤ most }
    ensures front { StartsWith text.now result.now }
    ensures whole { length text.now ≤ most → result.now ≡ text.now }
{
    if text.len() <= most {
        return text;
    }
    for end in (0..=most).rev() {
        if let Some(front) = text.get(..end) {
            return front;
        }
    }
    ""
}

impl<'a> Shortened<'a> {
    /// The text, cut short where it is long.
    pub fn of(text: &'a str) -> Shortened<'a>
        ensures short { length result.front.now ≤ 80 }
        ensures front { StartsWith text.now result.front.now }
        ensures whole { length text.now ≤ 80 → result.front.now ≡ text.now }
        ensures cut { 80 < length text.now → IsTrue result.is_cut }
        ensures uncut { length text.now ≤ 80 → IsFalse result.is_cut }
    {
        Shortened {
            front: front_of(text, MOST),
            is_cut: text.len() > MOST,
        }
    }

    /// What stands behind the front: nothing where that is all.
    fn end(&self) -> &'static str {
        if self.is_cut { ".." } else { "" }
    }
}

impl fmt::Display for Shortened<'_> {
    fn fmt<W: fmt::Write>(&self, f: &mut fmt::Formatter<W>) -> fmt::Result {
        f.write_str(self.front)?;
        f.write_str(self.end())
    }
}

impl fmt::Debug for Shortened<'_> {
    fn fmt<W: fmt::Write>(&self, f: &mut fmt::Formatter<W>) -> fmt::Result {
        let (front, end) = (self.front, self.end());
        write!(f, "{front:?}{end}")
    }
}
