//! The words of a line, and what a word can stand for.

ghost use Rattle.std.specs.{Prelude.{◌≡◌, ◌+◌, ◌≤◌, ◌^◌, length, ◌∷◌, [], IsFalse, slice_index, position, MatchOption}, List.list_all, Char.is_ascii_digit};
ghost use Rattle.gx_units.specs.Spelling.{is_space, is_visible};
ghost use Rattle.gx_script_text.specs.Words.{is_name, is_number, padded_name, number_of_bits};
ghost use Rattle.gx_terminal.specs.Cursor.{words_between, left_of};

use gx_soup::spelled_value;
use gx_units::{is_visible, padded};
use std::marker::Model;

/// The words that are left of a line. Contracts see how many were taken, and the list of those that are left.
#[derive(Drop)]
pub(crate) struct LineWords<'a> {
    rest: &'a [u8],
    taken: usize,
}

impl<'a> Model for LineWords<'a> {
    ghost use Rattle.std.specs.Prelude.{◌+◌, ◌≤◌, ◌^◌, length};
    ghost use Rattle.gx_terminal.specs.Cursor.{Left, left_of, words_between};

    ghost Value = { Left };

    ghost view = { λ words. left_of words.taken (words_between words.rest.now) };

    ghost invariant = { λ words. words.taken + length words.rest.now ≤ 2 ^ 63 };
}

impl<'a> LineWords<'a> {
    /// All words of a line.
    pub(crate) fn new(line: &'a [u8]) -> LineWords<'a>
        ensures { result ≡ left_of 0 (words_between line.now) }
    {
        LineWords {
            rest: line,
            taken: 0,
        }
    }

    /// How many words were taken.
    pub(crate) fn taken(&self) -> usize
        ensures exact { result ≡ self.now.taken }
        ensures few { result ≤ 2 ^ 63 }
    {
        self.taken
    }

    /// The next word.
    pub(crate) fn next(&mut self) -> Option<&'a [u8]>
        ensures first { MatchOption result (self.old.words ≡ [])
            (λ word. self.old.words ≡ word.now ∷ self.new.words) }
        ensures taken { MatchOption result (self.new ≡ self.old)
            (λ _. self.new.taken ≡ self.old.taken + 1) }
    {
        let text = behind_spaces(self.rest);
        if text.is_empty() {
            return None;
        }
        self.taken += 1;
        match end_of_word(text) {
            Some(end) => {
                self.rest = &text[end + 1..];
                Some(&text[..end])
            }
            None => {
                self.rest = &[];
                Some(text)
            }
        }
    }
}

/// The text without the spaces in front of it.
fn behind_spaces(text: &[u8]) -> &[u8]
    ensures words { words_between result.now ≡ words_between text.now }
    ensures within { length result.now ≤ length text.now }
    ensures first { IsFalse (is_space (slice_index result.now 0)) }
{
    let mut rest = text;
    while let [b' ', behind @ ..] = rest {
        rest = behind;
    }
    rest
}

/// Where the first space stands.
fn end_of_word(text: &[u8]) -> Option<usize>
    ensures { result ≡ position is_space text.now }
{
    text.iter().position(|byte| *byte == b' ')
}

/// A name, filled up with spaces.
pub(crate) fn name<const N: usize>(word: &[u8]) -> Option<[u8; N]>
    ensures { result ≡ padded_name N word.now }
{
    if !is_name(word) {
        return None;
    }
    padded(word)
}

fn is_name(word: &[u8]) -> bool
    ensures { result ≡ is_name word.now }
{
    !word.is_empty() && are_visible(word)
}

fn are_visible(text: &[u8]) -> bool
    ensures { result ≡ list_all is_visible text.now }
{
    text.iter().all(|byte| is_visible(*byte))
}

fn is_number(word: &[u8]) -> bool
    ensures { result ≡ is_number word.now }
{
    !word.is_empty() && are_digits(word)
}

fn are_digits(text: &[u8]) -> bool
    ensures { result ≡ list_all is_ascii_digit text.now }
{
    text.iter().all(|byte| byte.is_ascii_digit())
}

/// A number of 64 bits.
pub(crate) fn number64(word: &[u8]) -> Option<u64>
    ensures { result ≡ number_of_bits 64 word.now }
{
    if !is_number(word) {
        return None;
    }
    spelled_value(word)
}

/// A number of 32 bits.
pub(crate) fn number32(word: &[u8]) -> Option<u32>
    ensures { result ≡ number_of_bits 32 word.now }
{
    if !is_number(word) {
        return None;
    }
    let value = spelled_value(word)?;
    if value > u64::from(u32::MAX) {
        return None;
    }
    Some(value as u32)
}
