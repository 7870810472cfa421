//! The words of a line of a script.

ghost use Rattle.std.specs.{Prelude.{◌≡◌, ◌≤◌, ◌<◌, length, take, IfSome, IsFalse, IsTrue, ◌∷◌, [], slice_get, MatchOption}, List.list_all, Char.is_ascii_digit};
ghost use Rattle.gx_soup.specs.Login.{spelled_number};
ghost use Rattle.gx_units.specs.Spelling.{is_space, padded_to, is_visible};
ghost use Rattle.gx_script_text.specs.Words.{Fills, Finds, words_of, is_done, has_no_space, is_number, padded_name, number_of_bits, byte_of};

use crate::lanes::{WIDTH, before_hidden, before_space, first_bytes, with_spaces_from};
use gx_soup::spelled_value;
use gx_units::is_visible;
use std::marker::Model;

/// The words that are left of a line of at most 1,024 bytes. Contracts see them as a list.
#[derive(Drop)]
pub(crate) struct Words<'a> {
    rest: Option<&'a [u8]>,
    /// How many words were taken.
    taken: u32,
}

impl<'a> Model for Words<'a> {
    ghost use Rattle.std.specs.Prelude.{ℕ, ◌≤◌, List, length, option_copied, IfSome};
    ghost use Rattle.gx_script_text.specs.Words.{words_left};

    ghost Value = { List (List ℕ) };

    ghost view = { λ words. words_left (option_copied words.rest) };

    ghost invariant = { λ words. IfSome (option_copied words.rest) (λ text. length text ≤ 1024) };
}

impl<'a> Words<'a> {
    /// All words of a line.
    pub(crate) fn new(line: &'a [u8]) -> Words<'a>
        requires { length line.now ≤ 1024 }
        ensures { result ≡ words_of line.now }
    {
        Words {
            rest: Some(line),
            taken: 0,
        }
    }

    /// How many words were taken.
    pub(crate) fn taken(&self) -> u32 {
        self.taken
    }

    /// Whether no word is left.
    pub(crate) fn is_done(&self) -> bool
        ensures { result ≡ is_done self.now }
    {
        self.rest.is_none()
    }

    /// The next word.
    pub(crate) fn next(&mut self) -> Option<&'a [u8]>
        ensures first { MatchOption result (self.old ≡ [])
            (λ word. self.old ≡ word.now ∷ self.new) }
        ensures short { IfSome result (λ word. length word.now ≤ 1024) }
    {
        self.count();
        self.cut()
    }

    /// The next word as a number of 64 bits, which is cut and read at once; `None` where it is none.
    #[inline(always)]
    #[tactic(auto, using(crate::proofs::Words_read::digits_clear))]
    pub(crate) fn number64(&mut self) -> Option<u64>
        ensures { Finds (number_of_bits 64) self.old self.new result }
    {
        self.count();
        let text = self.rest?;
        let (number, end) = first_digits(text);
        if !self.end_word(text, end) {
            return long_number(self.cut()?);
        }
        if end == 0 {
            return None;
        }
        Some(number)
    }

    /// The next word as a number of 32 bits, which is cut and read at once; `None` where it is none.
    #[inline(always)]
    pub(crate) fn number32(&mut self) -> Option<u32>
        ensures { Finds (number_of_bits 32) self.old self.new result }
    {
        let number = self.number64()?;
        if number > u64::from(u32::MAX) {
            return None;
        }
        Some(number as u32)
    }

    /// Puts the next word into the field as a name, filled up with spaces. Answers whether it is one.
    #[inline(always)]
    #[tactic(auto, using(crate::proofs::Words_read::visible_clear))]
    pub(crate) fn name<const N: usize>(&mut self, field: &mut [u8; N]) -> bool
        ensures { Fills (padded_name N) self.old self.new field.new result }
    {
        self.count();
        let Some(text) = self.rest else {
            return false;
        };
        let end = fill_front(field, text);
        if !self.end_word(text, end) {
            let Some(word) = self.cut() else {
                return false;
            };
            return long_name(field, word);
        }
        end > 0
    }

    /// The next word as one byte; `None` where it is none.
    #[inline(always)]
    #[tactic(auto, using(crate::proofs::Words_read::first_clear, crate::proofs::Words_read::first_byte))]
    pub(crate) fn byte(&mut self) -> Option<u8>
        ensures { Finds byte_of self.old self.new result }
    {
        self.count();
        let text = self.rest?;
        if text.is_empty() || text[0] == b' ' || !self.end_word(text, 1) {
            return byte(self.cut()?);
        }
        Some(text[0])
    }

    /// Counts one more word as taken.
    fn count(&mut self)
        ensures { self.new ≡ self.old }
    {
        self.taken = self.taken.wrapping_add(1);
    }

    /// The next word, which is not counted.
    #[inline(always)]
    fn cut(&mut self) -> Option<&'a [u8]>
        ensures first { MatchOption result (self.old ≡ [])
            (λ word. self.old ≡ word.now ∷ self.new) }
        ensures short { IfSome result (λ word. length word.now ≤ 1024) }
    {
        let text = self.rest?;
        let end = end_of_word(text);
        self.end_word(text, end);
        Some(&text[..end])
    }

    /// Goes on behind the text's first word, if that ends here; answers whether it does.
    #[inline(always)]
    fn end_word(&mut self, text: &'a [u8], end: usize) -> bool
        requires line { length text.now ≤ 1024 }
        requires within { end ≤ length text.now }
        requires word { IsTrue (has_no_space (take end text.now)) }
        ensures ends { IsTrue result → words_of text.now ≡ take end text.now ∷ self.new }
        ensures found { IfSome (slice_get text.now end) (λ byte. IsTrue (is_space byte))
            → IsTrue result }
        ensures goes_on { IsFalse result → self.new ≡ self.old }
    {
        match text.get(end) {
            None => {
                self.rest = None;
                true
            }
            Some(b' ') => {
                self.rest = Some(&text[end + 1..]);
                true
            }
            Some(_) => false,
        }
    }
}

/// How many bytes stand in front of the first space.
#[inline(always)]
fn end_of_word(text: &[u8]) -> usize
    ensures within { result ≤ length text.now }
    ensures word { IsTrue (has_no_space (take result text.now)) }
    ensures ends { IfSome (slice_get text.now result) (λ byte. IsTrue (is_space byte)) }
{
    if text.len() >= WIDTH {
        let end = before_space(first_bytes(text)) as usize;
        if end < WIDTH {
            return end;
        }
    }
    end_by_bytes(text)
}

/// The same, byte by byte.
#[inline(never)]
fn end_by_bytes(text: &[u8]) -> usize
    ensures within { result ≤ length text.now }
    ensures word { IsTrue (has_no_space (take result text.now)) }
    ensures ends { IfSome (slice_get text.now result) (λ byte. IsTrue (is_space byte)) }
{
    for (end, byte) in text.iter().enumerate() {
        if *byte == b' ' {
            return end;
        }
    }
    text.len()
}

/// Fills the field with the visible bytes that the text begins with, as far as there is room for them, and with spaces.
/// Answers how many they are.
#[inline(always)]
fn fill_front<const N: usize>(field: &mut [u8; N], text: &[u8]) -> usize
    ensures within { result ≤ length text.now }
    ensures fits { result ≤ N }
    ensures visible { IsTrue (list_all is_visible (take result text.now)) }
    ensures front { field.new ≡ padded_to N (take result text.now) }
    ensures ends { IfSome (slice_get text.now result)
        (λ byte. result < N → IsFalse (is_visible byte)) }
{
    if N <= WIDTH && text.len() >= WIDTH {
        return fill_at_once(field, text);
    }
    fill_by_bytes(field, text)
}

/// The same from a text of sixteen bytes or more, at once.
#[inline(always)]
fn fill_at_once<const N: usize>(field: &mut [u8; N], text: &[u8]) -> usize
    requires room { N ≤ 16 }
    requires wide { 16 ≤ length text.now }
    ensures within { result ≤ length text.now }
    ensures fits { result ≤ N }
    ensures visible { IsTrue (list_all is_visible (take result text.now)) }
    ensures front { field.new ≡ padded_to N (take result text.now) }
    ensures ends { IfSome (slice_get text.now result)
        (λ byte. result < N → IsFalse (is_visible byte)) }
{
    let bytes = first_bytes(text);
    let end = (before_hidden(bytes) as usize).min(N);
    let filled = with_spaces_from(bytes, end);
    field.copy_from_slice(&filled[..N]);
    end
}

/// The same, byte by byte.
#[inline(never)]
fn fill_by_bytes<const N: usize>(field: &mut [u8; N], text: &[u8]) -> usize
    ensures within { result ≤ length text.now }
    ensures fits { result ≤ N }
    ensures visible { IsTrue (list_all is_visible (take result text.now)) }
    ensures front { field.new ≡ padded_to N (take result text.now) }
    ensures ends { IfSome (slice_get text.now result)
        (λ byte. result < N → IsFalse (is_visible byte)) }
{
    let (front, end) = visible_front(text);
    *field = front;
    end
}

/// The visible bytes that the text begins with, as far as there is room for them, filled up with spaces; and how many they
/// are.
fn visible_front<const N: usize>(text: &[u8]) -> ([u8; N], usize)
    ensures within { result.1 ≤ length text.now }
    ensures fits { result.1 ≤ N }
    ensures visible { IsTrue (list_all is_visible (take result.1 text.now)) }
    ensures front { result.0 ≡ padded_to N (take result.1 text.now) }
    ensures ends { IfSome (slice_get text.now result.1)
        (λ byte. result.1 < N → IsFalse (is_visible byte)) }
{
    let mut front = [b' '; N];
    let most = text.len().min(N);
    for (end, byte) in text[..most].iter().enumerate() {
        if !is_visible(*byte) {
            return (front, end);
        }
        front[end] = *byte;
    }
    (front, most)
}

/// The name of these visible bytes, which fill its field, if there are any.
#[inline(always)]
fn named<const N: usize>(word: &[u8], field: [u8; N]) -> Option<[u8; N]>
    requires visible { IsTrue (list_all is_visible word.now) }
    requires fits { length word.now ≤ N }
    requires filled { field ≡ padded_to N word.now }
    ensures { result ≡ padded_name N word.now }
{
    if word.is_empty() {
        return None;
    }
    Some(field)
}

/// Puts a word into the field as a name, filled up with spaces. Answers whether it is one.
#[inline(never)]
fn long_name<const N: usize>(field: &mut [u8; N], word: &[u8]) -> bool
    ensures { MatchOption (padded_name N word.now) (IsFalse result)
        (λ name. IsTrue result × (name ≡ field.new)) }
{
    let Some(found) = name(word) else {
        return false;
    };
    *field = found;
    true
}

/// A name, filled up with spaces.
fn name<const N: usize>(word: &[u8]) -> Option<[u8; N]>
    ensures { result ≡ padded_name N word.now }
{
    let (front, end) = visible_front(word);
    if end < word.len() {
        return None;
    }
    named(&word[..end], front)
}

/// The only byte of a word.
fn byte(word: &[u8]) -> Option<u8>
    ensures { result ≡ byte_of word.now }
{
    match word {
        [byte] => Some(*byte),
        _ => None,
    }
}

/// The number that the digits at the front of the text spell, and how many they are: 19 at most, which 64 bits hold.
#[inline(always)]
fn first_digits(text: &[u8]) -> (u64, usize)
    ensures within { result.1 ≤ length text.now }
    ensures digits { IsTrue (list_all is_ascii_digit (take result.1 text.now)) }
    ensures number { result.0 ≡ spelled_number (take result.1 text.now) }
{
    let front = &text[..text.len().min(19)];
    let mut number = 0;
    let mut count = 0;
    for digit in front {
        if !digit.is_ascii_digit() {
            return (number, count);
        }
        number = 10 * number + u64::from(*digit - b'0');
        count += 1;
    }
    (number, count)
}

/// A number of 64 bits, of any number of digits.
#[inline(never)]
fn long_number(word: &[u8]) -> Option<u64>
    ensures { result ≡ number_of_bits 64 word.now }
{
    if !is_number(word) {
        return None;
    }
    spelled_value(word)
}

fn is_number(word: &[u8]) -> bool
    ensures { result ≡ is_number word.now }
{
    !word.is_empty() && are_digits(word)
}

fn are_digits(text: &[u8]) -> bool
    ensures { result ≡ list_all is_ascii_digit text.now }
{
    text.iter().all(|byte| byte.is_ascii_digit())
}
