//! A key of a table: whether it is there, and what its value has to be.

ghost use Rattle.std.specs.{Prelude.{◌≡◌, ◌≤◌, false, IfOk, IfSome, length, map, option_map, ok_or, bytes_eq, string_bytes}, List.{list_all, list_any}};
ghost use Rattle.std.specs.BTreeMap as tree;
ghost use Rattle.toml.specs.{View.{view, table_view}};
ghost use Rattle.gx_policyvalues.specs.{declared.fault.FaultKind.TheVariants.{UnknownKey, BadValue}, Field.{Gives, is_memory, is_letter, seen_result, value_at, number, number_at, text, field, field_at, has_only, only_keys, word_in, choice, choice_at, word_at}};

use crate::fault::{Allowed, Cause, FaultKind, Letters, PolicyFault};
use gx_policytext::find;
use gx_units::padded;
use toml::{Table, Value};

fn is_letter(letters: Letters, byte: u8) -> bool
    ensures { result ≡ is_letter letters byte }
{
    match letters {
        Letters::Plain => byte.is_ascii_uppercase() || byte.is_ascii_digit() || byte == b'_',
        Letters::Visible => byte.is_ascii_graphic(),
    }
}

fn all_letters(letters: Letters, bytes: &[u8]) -> bool
    ensures { result ≡ list_all (is_letter letters) bytes.now }
{
    bytes.iter().all(|byte| is_letter(letters, *byte))
}

fn is_key(keys: &[&str], key: &str) -> bool
    ensures { result ≡ list_any (λ k. bytes_eq k.now key.now) keys.now }
{
    keys.iter().any(|known| *known == key)
}

fn are_keys(entry: &Table, keys: &[&str]) -> bool
    ensures { result
        ≡ list_all (λ key. list_any (λ k. bytes_eq k.now (string_bytes key)) keys.now)
        (tree.keys entry.now) }
{
    entry.keys().all(|key| is_key(keys, key.as_str()))
}

fn has_only(entry: &Table, keys: &[&str]) -> bool
    ensures { result ≡ has_only (map (λ k. k.now) keys.now) (table_view entry.now) }
{
    are_keys(entry, keys)
}

/// The fault of a table that has another key than these: the first such key.
fn unknown_key(entry: &Table, keys: &'static [&'static str]) -> PolicyFault
    ensures { is_memory result.kind ≡ false → result.kind ≡ UnknownKey }
{
    for key in entry.keys() {
        if !is_key(keys, key.as_str()) {
            return match key.clone() {
                Ok(name) => PolicyFault {
                    kind: FaultKind::UnknownKey,
                    entry: None,
                    cause: Cause::UnknownKey(name, keys),
                },
                Err(_) => PolicyFault::memory(),
            };
        }
    }
    PolicyFault::at(FaultKind::UnknownKey, "", Allowed::Words("other keys"))
}

/// Refuses any key but these.
pub fn only_keys(entry: &Table, keys: &'static [&'static str]) -> Result<(), PolicyFault>
    ensures { Gives (λ _. tt) result (only_keys (map (λ k. k.now) keys.now)
        (table_view entry.now)) }
{
    if has_only(entry, keys) {
        Ok(())
    } else {
        Err(unknown_key(entry, keys))
    }
}

/// The value of a key that has to be there.
///
/// # Errors
///
/// `MissingKey` where it is not there.
pub fn value_at<'a>(
    entry: &'a Table,
    key: &'static str,
    allowed: Allowed,
) -> Result<&'a Value, PolicyFault>
    ensures { seen_result (λ v. view v.now) result ≡ value_at key.now (table_view entry.now) }
{
    match find(entry, key) {
        Some(value) => Ok(value),
        None => Err(PolicyFault::at(FaultKind::MissingKey, key, allowed)),
    }
}

fn number(value: &Value, least: u64, most: u64) -> Option<u64>
    ensures value { ok_or result BadValue ≡ number least most (view value.now) }
    ensures range { IfSome result (λ n. n ≤ most) }
{
    match value.as_integer() {
        Some(n) => {
            if n < 0 {
                return None;
            }
            let n = n as u64;
            if least <= n && n <= most {
                Some(n)
            } else {
                None
            }
        }
        None => None,
    }
}

/// An integer of this range under a key.
///
/// # Errors
///
/// `MissingKey` where the key is absent, `BadValue` where its value is no such integer.
pub fn number_at(
    entry: &Table,
    key: &'static str,
    least: u64,
    most: u64,
) -> Result<u64, PolicyFault>
    ensures value { seen_result (λ n. n) result
        ≡ number_at key.now least most (table_view entry.now) }
    ensures range { IfOk result (λ n. n ≤ most) }
{
    let allowed = Allowed::Number(least, most);
    let value = value_at(entry, key, allowed)?;
    match number(value, least, most) {
        Some(n) => Ok(n),
        None => Err(PolicyFault::at(FaultKind::BadValue, key, allowed)),
    }
}

/// The text of a string of one to `most` of these letters.
fn text(value: &Value, letters: Letters, most: usize) -> Option<&[u8]>
    ensures value { ok_or (option_map (λ s. s.now) result) BadValue
        ≡ text letters most (view value.now) }
    ensures len { IfSome result (λ s. length s.now ≤ most) }
{
    match value.as_str() {
        Some(s) => {
            let bytes = s.as_bytes();
            if !bytes.is_empty() && bytes.len() <= most && all_letters(letters, bytes) {
                Some(bytes)
            } else {
                None
            }
        }
        None => None,
    }
}

/// Such a string, with spaces behind it.
pub fn field<const N: usize>(value: &Value, letters: Letters) -> Option<[u8; N]>
    ensures { ok_or result BadValue ≡ field letters N (view value.now) }
{
    match text(value, letters, N) {
        Some(bytes) => padded(bytes),
        None => None,
    }
}

/// Such a string under a key, with spaces behind it.
///
/// # Errors
///
/// `MissingKey` where the key is absent, `BadValue` where its value is no such string.
pub fn field_at<const N: usize>(
    entry: &Table,
    key: &'static str,
    letters: Letters,
) -> Result<[u8; N], PolicyFault>
    ensures { seen_result (λ s. s) result ≡ field_at key.now letters N (table_view entry.now) }
{
    let allowed = Allowed::Text(letters, N);
    let value = value_at(entry, key, allowed)?;
    match field(value, letters) {
        Some(bytes) => Ok(bytes),
        None => Err(PolicyFault::at(FaultKind::BadValue, key, allowed)),
    }
}

fn word_in<T: Copy>(words: &[(&str, T)], s: &str) -> Option<T>
    ensures { result ≡ word_in (map (λ w. (w.0.now, w.1)) words.now) s.now }
{
    for word in words {
        if word.0 == s {
            return Some(word.1);
        }
    }
    None
}

/// What the value means, where it is one of these words.
pub fn choice<T: Copy>(value: &Value, words: &[(&str, T)]) -> Option<T>
    ensures { ok_or result BadValue
        ≡ choice (map (λ w. (w.0.now, w.1)) words.now) (view value.now) }
{
    match value.as_str() {
        Some(s) => word_in(words, s),
        None => None,
    }
}

/// One of these words under a key.
///
/// # Errors
///
/// `MissingKey` where the key is absent, `BadValue` where its value is none of them.
pub fn choice_at<T: Copy>(
    entry: &Table,
    key: &'static str,
    words: &[(&str, T)],
    allowed: Allowed,
) -> Result<T, PolicyFault>
    ensures { seen_result (λ w. w) result
        ≡ choice_at key.now (map (λ w. (w.0.now, w.1)) words.now) (table_view entry.now) }
{
    let value = value_at(entry, key, allowed)?;
    match choice(value, words) {
        Some(meant) => Ok(meant),
        None => Err(PolicyFault::at(FaultKind::BadValue, key, allowed)),
    }
}

/// The word of a key, if it has one of these.
pub fn word_at<T: Copy>(entry: &Table, key: &str, words: &[(&str, T)]) -> Option<T>
    ensures { result ≡ word_at key.now (map (λ w. (w.0.now, w.1)) words.now)
        (table_view entry.now) }
{
    match find(entry, key) {
        Some(value) => match value.as_str() {
            Some(s) => word_in(words, s),
            None => None,
        },
        None => None,
    }
}
