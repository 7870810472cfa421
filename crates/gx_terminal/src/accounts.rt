//! The accounts that a line names.

ghost use Rattle.std.specs.Prelude.{◌≡◌, ◌++◌, IfOk, OnOk};
ghost use Rattle.gx_script_text.specs.Words.{padded_name};
ghost use Rattle.gx_terminal.specs.Wishes.{account_in, accounts_in, accounts_named};

use crate::reading::without_cr;
use crate::words::{LineWords, name};
use gx_units::{AccountName, OutOfMemory};
use std::alloc::Global;

/// Puts the account that the word is, if it is one, at the end of the names.
fn push_account(names: &mut Vec<AccountName>, word: &[u8]) -> Result<(), OutOfMemory>
    ensures { OnOk result (names.new.items
        ≡ names.old.items ++ account_in (padded_name 8 word.now)) }
{
    let Some(bytes) = name(word) else {
        return Ok(());
    };
    names.push(AccountName { bytes })?;
    Ok(())
}

/// The accounts that the words are.
fn accounts_in(alloc: Global, words: &mut LineWords) -> Result<Vec<AccountName>, OutOfMemory>
    ensures { IfOk result (λ names. names.items ≡ accounts_in words.old.words) }
{
    let mut names = Vec::new(alloc);
    while let Some(word) = words.next() {
        push_account(&mut names, word)?;
    }
    Ok(names)
}

/// The accounts that a line names behind its first word, as `kill ALFA BETA` does: its bytes without the LF.
///
/// # Errors
///
/// `OutOfMemory` where memory was refused.
pub fn accounts_named(alloc: Global, line: &[u8]) -> Result<Vec<AccountName>, OutOfMemory>
    ensures { IfOk result (λ names. names.items ≡ accounts_named line.now) }
{
    let mut words = LineWords::new(without_cr(line));
    let _ = words.next();
    accounts_in(alloc, &mut words)
}
