//! What is told of words that were refused: of a long word a front alone.

use crate::building::command_line;
use clap::Error;
use gx_shortened::Shortened;
use std::alloc::{AllocError, Global};

/// The most bytes of a word that is shown whole.
const MOST: usize = 80;

/// The words, each as it is shown.
fn shortened(alloc: Global, words: &[String]) -> Result<Vec<String>, AllocError> {
    let mut shown = Vec::new(alloc);
    for word in words {
        let short = Shortened::of(word.as_str());
        let Ok(text) = format!(in alloc; "{short}") else {
            return Err(AllocError);
        };
        shown.push(text)?;
    }
    Ok(shown)
}

/// The fault of the words as they are shown. Where these have none, it is that of the words themselves.
fn fault_of_shortened(alloc: Global, words: &[String], error: Error) -> Result<Error, AllocError> {
    let shown = shortened(alloc, words)?;
    match command_line(alloc)?.try_get_matches_from(shown.as_slice()) {
        Ok(_) => Ok(error),
        Err(fault) => Ok(fault),
    }
}

/// The fault of the words as it is told, where this is their own.
pub(crate) fn shown_fault(alloc: Global, words: &[String], error: Error) -> Error {
    if words.iter().all(|word| word.len() <= MOST) {
        return error;
    }
    match fault_of_shortened(alloc, words, error) {
        Ok(fault) => fault,
        Err(refused) => refused.into(),
    }
}
