//! Texts that a person or a program reads: numbers, moments, and bytes that a peer chose, shown so that they do no harm.
//!
//! - `appending`: bytes and numbers at the end of a text;
//! - `form`: how lines are written;
//! - `moments`: minutes and moments as a clock shows them;
//! - `shown`: bytes that a peer chose, in a text and in JSON;
//! - `laws`: what is so of all bytes that are shown.
#![tactic(auto)]

mod appending;
mod form;
mod laws;
mod moments;
mod shown;

pub use appending::{append, append_number, append_with_zeros};
pub use form::Form;
pub use laws::{shown_bytes_are_visible, strings_end};
pub use moments::{Decimals, append_minute, append_moment};
pub use shown::{append_json_name, append_json_string, append_name, append_shown};
