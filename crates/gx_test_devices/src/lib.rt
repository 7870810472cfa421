//! Test devices: a reader and a writer that give and take little, and fail; the text of what a run did; and sessions without
//! a gate.
#![tactic(auto)]

mod devices;
mod sessions;
mod texts;

pub use devices::{BYTE_BY_BYTE, DeviceLimits, LARGE, ShortReader, ShortWriter, limits_of};
pub use sessions::report_session;
pub use texts::{OutputText, decode_hex, halves, hex_bytes_of, put_hex};
