//! How lines are written.

/// How a line is written.
#[derive(Clone, Copy, PartialEq, Eq)]
pub enum Form {
    /// As a person reads it.
    Text,
    /// As a JSON object, for programs.
    Json,
}
