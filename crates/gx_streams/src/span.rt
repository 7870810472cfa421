//! Fills of which a reader is sent copies by one mask.

/// A reader's fills from one on, up to where his next span begins.
#[derive(Clone, Copy)]
pub(crate) struct Span {
    /// Its place in the list of all fills.
    pub(crate) first_fill: usize,
    /// The accounts whose fills he gets, in the file's order, the first in the lowest bit.
    pub(crate) mask: u64,
    /// The number that his first report of the span has, or would have.
    pub(crate) first_report: usize,
}
