//! One report of a user, as it is put into his stream.

use crate::fill::FillRole;
use gx_history::report::Report;

/// One report of a user who is no reader.
#[derive(Clone, Copy)]
pub(crate) enum StoredReport {
    /// The report itself.
    Typed(Report),
    /// Executed: the fill's place in the list of all fills, and the user's side of it.
    Filled(usize, FillRole),
}
