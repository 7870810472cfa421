//! What a gate shows of its day beside what it answers: its records where they stand, and what stands after them. No call
//! takes memory, and none walks the records.
#![tactic(auto)]

mod state;
mod watching;

ghost use Rattle.std.specs.Prelude.{◌≡◌};

use gx_access_gate::AccessGate;
use gx_history::records::Records;
pub use state::ShowsState;
pub use watching::{NoWatch, Watches};

/// A gate that shows its records where they stand.
pub trait ShowsRecords: AccessGate {
    /// All its records, the oldest first. Takes no memory.
    fn shown_records(&self) -> Records<'_>
        ensures { result ≡ (Self.state self.now).records };
}
