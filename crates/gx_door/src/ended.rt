//! What a record ended.

ghost use Rattle.std.specs.Prelude.{◌≡◌, []};
ghost use Rattle.gx_door.specs.Endings.{sums_of};

/// Orders that ended at once, as a granted Kill or Close Day ends them.
#[derive(Clone, Copy, PartialEq, Eq)]
pub struct EndedTotals {
    /// How many there were.
    pub orders: u64,
    /// How many of their shares were open.
    pub shares: u64,
}

impl EndedTotals {
    /// No order ended.
    pub fn none() -> EndedTotals
        ensures { result ≡ sums_of [] }
    {
        EndedTotals {
            orders: 0,
            shares: 0,
        }
    }
}
