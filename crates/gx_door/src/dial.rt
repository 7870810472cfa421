//! The clock that steps are handed in by.

ghost use Rattle.std.specs.Prelude.{ℕ};

use gx_units::Moment;

/// A clock. Contracts can name what it has shown.
pub trait Dial {
    // It has shown this moment.
    ghost shown: { ℕ → Type 0 };

    /// The moment now: nanoseconds past the midnight that the day began with.
    fn moment(&self) -> Moment
        ensures { shown result };
}
