//! The rows of a table, as a list.

ghost use Rattle.std.specs.Prelude.{◌≡◌, map, IfOk};

use gx_units::OutOfMemory;
use indexmap::IndexMap;
use std::alloc::Global;
use std::hash::Hash;

/// The rows of the table, in its order.
pub(crate) fn rows_in<K: Eq + Hash, V: Copy + Drop>(
    alloc: Global,
    table: &IndexMap<K, V>,
) -> Result<Vec<V>, OutOfMemory>
    ensures rows { IfOk result (λ rows. rows.items ≡ map (λ e. e.1) table.now.entries) }
{
    Ok(table.values().copied().collect(alloc)?)
}
