//! A table for passes, before it has a name.

use crate::view::{ViewSeat, ViewTable};
use atomic_table::Table;
use gx_units::OutOfMemory;
use std::alloc::Global;
use std::marker::Model;
use std::sync::Arc;

/// A table with an empty history, which has no name yet. Contracts see the table's identity.
#[derive(Drop)]
pub struct Blank {
    pub(crate) table: Arc<ViewTable, Global>,
    pub(crate) seat: ViewSeat,
}

impl Model for Blank {
    ghost use Rattle.std.specs.Prelude.{◌≡◌, []};
    ghost use Rattle.std.specs.Arc.{arc_value};
    ghost use Rattle.atomic_table.specs.Seated.{TableId, table_id_coded};
    ghost use Rattle.gx_pass.specs.Views.{first_view};

    ghost Value = { TableId };

    ghost coded = { table_id_coded };

    ghost view = { λ b. b.seat.table_id };

    ghost invariant = { λ b. ((arc_value b.table).shared.table_id ≡ b.seat.table_id)
        × (b.seat.table_id.words ≡ 1) × (b.seat.me ≡ (first_view, [])) };
}

impl Blank {
    /// A table of its own with one seat. `OutOfMemory` where memory was refused.
    pub fn new(alloc: Global) -> Result<Blank, OutOfMemory> {
        let (table, seat) = Table::of_words(alloc, &[0], &())?;
        let table = Arc::new(alloc, table)?;
        Ok(Blank { table, seat })
    }
}
