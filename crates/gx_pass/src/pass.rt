//! Passes, in their holders' hands and in the keeper's.

ghost use Rattle.std.specs.Prelude.{◌≡◌, ◌≤◌, length};
ghost use Rattle.gx_pass.specs.Views.{with_told};

use crate::name::GateName;
use crate::view::{LoadLength, ViewSeat, ViewTable};
use std::alloc::{AllocError, Global};
use std::marker::{Model, PhantomData};
use std::sync::Arc;
use thiserror::Error;

/// Why no pass was issued. Nothing has changed then.
#[derive(Clone, Copy, Debug, PartialEq, Eq, Error)]
pub enum PassFault {
    /// The allocator refused the pass.
    #[error("out of memory")]
    OutOfMemory,
    /// All 65,535 lines were issued.
    #[error("no lines left")]
    NoLines,
}

impl From<AllocError> for PassFault {
    ghost use Rattle.std.specs.Prelude.{◌≡◌};
    ghost use Rattle.gx_pass.specs.declared.pass.PassFault.TheVariants as faults;

    ghost from_gives = { λ _ e. e ≡ faults.OutOfMemory };

    fn from(_refused: AllocError) -> PassFault {
        PassFault::OutOfMemory
    }
}

/// What its holder has met of the history. Contracts see its line, the beginning that was met and the length that was
/// told; its own records are those of its line in that beginning.
#[derive(Drop)]
pub struct Pass<N: GateName> {
    pub(crate) line: u16,
    pub(crate) seat: ViewSeat,
    pub(crate) table: Arc<ViewTable, Global>,
    pub(crate) of: PhantomData<N>,
}

impl<N: GateName> Model for Pass<N> {
    ghost use Rattle.std.specs.Prelude.{◌≡◌, []};
    ghost use Rattle.std.specs.Arc.{arc_value};
    ghost use Rattle.gx_pass.specs.declared.view.LineView.{LineView};
    ghost use Rattle.gx_pass.specs.declared.view.View.TheVariants.{Holding};
    ghost use Rattle.gx_pass.specs.Views.{line_view_of};

    ghost Value = { LineView };

    ghost view = { λ p. line_view_of p.seat.me.0 };

    ghost invariant = { λ p. (p.seat.table_id ≡ N.table)
        × ((arc_value p.table).shared.table_id ≡ N.table) × (N.table.words ≡ 1)
        × (p.seat.me ≡ (Holding (line_view_of p.seat.me.0), []))
        × (p.line ≡ (line_view_of p.seat.me.0).line) };
}

/// A pass that the keeper has taken in. Contracts see its line.
#[derive(Drop)]
pub struct Entered<N: GateName> {
    pub(crate) line: u16,
    pub(crate) table: Arc<ViewTable, Global>,
    pub(crate) of: PhantomData<N>,
}

impl<N: GateName> Model for Entered<N> {
    ghost use Rattle.std.specs.Prelude.{◌≡◌, ℕ};
    ghost use Rattle.std.specs.Arc.{arc_value};

    ghost Value = { ℕ };

    ghost view = { λ e. e.line };

    ghost invariant = { λ e. (arc_value e.table).shared.table_id ≡ N.table };
}

impl<N: GateName> Pass<N> {
    /// The number of the connection that holds it.
    pub fn line(&self) -> u16
        ensures { result ≡ self.now.line }
    {
        self.line
    }

    /// How long the history is: at least as long as what was met, and as what was told before. It waits for nobody.
    pub fn length(&mut self) -> u64
        ensures told { self.new ≡ with_told self.old result }
        ensures more { self.old.told ≤ result }
        ensures front { length self.old.front ≤ result }
    {
        self.table.shared.load::<LoadLength>(&mut self.seat, 0)
    }
}
