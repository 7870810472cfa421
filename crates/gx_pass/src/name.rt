//! The name by which types under a lock agree.

use std::marker::Brand;
use std::sync::ledger::Ledger;

/// Names one table, one policy, the ledger of its records and that of its lines: what lies under a lock is known by its type
/// alone. A caller makes the blanks and hands them to a function generic in this name.
pub trait GateName: Ledger {
    ghost use Rattle.std.specs.Prelude.{ℕ};
    ghost use Rattle.atomic_table.specs.Seated.{TableId};
    ghost use Rattle.gx_policy.specs.declared.policy.PolicyData.{PolicyData};

    ghost table: { TableId };

    ghost policy: { PolicyData };

    // The name of the ledger in which the lines are counted that were issued.
    ghost lines: { ℕ };
}

impl GateName for Brand {
    ghost use Rattle.gx_pass.specs.Views.{no_policy, no_table};

    ghost table = { no_table };

    ghost policy = { no_policy };

    ghost lines = { 0 };
}
