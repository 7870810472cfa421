//! The name by which a journal knows what it began with.

use std::marker::Brand;

/// Names what a device held when a journal was begun on it, how many of the day's records were there, what these were, and
/// in which version they are kept:
/// what lies under a lock is known by its type alone.
pub trait JournalName {
    ghost use Rattle.std.specs.Prelude.{ℕ, List, Option};
    ghost use Rattle.gx_history.specs.declared.record.RecordData.{RecordData};
    ghost use Rattle.gx_audit_bytes.specs.declared.version.AuditVersion.{AuditVersion};

    // Its bytes, where they are known.
    ghost begun: { Option (List ℕ) };

    // How many of the day's records were there.
    ghost count: { ℕ };

    // The day's records at first.
    ghost earlier: { List RecordData };

    // In which version records are put there.
    ghost version: { AuditVersion };
}

impl JournalName for Brand {
    ghost use Rattle.std.specs.Prelude.{None, []};
    ghost use Rattle.gx_audit_bytes.specs.declared.version.AuditVersion.TheVariants.{Two};

    ghost begun = { None };

    ghost count = { 0 };

    ghost earlier = { [] };

    ghost version = { Two };
}
