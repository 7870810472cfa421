//! How often each rule denied a request.

ghost use Rattle.std.specs.Prelude.{◌≡◌, [], ◌++◌, map, IfOk, OnOk};
ghost use Rattle.gx_board.specs.Counting.{denied_row, denied_rows, is_denied_by, row_counted};
ghost use Rattle.gx_policy.specs.{RuleNames.rule_id, declared.rule_name.TheConstants.BUILT_IN};

use crate::counts::{denies, one_more};
use gx_history::record::{RecordData, Verdict};
use gx_policy::{BUILT_IN, FileRule, Policy};
use gx_units::{OutOfMemory, RuleId};
use std::alloc::Global;

/// How often a rule denied a request.
#[derive(Clone, Copy, PartialEq, Eq)]
pub struct DeniedRow {
    /// The name of the rule, padded with spaces, as an audit writes it.
    pub rule: RuleId,
    /// How many requests it denied.
    pub count: u64,
}

impl DeniedRow {
    fn never(rule: RuleId) -> DeniedRow
        ensures { result ≡ denied_row [] rule }
    {
        DeniedRow { rule, count: 0 }
    }

    fn note(&mut self, left: &RecordData)
        ensures { self.new ≡ row_counted left.now self.old }
    {
        let is_so = is_denied_by(self.rule, left);
        self.count = one_more(is_so, self.count);
    }
}

/// Whether the rule of this name denied the request.
fn is_denied_by(name: RuleId, left: &RecordData) -> bool
    ensures { result ≡ is_denied_by name left.now }
{
    match &left.verdict {
        Verdict::Denied(rule) => name == rule.id(),
        _ => false,
    }
}

/// Counts the record in the row of the rule of this name.
fn note_in_all(rows: &mut [DeniedRow], left: &RecordData)
    ensures { rows.new ≡ map (row_counted left.now) rows.old }
{
    for row in rows.iter_mut() {
        row.note(left);
    }
}

/// Counts the record in the row of the rule that denied its request, if one did.
#[tactic(auto, using(crate::proofs::Denied_next::none_counted))]
pub(crate) fn note(rows: &mut [DeniedRow], left: &RecordData)
    ensures { rows.new ≡ map (row_counted left.now) rows.old }
{
    if denies(left) {
        note_in_all(rows, left);
    }
}

/// Rows of these rules at the end of the others.
fn add_file_rules(rows: &mut Vec<DeniedRow>, rules: &[FileRule]) -> Result<(), OutOfMemory>
    ensures { OnOk result (rows.new.items
        ≡ rows.old.items ++ map (denied_row []) (map (λ rule. rule.name) rules.now)) }
{
    for rule in rules {
        rows.push(DeniedRow::never(rule.name))?;
    }
    Ok(())
}

/// Rows of the built-in rules.
fn built_in_rows(alloc: Global) -> Result<Vec<DeniedRow>, OutOfMemory>
    ensures { IfOk result (λ rows. rows.items ≡ map (denied_row []) (map rule_id BUILT_IN)) }
{
    let mut rows = Vec::new(alloc);
    for rule in &BUILT_IN {
        rows.push(DeniedRow::never(rule.id()))?;
    }
    Ok(rows)
}

/// A row of each rule, before any record.
pub(crate) fn first_rows(alloc: Global, policy: &Policy) -> Result<Vec<DeniedRow>, OutOfMemory>
    ensures { IfOk result (λ rows. rows.items ≡ denied_rows policy.now []) }
{
    let mut rows = built_in_rows(alloc)?;
    add_file_rules(&mut rows, policy.rules())?;
    Ok(rows)
}
