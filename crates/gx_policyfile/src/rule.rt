//! The file's rules.

ghost use Rattle.std.specs.Prelude.{◌≡◌, map, codes};
ghost use Rattle.toml.specs.View.{view, table_view};
ghost use Rattle.gx_units.specs.Names.{same_rule};
ghost use Rattle.gx_policyvalues.specs.{declared.fault.FaultKind.TheVariants.BadValue, Field.{Gives, seen_result, choice_at, word_at}};
ghost use Rattle.gx_policyfile.specs.{Rules.{kinds_of_version, rule_keys, rule_name, limit, count, stocks_of_entry, kind, rule}, Policies.rules};

use crate::known::{STOCKS, known_stocks, scope};
use crate::place::{Entry, entries};
use crate::version::FileVersion;
use gx_policy::{
    Account, Count, FIRST_KINDS, FIRST_KINDS_TOLD, FileRule, KIND_WORDS, KINDS_TOLD, KindName,
    Rate, Repeat, RuleKind, Stock, Symbols, is_built_in,
};
use gx_policyvalues::{Allowed, FaultKind, Letters, PolicyFault, field};
use gx_units::RuleId;
use std::alloc::Global;
use toml::{Table, Value};

/// The greatest limit, as TOML's integers go.
const GREATEST: u64 = 9_223_372_036_854_775_807;

/// What the key `name` of a rule allows.
const RULE_NAME: Allowed = Allowed::Words(
    "a string of 1 to 8 of A to Z, 0 to 9 and _, and no built-in rule (G1 to G3, I1 to I3, P1 to P12, L1 to L3, Q1 to Q4)",
);

/// What the key `count` allows.
const COUNTS: Allowed = Allowed::Words("\"each\" or \"together\"");

/// The words of the key `kind` in a file of the version.
#[tactic(auto, unfolding(crate::specs::Rules::kinds_of_version))]
fn kind_words(version: FileVersion) -> &'static [(&'static str, KindName)]
    ensures { map (λ w. (w.0.now, w.1)) result.now ≡ kinds_of_version version }
{
    match version {
        FileVersion::One => &KIND_WORDS[..FIRST_KINDS],
        FileVersion::Two => &KIND_WORDS,
    }
}

fn kind_word(version: FileVersion, entry: &Table) -> Option<KindName>
    ensures { result ≡ word_at (codes "kind") (kinds_of_version version) (table_view entry.now) }
{
    field::word_at(entry, "kind", kind_words(version))
}

fn allowed_kinds(version: FileVersion) -> Allowed {
    match version {
        FileVersion::One => Allowed::Words(FIRST_KINDS_TOLD),
        FileVersion::Two => Allowed::Words(KINDS_TOLD),
    }
}

fn known_kind(version: FileVersion, entry: &Table) -> Result<KindName, PolicyFault>
    ensures { seen_result (λ k. k) result
        ≡ choice_at (codes "kind") (kinds_of_version version) (table_view entry.now) }
{
    field::choice_at(entry, "kind", kind_words(version), allowed_kinds(version))
}

/// The keys of a rule of this kind.
fn keys_of(word: Option<KindName>) -> &'static [&'static str]
    ensures { map (λ k. k.now) result.now ≡ rule_keys word }
{
    match word {
        Some(KindName::Listed(_)) => &["name", "kind", "stocks", "accounts"],
        Some(KindName::Plain(_)) => &["name", "kind", "accounts"],
        Some(KindName::Order(_)) => &["name", "kind", "limit", "accounts"],
        Some(KindName::Exposure(_)) => &["name", "kind", "limit", "count", "accounts"],
        Some(KindName::Rate) => &["name", "kind", "limit", "window", "count", "accounts"],
        Some(KindName::Repeat) => &["name", "kind", "limit", "span", "count", "accounts"],
        None => &[
            "name", "kind", "stocks", "limit", "window", "span", "count", "accounts",
        ],
    }
}

#[tactic(auto, unfolding(crate::specs::Rules::rule_name))]
fn rule_name(value: &Value) -> Result<RuleId, PolicyFault>
    ensures { seen_result (λ n. n) result ≡ rule_name (view value.now) }
{
    let bad = Err(PolicyFault::at(FaultKind::BadValue, "name", RULE_NAME));
    match field::field(value, Letters::Plain) {
        Some(bytes) => {
            let name = RuleId { bytes };
            if is_built_in(name) { bad } else { Ok(name) }
        }
        None => bad,
    }
}

fn limit(entry: &Table) -> Result<u64, PolicyFault>
    ensures { seen_result (λ n. n) result ≡ limit (table_view entry.now) }
{
    field::number_at(entry, "limit", 0, GREATEST)
}

fn count(entry: &Table) -> Result<Count, PolicyFault>
    ensures { seen_result (λ c. c) result ≡ count (table_view entry.now) }
{
    let words = [("each", Count::Each), ("together", Count::Together)];
    field::choice_at(entry, "count", &words, COUNTS)
}

fn stocks_of_entry(alloc: Global, stocks: &[Stock], entry: &Table) -> Result<Symbols, PolicyFault>
    ensures { Gives (λ s. s) result (stocks_of_entry stocks.now (table_view entry.now)) }
{
    let value = field::value_at(entry, "stocks", STOCKS)?;
    Ok(Symbols::new(known_stocks(alloc, stocks, value)?))
}

#[tactic(auto, unfolding(crate::specs::Rules::kind))]
fn kind(
    alloc: Global,
    stocks: &[Stock],
    word: KindName,
    entry: &Table,
) -> Result<RuleKind, PolicyFault>
    ensures { Gives (λ k. k) result (kind stocks.now word (table_view entry.now)) }
{
    match word {
        KindName::Listed(kind) => Ok(RuleKind::Listed(
            kind,
            stocks_of_entry(alloc, stocks, entry)?,
        )),
        KindName::Plain(kind) => Ok(RuleKind::Plain(kind)),
        KindName::Order(kind) => Ok(RuleKind::Order(kind, limit(entry)?)),
        KindName::Exposure(kind) => {
            let limit = limit(entry)?;
            Ok(RuleKind::Exposure(kind, limit, count(entry)?))
        }
        KindName::Rate => {
            let limit = field::number_at(entry, "limit", 1, 4096)?;
            let window = field::number_at(entry, "window", 1, GREATEST)?;
            Ok(RuleKind::Rate(Rate { limit, window }, count(entry)?))
        }
        KindName::Repeat => {
            let limit = field::number_at(entry, "limit", 1, 4096)?;
            let span = field::number_at(entry, "span", limit, 4096)?;
            Ok(RuleKind::Repeat(Repeat { limit, span }, count(entry)?))
        }
    }
}

#[tactic(auto, unfolding(crate::specs::Rules::rule))]
fn rule(
    alloc: Global,
    version: FileVersion,
    accounts: &[Account],
    stocks: &[Stock],
    entry: &Table,
) -> Result<FileRule, PolicyFault>
    ensures { Gives (λ r. r) result
        (rule version accounts.now stocks.now (table_view entry.now)) }
{
    field::only_keys(entry, keys_of(kind_word(version, entry)))?;
    let name = rule_name(field::value_at(entry, "name", RULE_NAME)?)?;
    let word = known_kind(version, entry)?;
    let kind = kind(alloc, stocks, word, entry)?;
    let scope = scope(alloc, accounts, entry)?;
    Ok(FileRule { name, kind, scope })
}

impl Entry for FileRule {
    ghost meant = { rule };

    ghost is_same = { λ a b. same_rule a.name b.name };

    fn read(
        alloc: Global,
        version: FileVersion,
        accounts: &[Account],
        stocks: &[Stock],
        entry: &Table,
    ) -> Result<FileRule, PolicyFault> {
        rule(alloc, version, accounts, stocks, entry)
    }

    fn is_same(&self, other: &FileRule) -> bool {
        self.name == other.name
    }
}

/// The rules of the file, in its order.
///
/// # Errors
///
/// The first fault of the entries, or that memory was refused.
#[tactic(auto, unfolding(crate::specs::Policies::rules))]
pub fn rules(
    alloc: Global,
    version: FileVersion,
    accounts: &[Account],
    stocks: &[Stock],
    tables: &[&Table],
) -> Result<Vec<FileRule>, PolicyFault>
    ensures { Gives (λ v. v.items) result
        (rules version accounts.now stocks.now (map (λ t. table_view t.now) tables.now)) }
{
    entries(alloc, "rule", version, accounts, stocks, 128, tables)
}
