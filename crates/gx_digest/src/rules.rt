//! The file's rules.

ghost use Rattle.std.specs.Prelude.{◌≡◌};
ghost use Rattle.gx_digest.specs.{Hashing.TakesIn, PolicyText.{back_of, count_of, count_text, kind_text, limit_or_zero, rule_text, stocks_or_none}};

use crate::lists::put_number;
use crate::people::put_scope;
use crate::writing::{Written, put, write_list};
use gx_policy::{Count, FileRule, RuleKind};
use gx_units::Symbol;
use sha2::Sha256;

fn stocks(kind: &RuleKind) -> &[Symbol]
    ensures { result.now ≡ stocks_or_none kind.now }
{
    match kind {
        RuleKind::Listed(_, stocks) => stocks.as_slice(),
        _ => &[],
    }
}

fn limit(kind: &RuleKind) -> u64
    ensures { result ≡ limit_or_zero kind.now }
{
    match kind {
        RuleKind::Order(_, limit) | RuleKind::Exposure(_, limit, _) => *limit,
        RuleKind::Rate(rate, _) => rate.limit,
        RuleKind::Repeat(repeat, _) => repeat.limit,
        _ => 0,
    }
}

fn back(kind: &RuleKind) -> u64
    ensures { result ≡ back_of kind.now }
{
    match kind {
        RuleKind::Rate(rate, _) => rate.window,
        RuleKind::Repeat(repeat, _) => repeat.span,
        _ => 0,
    }
}

fn count(kind: &RuleKind) -> Count
    ensures { result ≡ count_of kind.now }
{
    match kind {
        RuleKind::Exposure(_, _, count) | RuleKind::Rate(_, count) | RuleKind::Repeat(_, count) =>
            *count,
        _ => Count::Each,
    }
}

fn put_count(hasher: &mut Sha256, count: Count)
    ensures { TakesIn hasher.old hasher.new (count_text count) }
{
    match count {
        Count::Each => put(hasher, b"E"),
        Count::Together => put(hasher, b"T"),
    }
}

fn put_kind(hasher: &mut Sha256, kind: &RuleKind)
    ensures { TakesIn hasher.old hasher.new (kind_text kind.now) }
{
    put(hasher, &[kind.name().letter()]);
    write_list(hasher, stocks(kind));
    put_number(hasher, limit(kind));
    put_number(hasher, back(kind));
    put_count(hasher, count(kind));
}

impl Written for FileRule {
    ghost text = { rule_text };

    fn write(&self, hasher: &mut Sha256) {
        put(hasher, &self.name.bytes);
        put_kind(hasher, &self.kind);
        put_scope(hasher, &self.scope);
    }
}
