//! Limits as an officer types them: a number, or an amount of money.

ghost use Rattle.std.specs.{Prelude.{◌≡◌, find, slice_index}, List.list_any};
ghost use Rattle.gx_terminal.specs.Amounts.{amount_of, as_limit, is_comma, is_dollar_sign, is_limit_of, is_under_tenth, limit_fault, limit_typed, pointed_amount, whole_amount, whole_dollars, with_byte, with_thousands, without_sign};

use crate::price::{decimals, point_of};
use crate::words::number64;
use gx_units::RuleId;

/// No limit is larger.
const LARGEST_LIMIT: u128 = 9_223_372_036_854_775_807;

/// A limit as it is typed.
#[derive(Clone, Copy, PartialEq, Eq)]
pub struct TypedLimit {
    /// In shares, in ten-thousandths of a dollar, or of a collar in ten-thousandths of the reference price.
    pub amount: u64,
    /// Whether it is typed as an amount of money, with a dollar sign or a point.
    pub is_money: bool,
}

/// What the limit of a rule is counted in.
#[derive(Clone, Copy, PartialEq, Eq)]
pub enum LimitUnit {
    /// In shares.
    Shares,
    /// In ten-thousandths of a dollar.
    Dollars,
    /// In ten-thousandths of the reference price.
    Price,
}

/// What is known of a rule's limit.
#[derive(Clone, Copy, PartialEq, Eq)]
pub struct KnownLimit {
    /// The rule.
    pub rule: RuleId,
    /// What it is counted in.
    pub unit: LimitUnit,
    /// How much it is.
    pub limit: u64,
}

/// Why a limit is not one of its rule.
#[derive(Clone, Copy, PartialEq, Eq)]
pub enum LimitFault {
    /// It may be meant in dollars, or in their ten-thousandths.
    TwoMeanings,
    /// The rule counts shares.
    CountsShares,
    /// The rule's limit is a part of the reference price.
    IsPartOfPrice,
}

/// The amount, where a limit can be so large.
fn as_limit(amount: u128) -> Option<u64>
    ensures { result ≡ as_limit amount }
{
    if amount > LARGEST_LIMIT {
        return None;
    }
    Some(amount as u64)
}

/// A number with one byte more, which has so many behind it.
fn with_byte(number: u64, behind: usize, byte: u8) -> Option<u64>
    ensures { result ≡ with_byte number behind byte }
{
    if behind % 4 == 3 {
        return if byte == b',' { Some(number) } else { None };
    }
    if !byte.is_ascii_digit() {
        return None;
    }
    as_limit(u128::from(number) * 10 + u128::from(byte - b'0'))
}

/// A number with commas between its thousands.
fn thousands(text: &[u8]) -> Option<u64>
    ensures { result ≡ with_thousands 0 text.now }
{
    let mut number = 0;
    let mut rest = text;
    while let [byte, behind @ ..] = rest {
        number = with_byte(number, behind.len(), *byte)?;
        rest = behind;
    }
    Some(number)
}

fn begins_with_comma(text: &[u8]) -> bool
    ensures { result ≡ is_comma (slice_index text.now 0) }
{
    matches!(text, [b',', ..])
}

fn begins_with_sign(text: &[u8]) -> bool
    ensures { result ≡ is_dollar_sign (slice_index text.now 0) }
{
    matches!(text, [b'$', ..])
}

fn has_comma(text: &[u8]) -> bool
    ensures { result ≡ list_any is_comma text.now }
{
    text.iter().any(|byte| *byte == b',')
}

fn whole_dollars(text: &[u8]) -> Option<u64>
    ensures { result ≡ whole_dollars text.now }
{
    if begins_with_comma(text) {
        return None;
    }
    if has_comma(text) {
        return thousands(text);
    }
    number64(text)
}

fn whole_amount(dollars: &[u8]) -> Option<u64>
    ensures { result ≡ whole_amount dollars.now }
{
    let whole = whole_dollars(dollars)?;
    as_limit(u128::from(whole) * 10_000)
}

fn pointed_amount(dollars: &[u8], part: &[u8]) -> Option<u64>
    ensures { result ≡ pointed_amount dollars.now part.now }
{
    let whole = whole_dollars(dollars)?;
    let part = decimals(part)?;
    as_limit(u128::from(whole) * 10_000 + u128::from(part))
}

/// The text without a dollar sign in front.
fn without_sign(text: &[u8]) -> &[u8]
    ensures { result.now ≡ without_sign text.now }
{
    match text {
        [b'$', behind @ ..] => behind,
        _ => text,
    }
}

/// An amount of money, in ten-thousandths of a dollar.
#[tactic(auto, unfolding(crate::specs::Amounts::amount_of))]
fn amount(word: &[u8]) -> Option<u64>
    ensures { result ≡ amount_of word.now }
{
    let text = without_sign(word);
    match point_of(text) {
        Some(point) => pointed_amount(&text[..point], &text[point + 1..]),
        None if begins_with_sign(word) => whole_amount(text),
        None => None,
    }
}

/// A limit: a number, or an amount of money.
pub(crate) fn typed_limit(word: &[u8]) -> Option<TypedLimit>
    ensures { result ≡ limit_typed word.now }
{
    if let Some(number) = number64(word) {
        return Some(TypedLimit {
            amount: number,
            is_money: false,
        });
    }
    let amount = amount(word)?;
    Some(TypedLimit {
        amount,
        is_money: true,
    })
}

impl TypedLimit {
    /// Why it is no limit of a rule whose limit is counted so, if it is none.
    pub fn fault(self, unit: LimitUnit) -> Option<LimitFault>
        ensures { result ≡ limit_fault self unit }
    {
        match unit {
            LimitUnit::Dollars if !self.is_money => Some(LimitFault::TwoMeanings),
            LimitUnit::Shares if self.is_money => Some(LimitFault::CountsShares),
            LimitUnit::Price if self.is_money => Some(LimitFault::IsPartOfPrice),
            _ => None,
        }
    }

    /// Whether it is less than a tenth of this limit.
    pub fn is_under_tenth(self, limit: u64) -> bool
        ensures { result ≡ is_under_tenth self limit }
    {
        u128::from(self.amount) * 10 < u128::from(limit)
    }
}

impl KnownLimit {
    /// What is known of the rule's limit: the first of these, if any is of the rule.
    pub fn of_rule(limits: &[KnownLimit], rule: RuleId) -> Option<KnownLimit>
        ensures { result ≡ find (is_limit_of rule) limits.now }
    {
        limits.iter().copied().find(|known| known.rule == rule)
    }
}
