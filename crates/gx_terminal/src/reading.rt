//! A line of a terminal, read.

ghost use Rattle.std.specs.Prelude.{◌≡◌, ◌+◌, [], bytes_eq, is_some, MatchResult};
ghost use Rattle.gx_script_text.specs.{ScriptLines.without_cr, Words.{padded_name, number_of_bits, itself}};
ghost use Rattle.gx_terminal.specs.{Cursor.{Reads, next_word, next_or, value_at_end, wrong_at, word_meaning}, Prices.price_of, Amounts.limit_typed, Wishes.{with_more, accounts_wish, kill_wish, lift_wish, limit_wish, stock_wish, reader_wish, close_confirmed, close_wish, command_wish, lifetime_of, enter_wish, replace_wish, cancel_wish, order_form, wish_form, is_comment, wish_of}, declared.wish.Lifetime.TheVariants.Day};
ghost use Rattle.gx_terminal.specs.declared.wrong.ExpectedInput.TheVariants as places;

use crate::limits::{TypedLimit, typed_limit};
use crate::price::price;
use crate::wish::{Lifetime, NewOrder, NewTerms, Side, Wish};
use crate::words::{LineWords, name, number32};
use crate::wrong::{ExpectedInput, WrongWord};
use gx_desk::{Action, WrittenName};
use gx_ouch::CancelOrder;
use gx_units::{AccountName, RuleId, Symbol, Token};

/// What the last word taken stands for, or that it is wrong.
fn standing<T: Drop>(
    words: &LineWords,
    found: Option<T>,
    wanted: ExpectedInput,
) -> Result<T, WrongWord>
    ensures { Reads (word_meaning wanted found words.now) words.now result }
{
    found.ok_or(WrongWord {
        word: words.taken(),
        wanted,
    })
}

fn take_word<'a>(words: &mut LineWords<'a>, wanted: ExpectedInput) -> Result<&'a [u8], WrongWord>
    ensures { MatchResult result
        (λ word. next_word wanted itself words.old ≡ Ok (word.now, words.new))
        (λ wrong. (words.old.words ≡ []) × (wrong ≡ wrong_at (words.old.taken + 1) wanted)) }
{
    match words.next() {
        Some(word) => Ok(word),
        None => Err(WrongWord {
            word: words.taken() + 1,
            wanted,
        }),
    }
}

fn take_name<const N: usize>(
    words: &mut LineWords,
    wanted: ExpectedInput,
) -> Result<[u8; N], WrongWord>
    ensures { Reads (next_word wanted (padded_name N) words.old) words.new result }
{
    let word = take_word(words, wanted)?;
    standing(words, name(word), wanted)
}

fn take_limit(words: &mut LineWords) -> Result<TypedLimit, WrongWord>
    ensures { Reads (next_word places.Value limit_typed words.old) words.new result }
{
    let word = take_word(words, ExpectedInput::Value)?;
    standing(words, typed_limit(word), ExpectedInput::Value)
}

fn take_number32(words: &mut LineWords, wanted: ExpectedInput) -> Result<u32, WrongWord>
    ensures { Reads (next_word wanted (number_of_bits 32) words.old) words.new result }
{
    let word = take_word(words, wanted)?;
    standing(words, number32(word), wanted)
}

fn take_price(words: &mut LineWords) -> Result<u32, WrongWord>
    ensures { Reads (next_word places.Price price_of words.old) words.new result }
{
    let word = take_word(words, ExpectedInput::Price)?;
    standing(words, price(word), ExpectedInput::Price)
}

/// The value, where no word is left.
fn ended<T: Drop>(words: &mut LineWords, value: T) -> Result<T, WrongWord>
    ensures { result ≡ value_at_end value words.old }
{
    match words.next() {
        None => Ok(value),
        Some(_) => Err(WrongWord {
            word: words.taken(),
            wanted: ExpectedInput::End,
        }),
    }
}

fn is(word: &[u8], name: &[u8]) -> bool
    ensures { result ≡ bytes_eq word.now name.now }
{
    word == name
}

/// Whether a word can be the name of an account.
fn is_account(word: &[u8]) -> bool
    ensures { result ≡ is_some (padded_name 8 word.now) }
{
    name::<8>(word).is_some()
}

/// The wish, where no word is left; else a Kill of each account, where each word that is left is one.
fn with_more(words: &mut LineWords, kill: Wish) -> Result<Wish, WrongWord>
    ensures { result ≡ with_more kill words.old.taken words.old.words }
{
    let mut wish = kill;
    while let Some(word) = words.next() {
        if !is_account(word) {
            return Err(WrongWord {
                word: words.taken(),
                wanted: ExpectedInput::Account,
            });
        }
        wish = Wish::KillEach;
    }
    Ok(wish)
}

/// A Kill of the account that the word taken is, and of those behind it.
fn accounts_wish(word: &[u8], words: &mut LineWords) -> Result<Wish, WrongWord>
    ensures { result ≡ accounts_wish word.now words.old }
{
    let bytes = standing(words, name(word), ExpectedInput::AccountOrAll)?;
    with_more(words, Wish::Ask(Action::Kill(AccountName { bytes })))
}

#[tactic(auto, unfolding(crate::specs::Wishes::kill_wish))]
fn kill_wish(words: &mut LineWords) -> Result<Wish, WrongWord>
    ensures { result ≡ kill_wish words.old }
{
    let word = take_word(words, ExpectedInput::AccountOrAll)?;
    if is(word, b"--all") {
        return ended(words, Wish::KillAll);
    }
    accounts_wish(word, words)
}

#[tactic(auto, unfolding(crate::specs::Wishes::lift_wish))]
fn lift_wish(words: &mut LineWords) -> Result<Wish, WrongWord>
    ensures { result ≡ lift_wish words.old }
{
    let bytes = take_name(words, ExpectedInput::Account)?;
    ended(words, Wish::Ask(Action::Lift(AccountName { bytes })))
}

#[tactic(auto, unfolding(crate::specs::Wishes::limit_wish))]
fn limit_wish(words: &mut LineWords) -> Result<Wish, WrongWord>
    ensures { result ≡ limit_wish words.old }
{
    let bytes = take_name(words, ExpectedInput::Rule)?;
    let limit = take_limit(words)?;
    ended(words, Wish::Limit(RuleId { bytes }, limit))
}

/// A rule and a stock.
#[tactic(auto, unfolding(crate::specs::Wishes::stock_wish))]
fn stock_wish(words: &mut LineWords) -> Result<(RuleId, Symbol), WrongWord>
    ensures { result ≡ stock_wish words.old }
{
    let rule = take_name(words, ExpectedInput::Rule)?;
    let stock = take_name(words, ExpectedInput::Stock)?;
    ended(words, (RuleId { bytes: rule }, Symbol { bytes: stock }))
}

/// A reader and an account.
#[tactic(auto, unfolding(crate::specs::Wishes::reader_wish))]
fn reader_wish(words: &mut LineWords) -> Result<(WrittenName, AccountName), WrongWord>
    ensures { result ≡ reader_wish words.old }
{
    let reader = take_name(words, ExpectedInput::Reader)?;
    let account = take_name(words, ExpectedInput::Account)?;
    let named = (
        WrittenName { bytes: reader },
        AccountName { bytes: account },
    );
    ended(words, named)
}

/// That the day is to be closed.
#[tactic(auto, unfolding(crate::specs::Wishes::close_confirmed))]
fn closing(word: &[u8]) -> Option<Wish>
    ensures { result ≡ close_confirmed word.now }
{
    if is(word, b"--yes") {
        return Some(Wish::Ask(Action::CloseDay));
    }
    None
}

#[tactic(auto, unfolding(crate::specs::Wishes::close_wish))]
fn close_wish(words: &mut LineWords) -> Result<Wish, WrongWord>
    ensures { result ≡ close_wish words.old }
{
    let word = take_word(words, ExpectedInput::Yes)?;
    let close = standing(words, closing(word), ExpectedInput::Yes)?;
    ended(words, close)
}

/// The command that the word names, of the words behind it.
#[tactic(auto, unfolding(crate::specs::Wishes::command_wish))]
fn command_wish(form: &[u8], words: &mut LineWords) -> Result<Wish, WrongWord>
    ensures { result ≡ command_wish form.now words.old }
{
    if is(form, b"kill") {
        return kill_wish(words);
    }
    if is(form, b"lift") {
        return lift_wish(words);
    }
    if is(form, b"limit") {
        return limit_wish(words);
    }
    if is(form, b"restrict") {
        let (rule, stock) = stock_wish(words)?;
        return Ok(Wish::Ask(Action::Restrict(rule, stock)));
    }
    if is(form, b"unrestrict") {
        let (rule, stock) = stock_wish(words)?;
        return Ok(Wish::Ask(Action::Unrestrict(rule, stock)));
    }
    if is(form, b"grant") {
        let (reader, account) = reader_wish(words)?;
        return Ok(Wish::Ask(Action::Grant(reader, account)));
    }
    if is(form, b"revoke") {
        let (reader, account) = reader_wish(words)?;
        return Ok(Wish::Ask(Action::Revoke(reader, account)));
    }
    if is(form, b"close") {
        return close_wish(words);
    }
    Err(WrongWord {
        word: words.taken(),
        wanted: ExpectedInput::Form,
    })
}

fn lifetime(word: &[u8]) -> Option<Lifetime>
    ensures { result ≡ lifetime_of word.now }
{
    if is(word, b"day") {
        return Some(Lifetime::Day);
    }
    if is(word, b"ioc") {
        return Some(Lifetime::ImmediateOrCancel);
    }
    None
}

/// The lifetime of an order: a day, where no word is left.
fn take_lifetime(words: &mut LineWords) -> Result<Lifetime, WrongWord>
    ensures { Reads (next_or Day places.Lifetime lifetime_of words.old) words.new result }
{
    match words.next() {
        None => Ok(Lifetime::Day),
        Some(word) => standing(words, lifetime(word), ExpectedInput::Lifetime),
    }
}

#[tactic(auto, unfolding(crate::specs::Wishes::enter_wish))]
fn enter_wish(side: Side, words: &mut LineWords) -> Result<Wish, WrongWord>
    ensures { result ≡ enter_wish side words.old }
{
    let shares = take_number32(words, ExpectedInput::Shares)?;
    let stock = take_name(words, ExpectedInput::Stock)?;
    let price = take_price(words)?;
    let lifetime = take_lifetime(words)?;
    let order = NewOrder {
        side,
        shares,
        stock: Symbol { bytes: stock },
        price,
        lifetime,
    };
    ended(words, Wish::Enter(order))
}

#[tactic(auto, unfolding(crate::specs::Wishes::replace_wish))]
fn replace_wish(words: &mut LineWords) -> Result<Wish, WrongWord>
    ensures { result ≡ replace_wish words.old }
{
    let token = take_name(words, ExpectedInput::Token)?;
    let shares = take_number32(words, ExpectedInput::Shares)?;
    let price = take_price(words)?;
    let lifetime = take_lifetime(words)?;
    let terms = NewTerms {
        token: Token { bytes: token },
        shares,
        price,
        lifetime,
    };
    ended(words, Wish::Replace(terms))
}

/// The new size of an order that is canceled: 0, where no word is left.
fn take_size(words: &mut LineWords) -> Result<u32, WrongWord>
    ensures { Reads (next_or 0 places.Shares (number_of_bits 32) words.old) words.new result }
{
    match words.next() {
        None => Ok(0),
        Some(word) => standing(words, number32(word), ExpectedInput::Shares),
    }
}

#[tactic(auto, unfolding(crate::specs::Wishes::cancel_wish))]
fn cancel_wish(words: &mut LineWords) -> Result<Wish, WrongWord>
    ensures { result ≡ cancel_wish words.old }
{
    let bytes = take_name(words, ExpectedInput::Token)?;
    let shares = take_size(words)?;
    let cancel = CancelOrder {
        token: Token { bytes },
        shares,
    };
    ended(words, Wish::Cancel(cancel))
}

/// What a trader asks for, or else the command that the word names.
#[tactic(auto, unfolding(crate::specs::Wishes::order_form))]
fn order_form(form: &[u8], words: &mut LineWords) -> Result<Wish, WrongWord>
    ensures { result ≡ order_form form.now words.old }
{
    if is(form, b"buy") {
        return enter_wish(Side::Buy, words);
    }
    if is(form, b"sell") {
        return enter_wish(Side::Sell, words);
    }
    if is(form, b"replace") {
        return replace_wish(words);
    }
    if is(form, b"cancel") {
        return cancel_wish(words);
    }
    command_wish(form, words)
}

/// What the word names, of the words behind it.
#[tactic(auto, unfolding(crate::specs::Wishes::wish_form))]
fn wish_form(form: &[u8], words: &mut LineWords) -> Result<Wish, WrongWord>
    ensures { result ≡ wish_form form.now words.old }
{
    if is(form, b"watch") {
        return ended(words, Wish::Watch);
    }
    if is(form, b"help") {
        return ended(words, Wish::Help);
    }
    if is(form, b"quit") {
        return ended(words, Wish::Quit);
    }
    order_form(form, words)
}

fn is_comment(word: &[u8]) -> bool
    ensures { result ≡ is_comment word.now }
{
    matches!(word, [b'#', ..])
}

/// The line without the CR that may stand at its end.
pub(crate) fn without_cr(line: &[u8]) -> &[u8]
    ensures { result.now ≡ without_cr line.now }
{
    match line {
        [front @ .., b'\r'] => front,
        _ => line,
    }
}

impl Wish {
    /// What a line asks for: its bytes without the LF, a CR at their end being no part of it. Its words are separated by
    /// spaces, one or more.
    ///
    /// # Errors
    ///
    /// Which word is wrong, and what was wanted there.
    #[tactic(auto, unfolding(crate::specs::Wishes::wish_of))]
    pub fn read(line: &[u8]) -> Result<Wish, WrongWord>
        ensures { result ≡ wish_of line.now }
    {
        let mut words = LineWords::new(without_cr(line));
        let Some(form) = words.next() else {
            return Ok(Wish::Nothing);
        };
        if is_comment(form) {
            return Ok(Wish::Nothing);
        }
        wish_form(form, &mut words)
    }
}
