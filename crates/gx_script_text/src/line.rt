//! Lines of a script.

ghost use Rattle.std.specs.{Prelude.{Some, None, codes, ◌≡◌, ◌≢◌, ◌≤◌, ◌∷◌, [], length, bytes_eq, ◌&&◌, IsTrue, IfOk, OnOk, IfSome, MatchResult, option_map}, Result.result_ok};
ghost use Rattle.gx_history.specs.{Payloads.request_of, Showing.has_its_first};
ghost use Rattle.gx_script_text.specs.{Words.{Puts, Takes, first, words_of, padded_name, user_of, number_of_bits, byte_of, bytes_of}, ScriptLines.{login_form, enter_form, replace_form, cancel_form, account_form, limit_form, stock_form, reader_form, close_form, command_form, raw_form, step_form, user_line, last_line, timed_line, stream_line, line_of_words, without_cr, is_too_long, is_skipped, script_line, IsAskable, IsAskableLine}};

use crate::words::Words;
use crate::wrong::{ExpectedWord, Wrong};
use gx_desk::{Action, Command, Tag, WrittenName};
use gx_history::record::Request;
use gx_ouch::{CancelOrder, EnterOrder, ReplaceOrder};
use gx_units::{AccountName, Firm, Password, RuleId, Symbol, Token, UserName};

/// `match`, in the field of a user's name.
const MATCH: UserName = UserName { bytes: *b"match " };

/// `settle`, in the field of a user's name.
const SETTLE: UserName = UserName { bytes: *b"settle" };

/// What a line of a script asks for in a user's name.
#[derive(Clone, Copy, PartialEq, Eq)]
pub enum ScriptStep {
    /// `login PASSWORD NUMBER`: to the blank session, the first report wanted, 0 for the last one.
    Login(Password, u64),
    /// `logout`.
    Logout,
    /// `enter TOKEN SIDE SHARES STOCK PRICE TIF`.
    Enter(EnterOrder),
    /// `replace OLD NEW SHARES PRICE TIF`: the shares are those of the whole chain, what is executed of it included.
    Replace(ReplaceOrder),
    /// `cancel TOKEN SHARES`: the shares are the new size of the order, what is executed of it included.
    Cancel(CancelOrder),
    /// `kill TAG ACCOUNT`, `lift TAG ACCOUNT`, `limit TAG RULE VALUE`, `restrict TAG RULE STOCK`,
    /// `unrestrict TAG RULE STOCK`, `grant TAG READER ACCOUNT`, `revoke TAG READER ACCOUNT` and `close TAG`: a command
    /// of an officer, the reader as he is written.
    Command(Command),
    /// `raw HEX`: what the bytes ask for as the payload of Unsequenced Data.
    Raw(Request),
}

/// What a line of a script says.
#[derive(Clone, Copy, PartialEq, Eq)]
pub enum ScriptLine {
    /// An empty line, or a comment.
    Skipped,
    /// `M USER ..`: a step at a moment, by a user, whose name is in upper case.
    Step(u64, UserName, ScriptStep),
    /// `M match`: one matching step at a moment.
    Match(u64),
    /// `M settle`: matching steps at a moment until no order waits.
    Settle(u64),
    /// `stream USER`: the reports that the user is owed.
    Stream(UserName),
}

/// The value, or that the last word taken is wrong.
#[inline(always)]
fn wanted<T: Drop>(words: &Words, found: Option<T>, wanted: ExpectedWord) -> Result<T, Wrong>
    ensures { result_ok result ≡ found }
{
    found.ok_or(Wrong::new(words.taken(), wanted))
}

#[inline(always)]
fn take_word<'a>(words: &mut Words<'a>, wants: ExpectedWord) -> Result<&'a [u8], Wrong>
    ensures first { MatchResult result (λ word. words.old ≡ word.now ∷ words.new)
        (λ _. words.old ≡ []) }
    ensures short { IfOk result (λ word. length word.now ≤ 1024) }
{
    let word = words.next();
    wanted(words, word, wants)
}

/// Takes a name, filled up with spaces, into the field.
#[inline(always)]
fn fill_name<const N: usize>(
    words: &mut Words,
    field: &mut [u8; N],
    wants: ExpectedWord,
) -> Result<(), Wrong>
    ensures { Puts (first (padded_name N) words.old) (field.new, words.new) result }
{
    if words.name(field) {
        return Ok(());
    }
    Err(Wrong::new(words.taken(), wants))
}

fn take_name<const N: usize>(words: &mut Words, wants: ExpectedWord) -> Result<[u8; N], Wrong>
    ensures { Takes (padded_name N) words.old words.new result }
{
    let mut field = [b' '; N];
    fill_name(words, &mut field, wants)?;
    Ok(field)
}

/// The name of a user, as it is written.
#[inline(always)]
fn take_written(words: &mut Words) -> Result<UserName, Wrong>
    ensures { MatchResult result
        (λ name. first (padded_name 6) words.old ≡ Some (name.bytes, words.new))
        (λ _. first (padded_name 6) words.old ≡ None) }
{
    let mut name = UserName { bytes: [b' '; 6] };
    fill_name(words, &mut name.bytes, ExpectedWord::User)?;
    Ok(name)
}

fn take_user(words: &mut Words) -> Result<UserName, Wrong>
    ensures { Takes user_of words.old words.new result }
{
    let name = take_written(words)?;
    Ok(name.folded())
}

fn take_number64(words: &mut Words, wants: ExpectedWord) -> Result<u64, Wrong>
    ensures { Takes (number_of_bits 64) words.old words.new result }
{
    let found = words.number64();
    wanted(words, found, wants)
}

#[inline(always)]
fn take_number32(words: &mut Words, wants: ExpectedWord) -> Result<u32, Wrong>
    ensures { Takes (number_of_bits 32) words.old words.new result }
{
    let found = words.number32();
    wanted(words, found, wants)
}

#[inline(always)]
fn take_byte(words: &mut Words, wants: ExpectedWord) -> Result<u8, Wrong>
    ensures { Takes byte_of words.old words.new result }
{
    let found = words.byte();
    wanted(words, found, wants)
}

/// That no word is left.
#[inline(always)]
fn end(words: &Words) -> Result<(), Wrong>
    ensures { MatchResult result (λ _. words.now ≡ []) (λ _. words.now ≢ []) }
{
    if words.is_done() {
        return Ok(());
    }
    Err(Wrong::new(words.taken().wrapping_add(1), ExpectedWord::End))
}

#[tactic(auto, unfolding(crate::specs::ScriptLines::login_form))]
fn login_form(mut words: Words, step: &mut ScriptStep) -> Result<(), Wrong>
    ensures meaning { Puts (login_form words.entry) step.new result }
    ensures askable { OnOk result (IsAskable step.new) }
{
    let bytes = take_name(&mut words, ExpectedWord::Password)?;
    let wanted = take_number64(&mut words, ExpectedWord::Number)?;
    end(&words)?;
    *step = ScriptStep::Login(Password { bytes }, wanted);
    Ok(())
}

#[tactic(auto, unfolding(crate::specs::ScriptLines::enter_form))]
fn enter_form(mut words: Words, step: &mut ScriptStep) -> Result<(), Wrong>
    ensures meaning { Puts (enter_form words.entry) step.new result }
    ensures askable { OnOk result (IsAskable step.new) }
{
    let mut token = [b' '; 14];
    let mut stock = [b' '; 8];
    fill_name(&mut words, &mut token, ExpectedWord::Token)?;
    let side = take_byte(&mut words, ExpectedWord::Side)?;
    let shares = take_number32(&mut words, ExpectedWord::Shares)?;
    fill_name(&mut words, &mut stock, ExpectedWord::Stock)?;
    let price = take_number32(&mut words, ExpectedWord::Price)?;
    let time_in_force = take_number32(&mut words, ExpectedWord::TimeInForce)?;
    end(&words)?;
    *step = ScriptStep::Enter(EnterOrder {
        token: Token { bytes: token },
        side,
        shares,
        stock: Symbol { bytes: stock },
        price,
        time_in_force,
        firm: Firm { bytes: *b"    " },
        display: b'Y',
        capacity: b'A',
        intermarket_sweep: b'N',
        minimum_quantity: 0,
        cross_type: b'N',
        customer_type: b'N',
    });
    Ok(())
}

#[tactic(auto, unfolding(crate::specs::ScriptLines::replace_form))]
fn replace_form(mut words: Words, step: &mut ScriptStep) -> Result<(), Wrong>
    ensures meaning { Puts (replace_form words.entry) step.new result }
    ensures askable { OnOk result (IsAskable step.new) }
{
    let mut old = [b' '; 14];
    let mut new = [b' '; 14];
    fill_name(&mut words, &mut old, ExpectedWord::Token)?;
    fill_name(&mut words, &mut new, ExpectedWord::Token)?;
    let shares = take_number32(&mut words, ExpectedWord::Shares)?;
    let price = take_number32(&mut words, ExpectedWord::Price)?;
    let time_in_force = take_number32(&mut words, ExpectedWord::TimeInForce)?;
    end(&words)?;
    *step = ScriptStep::Replace(ReplaceOrder {
        existing_token: Token { bytes: old },
        replacement_token: Token { bytes: new },
        shares,
        price,
        time_in_force,
        display: b'Y',
        intermarket_sweep: b'N',
        minimum_quantity: 0,
    });
    Ok(())
}

#[tactic(auto, unfolding(crate::specs::ScriptLines::cancel_form))]
fn cancel_form(mut words: Words, step: &mut ScriptStep) -> Result<(), Wrong>
    ensures meaning { Puts (cancel_form words.entry) step.new result }
    ensures askable { OnOk result (IsAskable step.new) }
{
    let mut token = [b' '; 14];
    fill_name(&mut words, &mut token, ExpectedWord::Token)?;
    let shares = take_number32(&mut words, ExpectedWord::Shares)?;
    end(&words)?;
    *step = ScriptStep::Cancel(CancelOrder {
        token: Token { bytes: token },
        shares,
    });
    Ok(())
}

/// The tag and the account of a command.
#[tactic(auto, unfolding(crate::specs::ScriptLines::account_form))]
fn account_form(words: &mut Words) -> Result<(Tag, AccountName), Wrong>
    ensures { result_ok result ≡ account_form words.old }
{
    let tag = take_name(words, ExpectedWord::Tag)?;
    let account = take_name(words, ExpectedWord::Account)?;
    end(words)?;
    Ok((Tag { bytes: tag }, AccountName { bytes: account }))
}

/// The tag, the rule and the limit of a command.
#[tactic(auto, unfolding(crate::specs::ScriptLines::limit_form))]
fn limit_form(words: &mut Words) -> Result<(Tag, (RuleId, u64)), Wrong>
    ensures { result_ok result ≡ limit_form words.old }
{
    let tag = take_name(words, ExpectedWord::Tag)?;
    let rule = take_name(words, ExpectedWord::Rule)?;
    let limit = take_number64(words, ExpectedWord::Value)?;
    end(words)?;
    Ok((Tag { bytes: tag }, (RuleId { bytes: rule }, limit)))
}

/// The tag, the rule and the stock of a command.
#[tactic(auto, unfolding(crate::specs::ScriptLines::stock_form))]
fn stock_form(words: &mut Words) -> Result<(Tag, (RuleId, Symbol)), Wrong>
    ensures { result_ok result ≡ stock_form words.old }
{
    let tag = take_name(words, ExpectedWord::Tag)?;
    let rule = take_name(words, ExpectedWord::Rule)?;
    let stock = take_name(words, ExpectedWord::Stock)?;
    end(words)?;
    let named = (RuleId { bytes: rule }, Symbol { bytes: stock });
    Ok((Tag { bytes: tag }, named))
}

/// The tag, the reader and the account of a command.
#[tactic(auto, unfolding(crate::specs::ScriptLines::reader_form))]
fn reader_form(words: &mut Words) -> Result<(Tag, (WrittenName, AccountName)), Wrong>
    ensures { result_ok result ≡ reader_form words.old }
{
    let tag = take_name(words, ExpectedWord::Tag)?;
    let reader = take_name(words, ExpectedWord::Reader)?;
    let account = take_name(words, ExpectedWord::Account)?;
    end(words)?;
    let named = (
        WrittenName { bytes: reader },
        AccountName { bytes: account },
    );
    Ok((Tag { bytes: tag }, named))
}

#[tactic(auto, unfolding(crate::specs::ScriptLines::close_form))]
fn close_form(words: &mut Words) -> Result<Command, Wrong>
    ensures { result_ok result ≡ close_form words.old }
{
    let bytes = take_name(words, ExpectedWord::Tag)?;
    end(words)?;
    Ok(command(Tag { bytes }, Action::CloseDay))
}

fn command(tag: Tag, action: Action) -> Command
    ensures { result ≡ record { tag = tag; action = action } }
{
    Command { tag, action }
}

/// The command that the word names, of the words behind it.
#[tactic(auto, unfolding(crate::specs::ScriptLines::command_form))]
fn command_form(form: &[u8], mut words: Words) -> Result<Command, Wrong>
    ensures { result_ok result ≡ command_form form.now words.entry }
{
    if is(form, b"kill") {
        let (tag, account) = account_form(&mut words)?;
        return Ok(command(tag, Action::Kill(account)));
    }
    if is(form, b"lift") {
        let (tag, account) = account_form(&mut words)?;
        return Ok(command(tag, Action::Lift(account)));
    }
    if is(form, b"limit") {
        let (tag, (rule, limit)) = limit_form(&mut words)?;
        return Ok(command(tag, Action::SetLimit(rule, limit)));
    }
    if is(form, b"restrict") {
        let (tag, (rule, stock)) = stock_form(&mut words)?;
        return Ok(command(tag, Action::Restrict(rule, stock)));
    }
    if is(form, b"unrestrict") {
        let (tag, (rule, stock)) = stock_form(&mut words)?;
        return Ok(command(tag, Action::Unrestrict(rule, stock)));
    }
    if is(form, b"grant") {
        let (tag, (reader, account)) = reader_form(&mut words)?;
        return Ok(command(tag, Action::Grant(reader, account)));
    }
    if is(form, b"revoke") {
        let (tag, (reader, account)) = reader_form(&mut words)?;
        return Ok(command(tag, Action::Revoke(reader, account)));
    }
    if is(form, b"close") {
        return close_form(&mut words);
    }
    wanted(&words, None, ExpectedWord::Form)
}

/// What the bytes that hex digits spell ask for.
fn request_of_hex(word: &[u8]) -> Option<Request>
    requires { length word.now ≤ 1024 }
    ensures meaning { result ≡ option_map request_of (bytes_of word.now) }
    ensures shown { IfSome result (λ request. IsTrue (has_its_first request)) }
{
    if word.is_empty() {
        return None;
    }
    let mut room = [0u8; 512];
    let payload = &mut room[..word.len() / 2];
    match hex::decode_to_slice(word, payload) {
        Ok(()) => Some(Request::read(payload)),
        Err(_) => None,
    }
}

#[tactic(auto, unfolding(crate::specs::ScriptLines::raw_form))]
fn raw_form(mut words: Words, step: &mut ScriptStep) -> Result<(), Wrong>
    ensures meaning { Puts (raw_form words.entry) step.new result }
    ensures askable { OnOk result (IsAskable step.new) }
{
    let word = take_word(&mut words, ExpectedWord::Hex)?;
    let request = wanted(&words, request_of_hex(word), ExpectedWord::Hex)?;
    end(&words)?;
    *step = ScriptStep::Raw(request);
    Ok(())
}

#[inline(always)]
fn is(word: &[u8], name: &[u8]) -> bool
    ensures { result ≡ bytes_eq word.now name.now }
{
    word.len() == name.len() && word == name
}

/// Whether the word is `enter`.
#[inline(always)]
fn is_enter(word: &[u8]) -> bool
    ensures { result ≡ bytes_eq word.now (codes "enter") }
{
    matches!(word, [b'e', b'n', b't', b'e', b'r'])
}

/// The form that the word names, of the words behind it: a command's, where no other has this name.
#[tactic(auto, unfolding(crate::specs::ScriptLines::step_form))]
#[inline(always)]
fn step_form(form: &[u8], words: Words, step: &mut ScriptStep) -> Result<(), Wrong>
    ensures meaning { Puts (step_form form.now words.entry) step.new result }
    ensures askable { OnOk result (IsAskable step.new) }
{
    if is(form, b"login") {
        return login_form(words, step);
    }
    if is(form, b"logout") {
        end(&words)?;
        *step = ScriptStep::Logout;
        return Ok(());
    }
    if is_enter(form) {
        return enter_form(words, step);
    }
    if is(form, b"replace") {
        return replace_form(words, step);
    }
    if is(form, b"cancel") {
        return cancel_form(words, step);
    }
    if is(form, b"raw") {
        return raw_form(words, step);
    }
    *step = ScriptStep::Command(command_form(form, words)?);
    Ok(())
}

/// What the user asks for at the moment, by the words behind the name.
#[tactic(auto, unfolding(crate::specs::ScriptLines::user_line))]
#[inline(always)]
fn user_line(
    moment: u64,
    user: UserName,
    mut words: Words,
    said: &mut ScriptLine,
) -> Result<(), Wrong>
    ensures meaning { Puts (user_line moment user words.entry) said.new result }
    ensures askable { OnOk result (IsAskableLine said.new) }
{
    let Some(form) = words.next() else {
        return Err(Wrong::new(words.taken(), ExpectedWord::Form));
    };
    let mut step = ScriptStep::Logout;
    step_form(form, words, &mut step)?;
    *said = ScriptLine::Step(moment, user, step);
    Ok(())
}

/// `match` or `settle`, the last word of a line.
#[tactic(auto, unfolding(crate::specs::ScriptLines::last_line))]
fn last_line(moment: u64, name: UserName, words: &Words, said: &mut ScriptLine) -> Result<(), Wrong>
    ensures meaning { Puts (last_line moment name.bytes) said.new result }
    ensures askable { OnOk result (IsAskableLine said.new) }
{
    if name == MATCH {
        *said = ScriptLine::Match(moment);
        return Ok(());
    }
    if name == SETTLE {
        *said = ScriptLine::Settle(moment);
        return Ok(());
    }
    Err(Wrong::new(words.taken().wrapping_add(1), ExpectedWord::Form))
}

/// What is to be done at the moment, by the words behind it.
#[tactic(auto, using(crate::proofs::TimedLines_words::asked_so, crate::proofs::TimedLines_words::last_so, crate::proofs::TimedLines_words::unnamed))]
#[inline(always)]
fn timed_line(moment: u64, mut words: Words, said: &mut ScriptLine) -> Result<(), Wrong>
    ensures meaning { Puts (timed_line moment words.entry) said.new result }
    ensures askable { OnOk result (IsAskableLine said.new) }
{
    let name = take_written(&mut words)?;
    if words.is_done() {
        return last_line(moment, name, &words, said);
    }
    user_line(moment, name.folded(), words, said)
}

#[tactic(auto, unfolding(crate::specs::ScriptLines::stream_line))]
fn stream_line(words: &mut Words, said: &mut ScriptLine) -> Result<(), Wrong>
    ensures meaning { Puts (stream_line words.old) said.new result }
    ensures askable { OnOk result (IsAskableLine said.new) }
{
    let user = take_user(words)?;
    end(words)?;
    *said = ScriptLine::Stream(user);
    Ok(())
}

/// A line that begins with no moment.
#[tactic(auto, unfolding(crate::specs::ScriptLines::line_of_words, crate::specs::ScriptLines::step_line))]
fn other_line(line: &[u8], said: &mut ScriptLine) -> Result<(), Wrong>
    requires short { length line.now ≤ 1024 }
    requires other { first (number_of_bits 64) (words_of line.now) ≡ None }
    ensures meaning { Puts (line_of_words (words_of line.now)) said.new result }
    ensures askable { OnOk result (IsAskableLine said.new) }
{
    let mut words = Words::new(line);
    let word = take_word(&mut words, ExpectedWord::Moment)?;
    if is(word, b"stream") {
        return stream_line(&mut words, said);
    }
    Err(Wrong::new(words.taken(), ExpectedWord::Moment))
}

/// What a line of at most 1,024 bytes says, by its words.
#[tactic(auto, using(crate::proofs::TimedLines_words::timed))]
#[inline(always)]
fn line_of_words(line: &[u8], said: &mut ScriptLine) -> Result<(), Wrong>
    requires { length line.now ≤ 1024 }
    ensures meaning { Puts (line_of_words (words_of line.now)) said.new result }
    ensures askable { OnOk result (IsAskableLine said.new) }
{
    let mut words = Words::new(line);
    match words.number64() {
        Some(moment) => timed_line(moment, words, said),
        None => other_line(line, said),
    }
}

/// The line without the CR that may stand at its end.
fn without_cr(line: &[u8]) -> &[u8]
    ensures { result.now ≡ without_cr line.now }
{
    match line {
        [front @ .., b'\r'] => front,
        _ => line,
    }
}

/// Whether a line has more bytes than it may have: they stay too many, whatever follows them.
pub fn is_too_long(line: &[u8]) -> bool
    ensures { result ≡ is_too_long line.now }
{
    without_cr(line).len() > 1024
}

fn is_skipped(line: &[u8]) -> bool
    ensures { result ≡ is_skipped line.now }
{
    matches!(line, [] | [b'#', ..])
}

impl ScriptLine {
    /// What a line says: its bytes without the LF.
    ///
    /// # Errors
    ///
    /// Which word is wrong, and what was wanted there.
    pub fn read(line: &[u8]) -> Result<ScriptLine, Wrong>
        ensures meaning { result_ok result ≡ script_line line.now }
        ensures askable { IfOk result IsAskableLine }
    {
        let mut said = ScriptLine::Skipped;
        said.read_from(line)?;
        Ok(said)
    }

    /// The same, put in the place of what was said before.
    ///
    /// # Errors
    ///
    /// Which word is wrong, and what was wanted there.
    #[tactic(auto, unfolding(crate::specs::ScriptLines::script_line))]
    pub fn read_from(&mut self, line: &[u8]) -> Result<(), Wrong>
        ensures meaning { Puts (script_line line.now) self.new result }
        ensures askable { OnOk result (IsAskableLine self.new) }
    {
        if is_too_long(line) {
            return Err(Wrong::new(1, ExpectedWord::Shorter));
        }
        let line = without_cr(line);
        if is_skipped(line) {
            *self = ScriptLine::Skipped;
            return Ok(());
        }
        match line_of_words(line, self) {
            Ok(()) => Ok(()),
            Err(wrong) => Err(wrong.seen_in(line)),
        }
    }
}
