//! What traders and readers are told, as lines.

ghost use Rattle.std.specs.Prelude.{◌≡◌, ◌++◌, IfOk, OnOk, decimal, option_map};
ghost use Rattle.gx_text.specs.{Shown.shown_name, declared.form.Form.TheVariants.{Text, Json}};
ghost use Rattle.gx_script_text.specs.Printing.{line_end};
ghost use Rattle.gx_ouch.specs.declared.outbound.Outbound.TheVariants as messages;
ghost use Rattle.gx_lines.specs.OrderLines.{side_words, side_text, side_field, liquidity_word, cancel_words, reject_words, shares_text, terms_text, match_text, told_text, time_text, terms_fields, executed_fields, event_word, told_fields, order_line, copy_text, copy_fields, copy_line};

use crate::json::{
    append_front, append_name_field, append_number_field, append_price_field, append_text_field,
};
use crate::showing::{LINE_ROOM, append_price};
use gx_desk::DropCopy;
use gx_ouch::{
    Accepted, CancelReason, Canceled, Executed, Liquidity, OrderTerms, Outbound, RejectReason,
    Rejected, Replaced,
};
use gx_text::{Decimals, Form, append, append_moment, append_name, append_number, append_shown};
use gx_units::{Moment, OutOfMemory};
use std::alloc::Global;

/// The side of an order in words, by its Buy/Sell Indicator; `None` where there is no such side.
#[tactic(auto, unfolding(crate::specs::OrderLines::side_words))]
fn side_words(side: u8) -> Option<&'static [u8]>
    ensures { option_map (λ words. words.now) result ≡ side_words side }
{
    match side {
        b'B' => Some(b"buy"),
        b'S' => Some(b"sell"),
        b'T' => Some(b"sell short"),
        b'E' => Some(b"sell short exempt"),
        _ => None,
    }
}

/// Puts the side of an order at the end of the text.
fn append_side(text: &mut Vec<u8>, side: u8) -> Result<(), OutOfMemory>
    ensures { OnOk result (text.new.items ≡ text.old.items ++ side_text side) }
{
    match side_words(side) {
        Some(words) => append(text, words),
        None => {
            append(text, b"side ")?;
            append_shown(text, &[side])
        }
    }
}

#[tactic(auto, unfolding(crate::specs::OrderLines::liquidity_word))]
fn liquidity_word(liquidity: Liquidity) -> &'static [u8]
    ensures { result.now ≡ liquidity_word liquidity }
{
    match liquidity {
        Liquidity::Added => b"added",
        Liquidity::Removed => b"removed",
    }
}

#[tactic(auto, unfolding(crate::specs::OrderLines::cancel_words))]
fn cancel_words(reason: CancelReason) -> &'static [u8]
    ensures { result.now ≡ cancel_words reason }
{
    match reason {
        CancelReason::UserRequested => b"requested",
        CancelReason::ImmediateOrCancel => b"immediate or cancel",
        CancelReason::Supervisory => b"supervisory",
    }
}

#[tactic(auto, unfolding(crate::specs::OrderLines::reject_words))]
fn reject_words(reason: RejectReason) -> &'static [u8]
    ensures { result.now ≡ reject_words reason }
{
    match reason {
        RejectReason::Closed => b"the day is closed",
        RejectReason::RejectAll => b"all orders of the account are rejected",
        RejectReason::FirmNotAuthorized => b"the firm is not the account's",
        RejectReason::InvalidStock => b"the stock is not listed",
        RejectReason::SharesExceedSafety => b"no shares, or more than is safe",
        RejectReason::InvalidPrice => b"no order may have this price, or it is off its collar",
        RejectReason::InvalidDisplay => b"there is no such display",
        RejectReason::InvalidMinimumQuantity => b"a minimum quantity is not taken",
        RejectReason::NotAllowedInCross => b"crosses are not taken",
        RejectReason::Other => b"another reason",
        RejectReason::Halted => b"the stock is halted",
        RejectReason::RestrictedStock => b"the stock is restricted",
        RejectReason::ShortSale => b"short sales are not taken",
        RejectReason::IntermarketSweep => b"intermarket sweeps are not taken",
        RejectReason::OddLot => b"odd lots are not taken",
        RejectReason::SharesLimit => b"more shares than the limit",
        RejectReason::DollarLimit => b"more dollars than the limit",
    }
}

/// Puts so many shares, and their price, at the end of the text.
#[tactic(auto, unfolding(crate::specs::OrderLines::shares_text))]
fn append_shares(text: &mut Vec<u8>, shares: u32, price: u32) -> Result<(), OutOfMemory>
    ensures { OnOk result (text.new.items ≡ text.old.items ++ shares_text shares price) }
{
    append_number(text, u64::from(shares))?;
    append(text, b" at ")?;
    append_price(text, price)
}

/// Puts words, and a number behind them, at the end of the text.
fn append_numbered(text: &mut Vec<u8>, front: &[u8], number: u64) -> Result<(), OutOfMemory>
    ensures { OnOk result (text.new.items ≡ text.old.items ++ (front.now ++ decimal number)) }
{
    append(text, front)?;
    append_number(text, number)
}

/// Puts a name, and words behind it, at the end of the text.
fn append_subject(text: &mut Vec<u8>, name: &[u8], behind: &[u8]) -> Result<(), OutOfMemory>
    ensures { OnOk result (text.new.items
        ≡ text.old.items ++ (shown_name name.now ++ behind.now)) }
{
    append_name(text, name)?;
    append(text, behind)
}

/// Puts what an order asks for, and its number, at the end of the text.
#[tactic(auto, unfolding(crate::specs::OrderLines::terms_text))]
fn append_terms(text: &mut Vec<u8>, terms: &OrderTerms, number: u64) -> Result<(), OutOfMemory>
    ensures { OnOk result (text.new.items ≡ text.old.items ++ terms_text terms.now number) }
{
    append_side(text, terms.side)?;
    append_numbered(text, b" ", u64::from(terms.shares))?;
    append(text, b" ")?;
    append_subject(text, &terms.stock.bytes, b" at ")?;
    append_price(text, terms.price)?;
    append_numbered(text, b", order ", number)
}

/// Puts the number of a fill, and what its order did, at the end of the text.
#[tactic(auto, unfolding(crate::specs::OrderLines::match_text))]
fn append_match(text: &mut Vec<u8>, message: &Executed) -> Result<(), OutOfMemory>
    ensures { OnOk result (text.new.items ≡ text.old.items ++ match_text message.now) }
{
    append_numbered(text, b", match ", message.match_number)?;
    append(text, b", ")?;
    append(text, liquidity_word(message.liquidity))?;
    append(text, b" liquidity")
}

#[tactic(auto, unfolding(crate::specs::OrderLines::told_text))]
fn append_replaced(text: &mut Vec<u8>, message: &Replaced) -> Result<(), OutOfMemory>
    ensures { OnOk result (text.new.items
        ≡ text.old.items ++ told_text (messages.Replaced message.now)) }
{
    append_subject(text, &message.token.bytes, b" replaces ")?;
    append_subject(text, &message.previous_token.bytes, b": ")?;
    append_terms(text, &message.terms, message.order_reference)
}

#[tactic(auto, unfolding(crate::specs::OrderLines::told_text))]
fn append_canceled(text: &mut Vec<u8>, message: &Canceled) -> Result<(), OutOfMemory>
    ensures { OnOk result (text.new.items
        ≡ text.old.items ++ told_text (messages.Canceled message.now)) }
{
    append_subject(text, &message.token.bytes, b" canceled: ")?;
    append_number(text, u64::from(message.decrement))?;
    append(text, b", ")?;
    append(text, cancel_words(message.reason))
}

#[tactic(auto, unfolding(crate::specs::OrderLines::told_text))]
fn append_executed(text: &mut Vec<u8>, message: &Executed) -> Result<(), OutOfMemory>
    ensures { OnOk result (text.new.items
        ≡ text.old.items ++ told_text (messages.Executed message.now)) }
{
    append_subject(text, &message.token.bytes, b" executed: ")?;
    append_shares(text, message.shares, message.price)?;
    append_match(text, message)
}

#[tactic(auto, unfolding(crate::specs::OrderLines::told_text))]
fn append_rejected(text: &mut Vec<u8>, message: &Rejected) -> Result<(), OutOfMemory>
    ensures { OnOk result (text.new.items
        ≡ text.old.items ++ told_text (messages.Rejected message.now)) }
{
    append_subject(text, &message.token.bytes, b" rejected: ")?;
    append(text, &[message.reason.letter()])?;
    append(text, b", ")?;
    append(text, reject_words(message.reason))
}

/// Puts what a trader is told at the end of the text.
#[tactic(auto, unfolding(crate::specs::OrderLines::told_text))]
fn append_told(text: &mut Vec<u8>, message: &Outbound) -> Result<(), OutOfMemory>
    ensures { OnOk result (text.new.items ≡ text.old.items ++ told_text message.now) }
{
    match message {
        Outbound::SystemEvent(_) => append(text, b"the day ends"),
        Outbound::Accepted(message) => {
            append_subject(text, &message.token.bytes, b" accepted: ")?;
            append_terms(text, &message.terms, message.order_reference)
        }
        Outbound::Replaced(message) => append_replaced(text, message),
        Outbound::Canceled(message) => append_canceled(text, message),
        Outbound::Executed(message) => append_executed(text, message),
        Outbound::Rejected(message) => append_rejected(text, message),
    }
}

/// Puts when it was at the end of the text, and ends the line.
fn append_time(text: &mut Vec<u8>, moment: Moment) -> Result<(), OutOfMemory>
    ensures { OnOk result (text.new.items ≡ text.old.items ++ (time_text moment ++ line_end)) }
{
    append(text, b", at ")?;
    append_moment(text, moment, Decimals::Nine)?;
    append(text, b"\n")
}

/// Puts the side of an order at the end of a JSON line.
fn append_side_field(line: &mut Vec<u8>, side: u8) -> Result<(), OutOfMemory>
    ensures { OnOk result (line.new.items ≡ line.old.items ++ side_field side) }
{
    match side_words(side) {
        Some(words) => append_text_field(line, b"side", words),
        None => {
            let mut words = *b"side ?";
            words[5] = side;
            append_text_field(line, b"side", &words)
        }
    }
}

/// Puts the terms of an order, and its number, at the end of a JSON line.
#[tactic(auto, unfolding(crate::specs::OrderLines::terms_fields))]
fn append_terms_fields(
    line: &mut Vec<u8>,
    terms: &OrderTerms,
    number: u64,
) -> Result<(), OutOfMemory>
    ensures { OnOk result (line.new.items ≡ line.old.items ++ terms_fields terms.now number) }
{
    append_side_field(line, terms.side)?;
    append_number_field(line, b"shares", u64::from(terms.shares))?;
    append_name_field(line, b"stock", &terms.stock.bytes)?;
    append_price_field(line, b"price", terms.price)?;
    append_number_field(line, b"time_in_force", u64::from(terms.time_in_force))?;
    append_number_field(line, b"order", number)
}

/// Puts what was executed of an order at the end of a JSON line.
#[tactic(auto, unfolding(crate::specs::OrderLines::executed_fields))]
fn append_executed_fields(line: &mut Vec<u8>, message: &Executed) -> Result<(), OutOfMemory>
    ensures { OnOk result (line.new.items ≡ line.old.items ++ executed_fields message.now) }
{
    append_name_field(line, b"token", &message.token.bytes)?;
    append_number_field(line, b"shares", u64::from(message.shares))?;
    append_price_field(line, b"price", message.price)?;
    append_number_field(line, b"match", message.match_number)?;
    append_text_field(line, b"liquidity", liquidity_word(message.liquidity))
}

/// The event of a message.
#[tactic(auto, unfolding(crate::specs::OrderLines::event_word))]
fn event_word(message: &Outbound) -> &'static [u8]
    ensures { result.now ≡ event_word message.now }
{
    match message {
        Outbound::SystemEvent(_) => b"day_ends",
        Outbound::Accepted(_) => b"accepted",
        Outbound::Replaced(_) => b"replaced",
        Outbound::Canceled(_) => b"canceled",
        Outbound::Executed(_) => b"executed",
        Outbound::Rejected(_) => b"rejected",
    }
}

#[tactic(auto, unfolding(crate::specs::OrderLines::told_fields))]
fn append_accepted_fields(line: &mut Vec<u8>, message: &Accepted) -> Result<(), OutOfMemory>
    ensures { OnOk result (line.new.items
        ≡ line.old.items ++ told_fields (messages.Accepted message.now)) }
{
    append_name_field(line, b"token", &message.token.bytes)?;
    append_terms_fields(line, &message.terms, message.order_reference)
}

#[tactic(auto, unfolding(crate::specs::OrderLines::told_fields))]
fn append_replaced_fields(line: &mut Vec<u8>, message: &Replaced) -> Result<(), OutOfMemory>
    ensures { OnOk result (line.new.items
        ≡ line.old.items ++ told_fields (messages.Replaced message.now)) }
{
    append_name_field(line, b"token", &message.token.bytes)?;
    append_name_field(line, b"previous", &message.previous_token.bytes)?;
    append_terms_fields(line, &message.terms, message.order_reference)
}

#[tactic(auto, unfolding(crate::specs::OrderLines::told_fields))]
fn append_canceled_fields(line: &mut Vec<u8>, message: &Canceled) -> Result<(), OutOfMemory>
    ensures { OnOk result (line.new.items
        ≡ line.old.items ++ told_fields (messages.Canceled message.now)) }
{
    append_name_field(line, b"token", &message.token.bytes)?;
    append_number_field(line, b"shares", u64::from(message.decrement))?;
    append_text_field(line, b"reason", cancel_words(message.reason))
}

#[tactic(auto, unfolding(crate::specs::OrderLines::told_fields))]
fn append_rejected_fields(line: &mut Vec<u8>, message: &Rejected) -> Result<(), OutOfMemory>
    ensures { OnOk result (line.new.items
        ≡ line.old.items ++ told_fields (messages.Rejected message.now)) }
{
    append_name_field(line, b"token", &message.token.bytes)?;
    append_text_field(line, b"reason", &[message.reason.letter()])?;
    append_text_field(line, b"text", reject_words(message.reason))
}

/// Puts what a trader is told at the end of a JSON line.
#[tactic(auto, unfolding(crate::specs::OrderLines::told_fields))]
fn append_told_fields(line: &mut Vec<u8>, message: &Outbound) -> Result<(), OutOfMemory>
    ensures { OnOk result (line.new.items ≡ line.old.items ++ told_fields message.now) }
{
    match message {
        Outbound::SystemEvent(_) => Ok(()),
        Outbound::Accepted(message) => append_accepted_fields(line, message),
        Outbound::Replaced(message) => append_replaced_fields(line, message),
        Outbound::Canceled(message) => append_canceled_fields(line, message),
        Outbound::Executed(message) => append_executed_fields(line, message),
        Outbound::Rejected(message) => append_rejected_fields(line, message),
    }
}

fn order_text(alloc: Global, moment: Moment, message: &Outbound) -> Result<Vec<u8>, OutOfMemory>
    ensures { IfOk result (λ line. line.items ≡ order_line Text moment message.now) }
{
    let mut line = Vec::with_capacity(alloc, LINE_ROOM)?;
    append_told(&mut line, message)?;
    append_time(&mut line, moment)?;
    Ok(line)
}

#[tactic(auto, unfolding(crate::specs::Showing::json_line))]
fn order_json(alloc: Global, moment: Moment, message: &Outbound) -> Result<Vec<u8>, OutOfMemory>
    ensures { IfOk result (λ line. line.items ≡ order_line Json moment message.now) }
{
    let mut line = Vec::with_capacity(alloc, LINE_ROOM)?;
    append_front(&mut line, moment, event_word(message))?;
    append_told_fields(&mut line, message)?;
    append(&mut line, b"}\n")?;
    Ok(line)
}

/// The line of a message to a trader of this moment, with the LF at its end.
///
/// # Errors
///
/// `OutOfMemory` where memory was refused.
pub fn order_line(
    alloc: Global,
    form: Form,
    moment: Moment,
    message: &Outbound,
) -> Result<Vec<u8>, OutOfMemory>
    ensures { IfOk result (λ line. line.items ≡ order_line form moment message.now) }
{
    match form {
        Form::Text => order_text(alloc, moment, message),
        Form::Json => order_json(alloc, moment, message),
    }
}

/// Puts what a reader is told of one side of a fill at the end of the text.
#[tactic(auto, unfolding(crate::specs::OrderLines::copy_text))]
fn append_copy(text: &mut Vec<u8>, copy: &DropCopy) -> Result<(), OutOfMemory>
    ensures { OnOk result (text.new.items ≡ text.old.items ++ copy_text copy.now) }
{
    append_subject(text, &copy.account.bytes, b": ")?;
    append_side(text, copy.side)?;
    append(text, b" ")?;
    append_shares(text, copy.executed.shares, copy.executed.price)?;
    append(text, b", token ")?;
    append_name(text, &copy.executed.token.bytes)?;
    append_match(text, &copy.executed)
}

/// Puts what a reader is told of one side of a fill at the end of a JSON line.
#[tactic(auto, unfolding(crate::specs::OrderLines::copy_fields))]
fn append_copy_fields(line: &mut Vec<u8>, copy: &DropCopy) -> Result<(), OutOfMemory>
    ensures { OnOk result (line.new.items ≡ line.old.items ++ copy_fields copy.now) }
{
    append_name_field(line, b"account", &copy.account.bytes)?;
    append_side_field(line, copy.side)?;
    append_executed_fields(line, &copy.executed)
}

fn copy_text(alloc: Global, moment: Moment, copy: &DropCopy) -> Result<Vec<u8>, OutOfMemory>
    ensures { IfOk result (λ line. line.items ≡ copy_line Text moment copy.now) }
{
    let mut line = Vec::with_capacity(alloc, LINE_ROOM)?;
    append_copy(&mut line, copy)?;
    append_time(&mut line, moment)?;
    Ok(line)
}

#[tactic(auto, unfolding(crate::specs::Showing::json_line))]
fn copy_json(alloc: Global, moment: Moment, copy: &DropCopy) -> Result<Vec<u8>, OutOfMemory>
    ensures { IfOk result (λ line. line.items ≡ copy_line Json moment copy.now) }
{
    let mut line = Vec::with_capacity(alloc, LINE_ROOM)?;
    append_front(&mut line, moment, b"fill")?;
    append_copy_fields(&mut line, copy)?;
    append(&mut line, b"}\n")?;
    Ok(line)
}

/// The line of a drop copy of this moment, with the LF at its end.
///
/// # Errors
///
/// `OutOfMemory` where memory was refused.
pub fn copy_line(
    alloc: Global,
    form: Form,
    moment: Moment,
    copy: &DropCopy,
) -> Result<Vec<u8>, OutOfMemory>
    ensures { IfOk result (λ line. line.items ≡ copy_line form moment copy.now) }
{
    match form {
        Form::Text => copy_text(alloc, moment, copy),
        Form::Json => copy_json(alloc, moment, copy),
    }
}
