//! The line of an event.

ghost use Rattle.std.specs.Prelude.{◌≡◌, ◌++◌, OnOk};
ghost use Rattle.gx_events.specs.Lines.{event_line, is_of_record, maybe_line, record_field, record_text};
ghost use Rattle.gx_text.specs.declared.form.Form.TheVariants as forms;

use crate::event::Event;
use crate::fields::{append_event_fields, append_number_field};
use crate::words::append_event_text;
use gx_text::{Decimals, Form, append, append_moment, append_number};
use gx_units::{Moment, OutOfMemory};

/// Whether the event is this record's, and not of the minute before it.
fn is_of_record(event: &Event) -> bool
    ensures { result ≡ is_of_record event.now }
{
    !matches!(event, Event::MoreDenied(_, _))
}

fn append_record_text(text: &mut Vec<u8>, event: &Event, number: u64) -> Result<(), OutOfMemory>
    ensures { OnOk result (text.new.items ≡ text.old.items ++ record_text event.now number) }
{
    if !is_of_record(event) {
        return Ok(());
    }
    append(text, b", record ")?;
    append_number(text, number)
}

fn append_record_field(text: &mut Vec<u8>, event: &Event, number: u64) -> Result<(), OutOfMemory>
    ensures { OnOk result (text.new.items ≡ text.old.items ++ record_field event.now number) }
{
    if !is_of_record(event) {
        return Ok(());
    }
    append_number_field(text, b"record", number)
}

#[tactic(auto, unfolding(crate::specs::Lines::event_line))]
fn append_text_line(
    text: &mut Vec<u8>,
    moment: Moment,
    number: u64,
    event: &Event,
) -> Result<(), OutOfMemory>
    ensures { OnOk result (text.new.items
        ≡ text.old.items ++ event_line forms.Text moment number event.now) }
{
    append_moment(text, moment, Decimals::Six)?;
    append(text, b" ")?;
    append_event_text(text, event)?;
    append_record_text(text, event, number)?;
    append(text, b"\n")
}

#[tactic(auto, unfolding(crate::specs::Lines::event_line))]
fn append_json_line(
    text: &mut Vec<u8>,
    moment: Moment,
    number: u64,
    event: &Event,
) -> Result<(), OutOfMemory>
    ensures { OnOk result (text.new.items
        ≡ text.old.items ++ event_line forms.Json moment number event.now) }
{
    append(text, b"{\"at\":\"")?;
    append_moment(text, moment, Decimals::Nine)?;
    append(text, b"\"")?;
    append_event_fields(text, event)?;
    append_record_field(text, event, number)?;
    append(text, b"}\n")
}

/// Puts the line of the event, if there is one, at the end of the text: told at this moment, with the record of this number.
pub(crate) fn append_line(
    text: &mut Vec<u8>,
    form: Form,
    moment: Moment,
    number: u64,
    event: Option<Event>,
) -> Result<(), OutOfMemory>
    ensures { OnOk result (text.new.items
        ≡ text.old.items ++ maybe_line form moment number event) }
{
    let Some(event) = event else {
        return Ok(());
    };
    match form {
        Form::Text => append_text_line(text, moment, number, &event),
        Form::Json => append_json_line(text, moment, number, &event),
    }
}
