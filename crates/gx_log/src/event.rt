//! The lines of events.

ghost use Rattle.std.specs.Prelude.{◌≡◌, IfOk, None, Some};
ghost use Rattle.gx_text.specs.declared.form.Form.TheVariants.{Text, Json};
ghost use Rattle.gx_log.specs.Events.{event_line};

use gx_text::{Decimals, Form, append, append_json_string, append_moment};
use gx_units::{Moment, OutOfMemory};
use std::alloc::Global;

/// The words alone.
#[tactic(auto, unfolding(crate::specs::Events::event_line))]
fn plain_line(
    alloc: Global,
    moment: Moment,
    kind: &str,
    words: &str,
) -> Result<Vec<u8>, OutOfMemory>
    ensures { IfOk result (λ line. line.items ≡ event_line None moment kind.now words.now) }
{
    let mut line = Vec::from_slice(alloc, words.as_bytes())?;
    append(&mut line, b"\n")?;
    Ok(line)
}

/// The moment and the words.
#[tactic(auto, unfolding(crate::specs::Events::event_line))]
fn text_line(alloc: Global, moment: Moment, kind: &str, words: &str) -> Result<Vec<u8>, OutOfMemory>
    ensures { IfOk result (λ line.
        line.items ≡ event_line (Some Text) moment kind.now words.now) }
{
    let mut line = Vec::new(alloc);
    append_moment(&mut line, moment, Decimals::Six)?;
    append(&mut line, b" ")?;
    append(&mut line, words.as_bytes())?;
    append(&mut line, b"\n")?;
    Ok(line)
}

/// An object of the moment, the kind and the words.
#[tactic(auto, unfolding(crate::specs::Events::event_line))]
fn json_line(alloc: Global, moment: Moment, kind: &str, words: &str) -> Result<Vec<u8>, OutOfMemory>
    ensures { IfOk result (λ line.
        line.items ≡ event_line (Some Json) moment kind.now words.now) }
{
    let mut line = Vec::new(alloc);
    append(&mut line, b"{\"at\":\"")?;
    append_moment(&mut line, moment, Decimals::Nine)?;
    append(&mut line, b"\",\"event\":")?;
    append_json_string(&mut line, kind.as_bytes())?;
    append(&mut line, b",\"text\":")?;
    append_json_string(&mut line, words.as_bytes())?;
    append(&mut line, b"}\n")?;
    Ok(line)
}

/// The line of an event of this kind, told in these words, in the form that is asked for, if one is.
///
/// # Errors
///
/// `OutOfMemory` where memory was refused.
pub fn event_line(
    alloc: Global,
    form: Option<Form>,
    moment: Moment,
    kind: &str,
    words: &str,
) -> Result<Vec<u8>, OutOfMemory>
    ensures { IfOk result (λ line. line.items ≡ event_line form moment kind.now words.now) }
{
    match form {
        None => plain_line(alloc, moment, kind, words),
        Some(Form::Text) => text_line(alloc, moment, kind, words),
        Some(Form::Json) => json_line(alloc, moment, kind, words),
    }
}
