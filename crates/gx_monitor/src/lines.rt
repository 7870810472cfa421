//! The line of a warning.

ghost use Rattle.std.specs.{Prelude.{◌≡◌, ◌++◌, [], drop, flat_map, OnOk, slice_get}, Option.option_map_or};
ghost use Rattle.gx_warnings.specs.Keeping.{warnings_of};
ghost use Rattle.gx_monitor.specs.Lines.{told_line, warning_line};
ghost use Rattle.gx_text.specs.declared.form.Form.TheVariants as forms;

use crate::fields::append_warning_fields;
use crate::words::{append_warning_text, append_with_number};
use gx_json::append_number_member;
use gx_policy::Policy;
use gx_text::{Decimals, Form, append, append_moment};
use gx_units::OutOfMemory;
use gx_warnings::{Warning, Warnings};

#[tactic(auto, unfolding(crate::specs::Lines::warning_line))]
fn append_text_line(
    text: &mut Vec<u8>,
    policy: &Policy,
    warning: &Warning,
) -> Result<(), OutOfMemory>
    ensures { OnOk result (text.new.items
        ≡ text.old.items ++ warning_line forms.Text policy.now warning.now) }
{
    append_moment(text, warning.reading.moment, Decimals::Six)?;
    append(text, b" ")?;
    append_warning_text(text, policy, warning)?;
    append_with_number(text, b", record ", warning.reading.number)?;
    append(text, b"\n")
}

#[tactic(auto, unfolding(crate::specs::Lines::warning_line))]
fn append_json_line(
    text: &mut Vec<u8>,
    policy: &Policy,
    warning: &Warning,
) -> Result<(), OutOfMemory>
    ensures { OnOk result (text.new.items
        ≡ text.old.items ++ warning_line forms.Json policy.now warning.now) }
{
    append(text, b"{\"at\":\"")?;
    append_moment(text, warning.reading.moment, Decimals::Nine)?;
    append(text, b"\"")?;
    append_warning_fields(text, policy, warning)?;
    append_number_member(text, b"record", warning.reading.number)?;
    append(text, b"}\n")
}

/// Puts the line of the warning at the end of the text; nothing of a first use, which has the share 0.
///
/// # Errors
///
/// `OutOfMemory` where memory was refused; then a part of it may stand at the end of the text.
pub fn append_warning_line(
    text: &mut Vec<u8>,
    form: Form,
    policy: &Policy,
    warning: &Warning,
) -> Result<(), OutOfMemory>
    ensures { OnOk result (text.new.items
        ≡ text.old.items ++ told_line form policy.now warning.now) }
{
    if warning.share == 0 {
        return Ok(());
    }
    match form {
        Form::Text => append_text_line(text, policy, warning),
        Form::Json => append_json_line(text, policy, warning),
    }
}

/// Puts the line of the warning at this place, if there is one, at the end of the text.
fn append_line_at(
    text: &mut Vec<u8>,
    form: Form,
    policy: &Policy,
    warnings: &Warnings,
    place: usize,
) -> Result<(), OutOfMemory>
    ensures { OnOk result (text.new.items ≡ text.old.items
        ++ option_map_or (told_line form policy.now)
        (slice_get (warnings_of warnings.now) place) []) }
{
    match warnings.told(place) {
        Some(warning) => append_warning_line(text, form, policy, &warning),
        None => Ok(()),
    }
}

/// Puts the lines of the warnings from this place on at the end of the text.
///
/// # Errors
///
/// `OutOfMemory` where memory was refused; then a part of them may stand at the end of the text.
pub(crate) fn append_lines_from(
    text: &mut Vec<u8>,
    form: Form,
    policy: &Policy,
    warnings: &Warnings,
    place: usize,
) -> Result<(), OutOfMemory>
    ensures { OnOk result (text.new.items ≡ text.old.items
        ++ flat_map (told_line form policy.now) (drop place (warnings_of warnings.now))) }
{
    for at in place..warnings.count() {
        append_line_at(text, form, policy, warnings, at)?;
    }
    Ok(())
}
