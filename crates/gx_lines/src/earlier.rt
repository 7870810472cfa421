//! Answers to commands that were sent before this run, as lines: of these a user is told the type and the tag alone.

ghost use Rattle.std.specs.Prelude.{◌≡◌, ◌++◌, IfOk, OnOk, option_map};
ghost use Rattle.gx_lines.specs.AnswerLines.{type_word, type_text, type_field, earlier_text, earlier_fields, earlier_answer_line};
ghost use Rattle.gx_text.specs.declared.form.Form.TheVariants.{Text, Json};

use crate::answers::append_record;
use crate::json::{append_front, append_name_field, append_number_field, append_text_field};
use crate::showing::LINE_ROOM;
use gx_desk::Answer;
use gx_text::{Form, append, append_name, append_shown};
use gx_units::{Moment, OutOfMemory};
use std::alloc::Global;

/// The word of a command, by its type byte; `None` where there is no such command.
#[tactic(auto, unfolding(crate::specs::AnswerLines::type_word))]
fn type_word(kind: u8) -> Option<&'static [u8]>
    ensures { option_map (λ word. word.now) result ≡ type_word kind }
{
    match kind {
        b'K' => Some(b"kill"),
        b'L' => Some(b"lift"),
        b'M' => Some(b"limit"),
        b'R' => Some(b"restrict"),
        b'N' => Some(b"unrestrict"),
        b'G' => Some(b"grant"),
        b'V' => Some(b"revoke"),
        b'Z' => Some(b"close"),
        _ => None,
    }
}

/// Puts a command's word, by its type byte, at the end of the text.
fn append_type(text: &mut Vec<u8>, kind: u8) -> Result<(), OutOfMemory>
    ensures { OnOk result (text.new.items ≡ text.old.items ++ type_text kind) }
{
    match type_word(kind) {
        Some(word) => append(text, word),
        None => {
            append(text, b"command ")?;
            append_shown(text, &[kind])
        }
    }
}

/// Puts what an answer says at the end of the text.
#[tactic(auto, unfolding(crate::specs::AnswerLines::earlier_text))]
fn append_earlier(text: &mut Vec<u8>, answer: &Answer) -> Result<(), OutOfMemory>
    ensures { OnOk result (text.new.items ≡ text.old.items ++ earlier_text answer.now) }
{
    append_type(text, answer.command_type)?;
    append(text, b" with tag ")?;
    append_name(text, &answer.tag.bytes)?;
    append(text, b" answered ")?;
    append(text, &answer.code.code())
}

/// Puts a command's word, by its type byte, at the end of a JSON line.
fn append_type_field(line: &mut Vec<u8>, kind: u8) -> Result<(), OutOfMemory>
    ensures { OnOk result (line.new.items ≡ line.old.items ++ type_field kind) }
{
    match type_word(kind) {
        Some(word) => append_text_field(line, b"command", word),
        None => {
            let mut words = *b"command ?";
            words[8] = kind;
            append_text_field(line, b"command", &words)
        }
    }
}

/// Puts what an answer says at the end of a JSON line.
#[tactic(auto, unfolding(crate::specs::AnswerLines::earlier_fields))]
fn append_earlier_fields(line: &mut Vec<u8>, answer: &Answer) -> Result<(), OutOfMemory>
    ensures { OnOk result (line.new.items ≡ line.old.items ++ earlier_fields answer.now) }
{
    append_type_field(line, answer.command_type)?;
    append_text_field(line, b"code", &answer.code.code())?;
    append_name_field(line, b"tag", &answer.tag.bytes)?;
    append_number_field(line, b"record", answer.record_number)
}

fn earlier_text(alloc: Global, moment: Moment, answer: &Answer) -> Result<Vec<u8>, OutOfMemory>
    ensures { IfOk result (λ line. line.items ≡ earlier_answer_line Text moment answer.now) }
{
    let mut line = Vec::with_capacity(alloc, LINE_ROOM)?;
    append_earlier(&mut line, answer)?;
    append_record(&mut line, moment, answer.record_number)?;
    append(&mut line, b"\n")?;
    Ok(line)
}

#[tactic(auto, unfolding(crate::specs::Showing::json_line))]
fn earlier_json(alloc: Global, moment: Moment, answer: &Answer) -> Result<Vec<u8>, OutOfMemory>
    ensures { IfOk result (λ line. line.items ≡ earlier_answer_line Json moment answer.now) }
{
    let mut line = Vec::with_capacity(alloc, LINE_ROOM)?;
    append_front(&mut line, moment, b"answer")?;
    append_earlier_fields(&mut line, answer)?;
    append(&mut line, b"}\n")?;
    Ok(line)
}

/// The line of an answer of this moment to a command that was sent before this run, with the LF at its end.
///
/// # Errors
///
/// `OutOfMemory` where memory was refused.
pub fn earlier_answer_line(
    alloc: Global,
    form: Form,
    moment: Moment,
    answer: &Answer,
) -> Result<Vec<u8>, OutOfMemory>
    ensures { IfOk result (λ line. line.items ≡ earlier_answer_line form moment answer.now) }
{
    match form {
        Form::Text => earlier_text(alloc, moment, answer),
        Form::Json => earlier_json(alloc, moment, answer),
    }
}
