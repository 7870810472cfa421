//! Whether bytes are those that a record is written as, told by their parts: nothing is written.

ghost use Rattle.std.specs.Prelude.{◌≡◌, length, Some, IsTrue, bytes_eq, replicate};
ghost use Rattle.gx_audit_bytes.specs.{Reading.content_in, Records.{record_bytes, HasPlaces}, Written.{has_parts, has_mark, is_answer, has_answers, is_free, is_request_written, is_step_written, has_no_rule, has_no_order, has_no_fill, is_verdict_written, body_size}};
ghost use Rattle.gx_desk.specs.Contents.{command_layout};

use crate::bodies::request_kind;
use crate::draft::{RECORD_SIZE, whole};
use crate::reading::byte;
use crate::version::AuditVersion;
use crate::writing::{NO_RULE, NO_USER, mark};
use gx_desk::Action;
use gx_history::record::{RecordData, Request, Step, Verdict};

/// Whether the record of this content, which the bytes show, is written as these bytes.
pub(crate) fn is_written(
    version: AuditVersion,
    content: &RecordData,
    bytes: &[u8; RECORD_SIZE],
) -> bool
    requires { content_in bytes.now ≡ Some content.now }
    ensures bytes { result ≡ bytes_eq (record_bytes version content.now) bytes.now }
    ensures places { IsTrue result → HasPlaces version content.now }
{
    has_parts(version, content, bytes)
}

fn has_parts(version: AuditVersion, content: &RecordData, bytes: &[u8; RECORD_SIZE]) -> bool
    ensures { result ≡ has_parts version content.now bytes.now }
{
    has_mark(version, bytes)
        && is_step_written(&content.step, bytes)
        && is_verdict_written(&content.verdict, bytes)
}

/// Whether a record of the version begins so.
pub(crate) fn has_mark(version: AuditVersion, bytes: &[u8; RECORD_SIZE]) -> bool
    ensures { result ≡ has_mark version bytes.now }
{
    whole(&bytes[..4]) == mark(version)
}

fn is_step_written(step: &Step, bytes: &[u8; RECORD_SIZE]) -> bool
    ensures { result ≡ is_step_written step.now bytes.now }
{
    match step {
        Step::Asked(asked) => {
            is_request_written(&asked.request, byte(&bytes[36..37]), &bytes[37..95])
        }
        Step::Matching(_) => {
            is_zero::<2>(&bytes[28..30])
                && whole(&bytes[30..36]) == NO_USER
                && is_zero::<58>(&bytes[37..95])
        }
    }
}

fn is_request_written(request: &Request, kind: u8, body: &[u8]) -> bool
    requires { length body.now ≡ 58 }
    ensures { result ≡ is_request_written request.now kind body.now }
{
    kind == request_kind(request) && has_answers(request, body) && is_free(request, body)
}

fn has_answers(request: &Request, body: &[u8]) -> bool
    requires { length body.now ≡ 58 }
    ensures { result ≡ has_answers request.now body.now }
{
    match request {
        Request::Login(_) => is_answer(body[0]) && is_answer(body[1]),
        _ => true,
    }
}

fn is_answer(byte: u8) -> bool
    ensures { result ≡ is_answer byte }
{
    byte == b'Y' || byte == b'N'
}

/// Whether zero bytes stand behind what the body shows of the request.
fn is_free(request: &Request, body: &[u8]) -> bool
    requires { length body.now ≡ 58 }
    ensures { result ≡ is_free (body_size request.now) body.now }
{
    match request {
        Request::Login(_) => is_zero::<48>(&body[10..]),
        Request::Logout => is_zero::<58>(body),
        Request::Unreadable(_) => is_zero::<55>(&body[3..]),
        Request::Enter(_) => is_zero::<9>(&body[49..]),
        Request::Replace(_) => is_zero::<11>(&body[47..]),
        Request::Cancel(_) => is_zero::<39>(&body[19..]),
        Request::Command(command) => is_command_free(&command.action, body),
    }
}

fn is_command_free(action: &Action, body: &[u8]) -> bool
    requires { length body.now ≡ 58 }
    ensures { result ≡ is_free (command_layout action.now).size body.now }
{
    match action {
        Action::Kill(_) | Action::Lift(_) => is_zero::<35>(&body[23..]),
        Action::SetLimit(_, _) => is_zero::<27>(&body[31..]),
        Action::Restrict(_, _) | Action::Unrestrict(_, _) => is_zero::<27>(&body[31..]),
        Action::Grant(_, _) | Action::Revoke(_, _) => is_zero::<29>(&body[29..]),
        Action::CloseDay => is_zero::<43>(&body[15..]),
    }
}

fn is_verdict_written(verdict: &Verdict, bytes: &[u8; RECORD_SIZE]) -> bool
    ensures { result ≡ is_verdict_written verdict.now bytes.now }
{
    match verdict {
        Verdict::Granted => has_no_rule(bytes) && has_no_order(bytes) && has_no_fill(bytes),
        Verdict::Denied(_) => has_no_order(bytes) && has_no_fill(bytes),
        Verdict::Filled(_) => has_no_rule(bytes),
        Verdict::Rested(_) | Verdict::Expired(_) => has_no_rule(bytes) && has_no_fill(bytes),
    }
}

fn has_no_rule(bytes: &[u8; RECORD_SIZE]) -> bool
    ensures { result ≡ has_no_rule bytes.now }
{
    whole(&bytes[96..104]) == NO_RULE
}

fn has_no_order(bytes: &[u8; RECORD_SIZE]) -> bool
    ensures { result ≡ has_no_order bytes.now }
{
    is_zero::<8>(&bytes[104..112])
}

fn has_no_fill(bytes: &[u8; RECORD_SIZE]) -> bool
    ensures { result ≡ has_no_fill bytes.now }
{
    is_zero::<8>(&bytes[112..120])
        && is_zero::<4>(&bytes[120..124])
        && is_zero::<4>(&bytes[124..128])
}

/// Whether all of the field are zero bytes.
fn is_zero<const N: usize>(field: &[u8]) -> bool
    requires { length field.now ≡ N }
    ensures { result ≡ bytes_eq field.now (replicate N 0) }
{
    whole::<N>(field) == [0; N]
}
