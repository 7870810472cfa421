//! Which field of a bad record is wrong.

use crate::draft::RECORD_SIZE;
use crate::reading::{content, has_no_lower_case, is_showable, message_size, step_shown};
use crate::version::AuditVersion;
use crate::writing::write_content;
use crate::written::has_mark;
use gx_history::record::{RecordData, Step, Verdict};

/// The fields of a record, and where each ends.
const FIELDS: [(usize, &str); 14] = [
    (4, "mark"),
    (12, "number"),
    (20, "handed moment"),
    (28, "moment"),
    (30, "line"),
    (36, "user"),
    (37, "kind"),
    (95, "body"),
    (96, "verdict"),
    (104, "rule"),
    (112, "first order"),
    (120, "maker"),
    (124, "shares"),
    (128, "price"),
];

/// The field in which a record's byte stands.
fn field_at(at: usize) -> &'static str {
    for (end, name) in &FIELDS {
        if at < *end {
            return name;
        }
    }
    "price"
}

/// The field that a record of this content can't have.
fn unshown(content: &RecordData) -> &'static str {
    if content.number == 0 {
        return "number";
    }
    let Step::Asked(asked) = &content.step else {
        return "verdict";
    };
    if asked.line == 0 {
        return "line";
    }
    if !has_no_lower_case(&asked.user.bytes) {
        return "user";
    }
    match content.verdict {
        Verdict::Denied(_) => "rule",
        _ => "verdict",
    }
}

/// The field that can't be read: the kind, or else the verdict.
fn unread(bytes: &[u8; RECORD_SIZE]) -> &'static str {
    if step_shown(bytes).is_none() {
        return "kind";
    }
    "verdict"
}

/// The first field in which the bytes differ; the number where none does.
fn first_difference(bytes: &[u8; RECORD_SIZE], others: &[u8; RECORD_SIZE]) -> &'static str {
    for at in 0..RECORD_SIZE {
        if bytes[at] != others[at] {
            return field_at(at);
        }
    }
    "number"
}

/// The field of a bad record that is wrong: the first that no record of the version has so, or the number, where another
/// was due.
pub fn wrong_field(version: AuditVersion, bytes: &[u8; RECORD_SIZE]) -> &'static str {
    if !has_mark(version, bytes) {
        return "mark";
    }
    let Some(content) = content(bytes) else {
        return unread(bytes);
    };
    if !is_showable(&content) {
        return unshown(&content);
    }
    first_difference(bytes, &write_content(version, &content))
}

/// The message that a record shows, as it was sent; empty where it shows none.
pub fn message_shown(bytes: &[u8; RECORD_SIZE]) -> &[u8] {
    let body = &bytes[37..95];
    match message_size(bytes[36]) {
        Some(size) => &body[..size],
        None => &body[..0],
    }
}
