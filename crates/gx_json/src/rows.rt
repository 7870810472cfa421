//! What stands of a user, and a command that was granted, as JSON objects.
//!
//! Each function refuses with `OutOfMemory` where memory was refused; then a part of what it puts may stand at the end of the text.

ghost use Rattle.std.specs.Prelude.{◌≡◌, ◌++◌, OnOk, Some};
ghost use Rattle.gx_json.specs.{Parts.member, Rows.{command_text, user_json}};

use crate::parts::{
    append_count_member, append_first_name, append_key, append_number_member, append_time_member,
};
use gx_overview::commands::GrantedCommand;
use gx_overview::day::UserRow;
use gx_text::append;
use gx_units::OutOfMemory;

/// Who gave a command, when, and by which record.
fn append_command(text: &mut Vec<u8>, command: &GrantedCommand) -> Result<(), OutOfMemory>
    ensures { OnOk result (text.new.items ≡ text.old.items ++ command_text (Some command.now)) }
{
    append_first_name(text, b"officer", &command.officer.bytes)?;
    append_time_member(text, b"at", command.moment)?;
    append_number_member(text, b"record", command.number)?;
    append(text, b"}")
}

/// A command or `null`, behind other members: who gave it, when, and by which record.
pub fn append_command_member(
    text: &mut Vec<u8>,
    key: &[u8],
    command: Option<GrantedCommand>,
) -> Result<(), OutOfMemory>
    ensures { OnOk result
        (text.new.items ≡ text.old.items ++ member key.now (command_text command)) }
{
    append_key(text, key)?;
    match &command {
        Some(command) => append_command(text, command),
        None => append(text, b"null"),
    }
}

/// A user, and the line that he is logged in on, or `null`.
pub fn append_user(text: &mut Vec<u8>, row: &UserRow) -> Result<(), OutOfMemory>
    ensures { OnOk result (text.new.items ≡ text.old.items ++ user_json row.now) }
{
    append_first_name(text, b"user", &row.user.bytes)?;
    append_count_member(text, b"line", row.line.map(|line| u64::from(line)))?;
    append(text, b"}")
}
