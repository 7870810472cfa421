//! A view as one JSON object.

ghost use Rattle.std.specs.Prelude.{◌≡◌, ◌++◌, OnOk};
ghost use Rattle.gx_json.specs.Parts.{member};
ghost use Rattle.gx_status.specs.{Listings.array_text, States.{count_members, day_end_members, day_numbers, denial_members, lines_member, people_members, standing_members, use_members, view_members}};

use crate::listing::{Row, append_array};
use gx_board::{BoardView, Counts};
use gx_json::{
    append_bool_member, append_first_number, append_key, append_number_member, append_time_member,
};
use gx_overview::day::DayRow;
use gx_units::OutOfMemory;

/// Rows as a member of an object.
fn append_rows_member<T: Row>(text: &mut Vec<u8>, key: &[u8], rows: &[T]) -> Result<(), OutOfMemory>
    ensures { OnOk result
        (text.new.items ≡ text.old.items ++ member key.now (array_text T.json rows.now)) }
{
    append_key(text, key)?;
    append_array(text, rows)
}

/// How far the day is, and how many records are left.
#[tactic(auto, unfolding(crate::specs::States::day_numbers))]
fn append_day_numbers(text: &mut Vec<u8>, day: &DayRow) -> Result<(), OutOfMemory>
    ensures { OnOk result (text.new.items ≡ text.old.items ++ day_numbers day.now) }
{
    append_first_number(text, b"record", day.records)?;
    append_number_member(text, b"left", day.left)
}

/// How many lines are left behind this one.
#[tactic(auto, unfolding(crate::specs::States::lines_member))]
fn append_lines(text: &mut Vec<u8>, line: u16) -> Result<(), OutOfMemory>
    ensures { OnOk result (text.new.items ≡ text.old.items ++ lines_member line) }
{
    append_number_member(text, b"lines_left", u64::from(u16::MAX - line))
}

/// The moment of the day's last record, and whether it is closed.
#[tactic(auto, unfolding(crate::specs::States::day_end_members))]
fn append_day_end(text: &mut Vec<u8>, day: &DayRow) -> Result<(), OutOfMemory>
    ensures { OnOk result (text.new.items ≡ text.old.items ++ day_end_members day.now) }
{
    append_time_member(text, b"at", day.moment)?;
    append_bool_member(text, b"closed", day.is_closed)
}

/// What the records say in numbers.
#[tactic(auto, unfolding(crate::specs::States::count_members))]
fn append_counts(text: &mut Vec<u8>, counts: &Counts) -> Result<(), OutOfMemory>
    ensures { OnOk result (text.new.items ≡ text.old.items ++ count_members counts.now) }
{
    append_number_member(text, b"granted", counts.granted)?;
    append_number_member(text, b"denied", counts.denied)?;
    append_number_member(text, b"fills", counts.fills)
}

/// What stands of accounts and of rules.
#[tactic(auto, unfolding(crate::specs::States::standing_members))]
fn append_standing(text: &mut Vec<u8>, view: &BoardView) -> Result<(), OutOfMemory>
    ensures { OnOk result (text.new.items ≡ text.old.items ++ standing_members view.now) }
{
    append_rows_member(text, b"accounts", view.accounts.as_slice())?;
    append_rows_member(text, b"limits", view.limits.as_slice())
}

/// What is used of limits.
#[tactic(auto, unfolding(crate::specs::States::use_members))]
fn append_uses(text: &mut Vec<u8>, view: &BoardView) -> Result<(), OutOfMemory>
    ensures { OnOk result (text.new.items ≡ text.old.items ++ use_members view.now) }
{
    append_rows_member(text, b"gross", view.gross.as_slice())?;
    append_rows_member(text, b"net", view.net.as_slice())
}

/// What was denied, by each rule and at last.
#[tactic(auto, unfolding(crate::specs::States::denial_members))]
fn append_denials(text: &mut Vec<u8>, view: &BoardView) -> Result<(), OutOfMemory>
    ensures { OnOk result (text.new.items ≡ text.old.items ++ denial_members view.now) }
{
    append_rows_member(text, b"rules", view.denied.as_slice())?;
    append_rows_member(text, b"denials", view.denials.as_slice())
}

/// What officers asked for at last, and who is logged in.
#[tactic(auto, unfolding(crate::specs::States::people_members))]
fn append_people(text: &mut Vec<u8>, view: &BoardView) -> Result<(), OutOfMemory>
    ensures { OnOk result (text.new.items ≡ text.old.items ++ people_members view.now) }
{
    append_rows_member(text, b"commands", view.commands.as_slice())?;
    append_rows_member(text, b"users", view.users.as_slice())
}

/// Puts a view at the end of the text as a JSON object, but for the brace at its end: whoever asks may put members of his own
/// behind.
///
/// # Errors
///
/// `OutOfMemory` where memory was refused; then a part of it may stand at the end of the text.
pub(crate) fn append_view(text: &mut Vec<u8>, view: &BoardView) -> Result<(), OutOfMemory>
    ensures { OnOk result (text.new.items ≡ text.old.items ++ view_members view.now) }
{
    append_day_numbers(text, &view.day)?;
    append_lines(text, view.counts.highest_line)?;
    append_day_end(text, &view.day)?;
    append_counts(text, &view.counts)?;
    append_standing(text, view)?;
    append_uses(text, view)?;
    append_denials(text, view)?;
    append_people(text, view)
}
