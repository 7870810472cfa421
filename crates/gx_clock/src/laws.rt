//! What holds of all offsets and moments, as functions that do nothing.

ghost use Rattle.std.specs.Prelude.{◌≡◌, ℕ, ◌+◌, ◌*◌, ◌/◌, ◌%◌, ◌≤◌, List, Some};
ghost use Rattle.gx_clock.specs.{declared.offset.UtcOffset.UtcOffset, Moments.{date_of, day, last_date, local_time, minute, moment_at, moment_of_day}, Offsets.{minutes_in, most_minutes, offset_of, offset_text}};
ghost use Rattle.gx_clock.specs.declared.offset.UtcOffset.TheVariants as offsets;

/// An offset of at most 14 hours is read from its text.
pub fn offsets_are_read()
    ensures { (offset : UtcOffset) → minutes_in offset ≤ most_minutes
        → offset_of (offset_text offset) ≡ Some offset }
{}

/// Behind UTC a moment is earlier by the offset, on whatever day.
pub fn local_time_is_behind()
    ensures { (minutes since : ℕ) →
        (moment_of_day (offsets.Behind minutes) since + minutes * minute) % day ≡ since % day }
{}

/// A date and the moment of that day are the local time, as far as dates go.
pub fn days_begin_at_midnight()
    ensures { (offset : UtcOffset) (since : ℕ) → minutes_in offset * minute ≤ since
        → local_time offset since / day ≤ last_date
        → date_of offset (Some since) * day + moment_of_day offset since
        ≡ local_time offset since }
{}

/// A later reading shows no earlier moment.
pub fn moments_go_on()
    ensures { (start begun now later : ℕ) → now ≤ later
        → moment_at start begun now ≤ moment_at start begun later }
{}

/// What is read as an offset is its text, and it is of at most 14 hours.
pub fn no_other_text_is_read()
    ensures few { (text : List ℕ) (offset : UtcOffset) → offset_of text ≡ Some offset
        → minutes_in offset ≤ most_minutes }
    ensures text { (text : List ℕ) (offset : UtcOffset) → offset_of text ≡ Some offset
        → text ≡ offset_text offset }
{}
