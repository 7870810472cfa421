//! How far local time is from UTC.

ghost use Rattle.std.specs.Prelude.{◌≡◌};
ghost use Rattle.gx_clock.specs.Offsets.{minutes_of, minutes_written, offset_of, signed_offset, two_digits};

/// The most minutes that an offset has, ahead or behind: 14 hours.
const MOST_MINUTES: u16 = 840;

/// How far local time is from UTC.
#[derive(Clone, Copy, PartialEq, Eq)]
pub enum UtcOffset {
    /// So many minutes ahead of UTC, as in the east.
    Ahead(u16),
    /// So many minutes behind UTC, as in the west.
    Behind(u16),
}

/// The number that two decimal digits spell.
pub(crate) fn two_digits(tens: u8, ones: u8) -> Option<u16>
    ensures { result ≡ two_digits tens ones }
{
    if tens.is_ascii_digit() && ones.is_ascii_digit() {
        Some(u16::from(tens - b'0') * 10 + u16::from(ones - b'0'))
    } else {
        None
    }
}

/// The minutes of so many hours and minutes, where there are fewer than 60 minutes, and 14 hours at most.
fn minutes_of(hours: u16, minutes: u16) -> Option<u16>
    ensures { result ≡ minutes_of hours minutes }
{
    if minutes < 60 && u32::from(hours) * 60 + u32::from(minutes) <= u32::from(MOST_MINUTES) {
        Some(hours * 60 + minutes)
    } else {
        None
    }
}

/// The minutes of four digits: two for the hours, and two for the minutes.
fn minutes_written(a: u8, b: u8, c: u8, d: u8) -> Option<u16>
    ensures { result ≡ minutes_written a b c d }
{
    let hours = two_digits(a, b)?;
    let minutes = two_digits(c, d)?;
    minutes_of(hours, minutes)
}

/// So many minutes ahead of UTC at `+`, and behind at `-`.
fn signed(sign: u8, minutes: u16) -> Option<UtcOffset>
    ensures { result ≡ signed_offset sign minutes }
{
    match sign {
        b'+' => Some(UtcOffset::Ahead(minutes)),
        b'-' => Some(UtcOffset::Behind(minutes)),
        _ => None,
    }
}

impl UtcOffset {
    /// UTC itself.
    pub const UTC: UtcOffset = UtcOffset::Ahead(0);

    /// The offset that a text writes: `+HH:MM` or `-HH:MM`, at most 14 hours.
    pub fn parse(text: &str) -> Option<UtcOffset>
        ensures { result ≡ offset_of text.now }
    {
        match text.as_bytes() {
            [sign, a, b, b':', c, d] => signed(*sign, minutes_written(*a, *b, *c, *d)?),
            _ => None,
        }
    }
}
