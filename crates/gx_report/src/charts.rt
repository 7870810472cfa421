//! Charts over the day, as SVG within a page: bars of counts, and lines of the used share of limits.

use crate::parts::Part::{Number, Words};
use crate::parts::{append_escaped_name, append_parts};
use crate::samples::{Sample, Seat};
use crate::spans::Spans;
use gx_activity::spans::SpanRow;
use gx_text::{append, append_minute};
use gx_units::OutOfMemory;
use std::alloc::Global;

/// The height of the ground on which bars stand, below the top.
const GROUND: u64 = 120;

/// The width of a span.
const STEP: u64 = 15;

/// The nanoseconds of a minute.
const MINUTE: u64 = 60_000_000_000;

/// The greatest share that a chart shows, in tenths of a percent.
const MOST_TENTHS: u64 = 1_200;

/// What begins a figure, in front of its caption.
const FIGURE: &[u8] = b"\n<figure><figcaption>";

/// What begins its chart, behind the caption.
const CHART: &[u8] =
    b"</figcaption><svg viewBox=\"0 -8 720 150\" role=\"img\" aria-hidden=\"true\">";

/// What ends a figure.
const FIGURE_END: &[u8] = b"</svg></figure>";

/// The marks at 75, 90 and 100 percent of a limit.
const MARKS: &[u8] =
    b"<path d=\"M0 45H720M0 30H720\" class=\"w\"/><path d=\"M0 20H720\" class=\"m\"/>\
      <text x=\"2\" y=\"44\">75 %</text><text x=\"2\" y=\"29\">90 %</text>\
      <text x=\"2\" y=\"18\">100 %</text>";

/// What is counted over the day.
#[derive(Clone, Copy, PartialEq, Eq)]
pub(crate) enum Counted {
    Orders,
    Fills,
    Denials,
}

impl Counted {
    /// What a person reads above the bars.
    fn title(self) -> &'static [u8] {
        match self {
            Counted::Orders => b"Orders granted",
            Counted::Fills => b"Fills",
            Counted::Denials => b"Denials",
        }
    }

    /// How many of it a span has.
    fn in_span(self, row: &SpanRow) -> u64 {
        match self {
            Counted::Orders => row.orders,
            Counted::Fills => row.fills,
            Counted::Denials => row.denials,
        }
    }
}

/// How high above the ground a part of a whole is.
fn height_of(part: u64, whole: u64) -> u64 {
    match part.min(whole).saturating_mul(GROUND).checked_div(whole) {
        Some(height) => height.min(GROUND),
        None => 0,
    }
}

/// A bar that stands on the ground.
fn append_bar(text: &mut Vec<u8>, left: u64, height: u64) -> Result<(), OutOfMemory> {
    append_parts(
        text,
        &[
            Words(b"<rect x=\""),
            Number(left),
            Words(b"\" y=\""),
            Number(GROUND.saturating_sub(height)),
            Words(b"\" width=\""),
            Number(STEP - 2),
            Words(b"\" height=\""),
            Number(height),
            Words(b"\"/>"),
        ],
    )
}

fn append_bars(
    text: &mut Vec<u8>,
    counted: Counted,
    rows: &[SpanRow],
    most: u64,
) -> Result<(), OutOfMemory> {
    let mut left = 0;
    for row in rows {
        append_bar(text, left, height_of(counted.in_span(row), most))?;
        left = left.saturating_add(STEP);
    }
    Ok(())
}

/// The most that one span has.
fn most_of(counted: Counted, rows: &[SpanRow]) -> u64 {
    let mut most = 0;
    for row in rows {
        most = counted.in_span(row).max(most);
    }
    most
}

/// A time below the ground, at this place.
fn append_time(
    text: &mut Vec<u8>,
    left: u64,
    anchor: &[u8],
    nanoseconds: u64,
) -> Result<(), OutOfMemory> {
    append_parts(
        text,
        &[
            Words(b"<text x=\""),
            Number(left),
            Words(b"\" y=\"136\" text-anchor=\""),
            Words(anchor),
            Words(b"\">"),
        ],
    )?;
    append_minute(text, nanoseconds / MINUTE)?;
    append(text, b"</text>")
}

/// The ground, and the times at which the day begins, is half over, and ends.
fn append_axis(text: &mut Vec<u8>, spans: Spans) -> Result<(), OutOfMemory> {
    let right = spans.count.saturating_mul(STEP);
    append_parts(
        text,
        &[
            Words(b"<path d=\"M0 120H720\" class=\"g\" data-spans=\""),
            Number(spans.count),
            Words(b"\"/>"),
        ],
    )?;
    append_time(text, 0, b"start", spans.begin(0))?;
    append_time(text, right / 2, b"middle", spans.begin(spans.count / 2))?;
    append_time(text, right, b"end", spans.begin(spans.count))
}

/// Bars of how many there were in each span, below what they are of and how many there were at most.
pub(crate) fn append_count_chart(
    text: &mut Vec<u8>,
    spans: Spans,
    counted: Counted,
    rows: &[SpanRow],
) -> Result<(), OutOfMemory> {
    let most = most_of(counted, rows);
    append_parts(
        text,
        &[
            Words(FIGURE),
            Words(counted.title()),
            Words(b": at most "),
            Number(most),
            Words(b" in one span"),
            Words(CHART),
        ],
    )?;
    append_bars(text, counted, rows, most)?;
    append_axis(text, spans)?;
    append(text, FIGURE_END)
}

/// The used share of a limit, in tenths of a percent: at most what a chart shows.
fn share_of(sample: &Sample) -> u64 {
    let (Some(used), Some(limit)) = (sample.used, sample.limit) else {
        return 0;
    };
    match used.saturating_mul(1_000).checked_div(u128::from(limit)) {
        Some(share) => u64::try_from(share).unwrap_or(MOST_TENTHS).min(MOST_TENTHS),
        None if used > 0 => MOST_TENTHS,
        None => 0,
    }
}

/// A point of a line.
fn append_point(text: &mut Vec<u8>, left: u64, share: u64) -> Result<(), OutOfMemory> {
    let below = GROUND.saturating_sub(height_of(share, MOST_TENTHS));
    append_parts(
        text,
        &[Number(left), Words(b","), Number(below), Words(b" ")],
    )
}

/// The line of a seat, one point a span: the samples of all seats stand one span after the other.
fn append_line(
    text: &mut Vec<u8>,
    spans: Spans,
    samples: &[Sample],
    seat: usize,
    seats: usize,
) -> Result<(), OutOfMemory> {
    append(text, b"<polyline points=\"")?;
    let mut place = seat;
    let mut left = 0;
    for _ in 0..spans.count {
        if let Some(sample) = samples.get(place) {
            left = STEP.saturating_add(left);
            append_point(text, left, share_of(sample))?;
        }
        place = place.saturating_add(seats);
    }
    append(text, b"\"/>")
}

/// What a person reads behind the rule and the account.
fn caption_of(seat: &Seat) -> &'static [u8] {
    if seat.is_net {
        b": used share of the limit, on the side of a stock where it is greatest"
    } else {
        b": used share of the limit"
    }
}

/// The rule and the account of a seat, and what its line shows.
fn append_caption(text: &mut Vec<u8>, alloc: Global, seat: &Seat) -> Result<(), OutOfMemory> {
    append(text, FIGURE)?;
    append_escaped_name(text, alloc, &seat.rule.bytes)?;
    append(text, b", ")?;
    append_escaped_name(text, alloc, &seat.account.bytes)?;
    append(text, caption_of(seat))
}

/// A line of the used share of a seat's limit at the end of each span, below the rule and the account.
pub(crate) fn append_share_chart(
    text: &mut Vec<u8>,
    alloc: Global,
    spans: Spans,
    seats: &[Seat],
    samples: &[Sample],
    place: usize,
) -> Result<(), OutOfMemory> {
    let Some(seat) = seats.get(place) else {
        return Ok(());
    };
    append_caption(text, alloc, seat)?;
    append_parts(text, &[Words(CHART), Words(MARKS)])?;
    append_line(text, spans, samples, place, seats.len())?;
    append_axis(text, spans)?;
    append(text, FIGURE_END)
}
