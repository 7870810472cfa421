//! The report as a page of HTML, which stands alone: no script, and nothing from elsewhere.

use crate::charts::{Counted, append_count_chart, append_share_chart};
use crate::parts::Part::Words;
use crate::parts::{append_digest, append_escaped_name, append_parts};
use crate::report::{DayReport, Digests};
use gx_tables::{Table, append_html};
use gx_text::append;
use gx_units::OutOfMemory;
use std::alloc::Global;

/// How the page looks: on a screen, light or dark, on a telephone and on paper.
const STYLE: &[u8] =
    b":root{color-scheme:light dark;--ink:#16202a;--soft:#5b6875;--line:#d5dbe1;--back:#fff;--mark:#0b5cad;--warn:#b3261e}
@media (prefers-color-scheme:dark){:root{--ink:#e6ebf0;--soft:#9aa7b3;--line:#37424d;--back:#12181e;--mark:#7cb8f2;--warn:#ff8a80}}
*{box-sizing:border-box}
body{margin:0 auto;max-width:1200px;padding:1.2rem;font:15px/1.45 system-ui,sans-serif;color:var(--ink);background:var(--back)}
h1{font-size:1.5rem;margin:0 0 .2rem}
h2{font-size:1.1rem;margin:1.8rem 0 .4rem}
p.d{margin:.1rem 0;color:var(--soft);overflow-wrap:anywhere}
code{font:12px ui-monospace,monospace}
.t{overflow-x:auto}
table{border-collapse:collapse;margin:.6rem 0 1.4rem;font-variant-numeric:tabular-nums}
caption{text-align:left;font-weight:600;padding:.3rem 0}
th,td{padding:.22rem .7rem;border-bottom:1px solid var(--line);text-align:left;white-space:nowrap}
th{color:var(--soft);font-weight:600}
.n{text-align:right}
figure{margin:.6rem 0;break-inside:avoid}
figcaption{font-weight:600}
svg{width:100%;max-width:720px;height:auto;display:block}
rect{fill:var(--mark)}
polyline{fill:none;stroke:var(--mark);stroke-width:2}
path{fill:none;stroke:var(--soft);stroke-width:1}
path.w{stroke-dasharray:4 4}
path.m{stroke:var(--warn)}
text{font:10px system-ui,sans-serif;fill:var(--soft)}
@media print{body{max-width:none;padding:0;font-size:11px}.t{overflow:visible}table{break-inside:auto}tr{break-inside:avoid}}
";

/// How many tables stand above the charts.
const ABOVE: usize = 3;

/// All in front of the page's body.
fn append_head(text: &mut Vec<u8>, alloc: Global, session: &[u8]) -> Result<(), OutOfMemory> {
    append(
        text,
        b"<!doctype html>\n<html lang=\"en\"><head><meta charset=\"utf-8\">\n\
          <meta name=\"viewport\" content=\"width=device-width,initial-scale=1\">\n<title>Day report ",
    )?;
    append_escaped_name(text, alloc, session)?;
    append_parts(
        text,
        &[
            Words(b"</title>\n<style>"),
            Words(STYLE),
            Words(b"</style></head>\n<body>\n<h1>Day report "),
        ],
    )?;
    append_escaped_name(text, alloc, session)?;
    append(text, b"</h1>\n")
}

/// The digests below the page's title.
fn append_digests(text: &mut Vec<u8>, alloc: Global, digests: &Digests) -> Result<(), OutOfMemory> {
    append_digest(
        text,
        alloc,
        b"<p class=\"d\">SHA-256 of the audit: <code>",
        &digests.audit,
        b"</code></p>\n",
    )?;
    append_digest(
        text,
        alloc,
        b"<p class=\"d\">SHA-256 of the policy, less its passwords: <code>",
        &digests.policy,
        b"</code></p>\n",
    )
}

/// Bars of orders, fills and denials over the day.
fn append_count_charts(text: &mut Vec<u8>, report: &DayReport) -> Result<(), OutOfMemory> {
    append(text, b"<h2>Over the day</h2>")?;
    for counted in [Counted::Orders, Counted::Fills, Counted::Denials] {
        append_count_chart(text, report.spans, counted, report.counts.as_slice())?;
    }
    Ok(())
}

/// A line for each limit of which something was used.
fn append_share_charts(
    text: &mut Vec<u8>,
    alloc: Global,
    report: &DayReport,
) -> Result<(), OutOfMemory> {
    let seats = report.samples.seats.as_slice();
    let samples = report.samples.list.as_slice();
    append(text, b"<h2>Used share of limits</h2>")?;
    for place in 0..seats.len() {
        append_share_chart(text, alloc, report.spans, seats, samples, place)?;
    }
    Ok(())
}

fn append_tables(text: &mut Vec<u8>, alloc: Global, tables: &[Table]) -> Result<(), OutOfMemory> {
    for table in tables {
        append(text, b"<div class=\"t\">")?;
        append_html(text, alloc, table)?;
        append(text, b"</div>\n")?;
    }
    Ok(())
}

/// The day, its accounts and its gross limits, the charts, and then all other tables.
fn append_body(text: &mut Vec<u8>, alloc: Global, report: &DayReport) -> Result<(), OutOfMemory> {
    let tables = report.tables.as_slice();
    let (above, below) = tables.split_at(ABOVE.min(tables.len()));
    append_tables(text, alloc, above)?;
    append_count_charts(text, report)?;
    append_share_charts(text, alloc, report)?;
    append_tables(text, alloc, below)
}

/// The report as a page.
pub(crate) fn append_page(
    text: &mut Vec<u8>,
    alloc: Global,
    report: &DayReport,
) -> Result<(), OutOfMemory> {
    append_head(text, alloc, &report.session.bytes)?;
    append_digests(text, alloc, &report.digests)?;
    append_body(text, alloc, report)?;
    append(text, b"\n</body></html>\n")
}
