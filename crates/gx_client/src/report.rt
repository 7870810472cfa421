//! Reports of every kind, read from bytes.

ghost use Rattle.std.specs.Prelude.{◌≡◌, option_map, IfNone, IfSome};
ghost use Rattle.gx_client.specs.declared.report.Report.TheVariants as reports;
ghost use Rattle.gx_client.specs.{Messages.{HasNone, ReadsBack}, Reports.{IsReport, report_bytes, stamped_as}};

use crate::reading::{Stamped, read_answer, read_drop_copy, read_outbound};
use gx_desk::{Answer, DropCopy};
use gx_ouch::Outbound;

/// What a report tells.
#[derive(Clone, Copy, PartialEq, Eq)]
pub enum Report {
    /// To a trader, of his orders, or that the day has ended.
    Order(Outbound),
    /// To an officer, of a command.
    Answer(Answer),
    /// To a reader, of an order that he sees.
    DropCopy(DropCopy),
}

/// The report whose bytes these are, with its moment: the very one that the gate writes so, of whatever kind. None where
/// it writes no report so. Its length tells the kind.
pub fn read_report(bytes: &[u8]) -> Option<Stamped<Report>>
    ensures written { IfSome result (λ read.
        report_bytes read.timestamp read.message ≡ bytes.now) }
    ensures none { IfNone result (HasNone IsReport report_bytes bytes.now) }
    ensures read_back { ReadsBack IsReport report_bytes bytes.now result }
{
    report_in(bytes)
}

fn report_in(bytes: &[u8]) -> Option<Stamped<Report>>
    ensures written { IfSome result (λ read.
        report_bytes read.timestamp read.message ≡ bytes.now) }
    ensures read_back { ReadsBack IsReport report_bytes bytes.now result }
{
    match bytes.len() {
        34 => answer_report(read_answer(bytes)),
        49 => drop_copy_report(read_drop_copy(bytes)),
        _ => order_report(read_outbound(bytes)),
    }
}

fn order_report(read: Option<Stamped<Outbound>>) -> Option<Stamped<Report>>
    ensures { result ≡ option_map (stamped_as reports.Order) read }
{
    let Stamped { timestamp, message } = read?;
    Some(Stamped {
        timestamp,
        message: Report::Order(message),
    })
}

fn answer_report(read: Option<Stamped<Answer>>) -> Option<Stamped<Report>>
    ensures { result ≡ option_map (stamped_as reports.Answer) read }
{
    let Stamped { timestamp, message } = read?;
    Some(Stamped {
        timestamp,
        message: Report::Answer(message),
    })
}

fn drop_copy_report(read: Option<Stamped<DropCopy>>) -> Option<Stamped<Report>>
    ensures { result ≡ option_map (stamped_as reports.DropCopy) read }
{
    let Stamped { timestamp, message } = read?;
    Some(Stamped {
        timestamp,
        message: Report::DropCopy(message),
    })
}
