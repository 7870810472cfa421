//! The body of the response that bytes are, or why they are none.

ghost use Rattle.std.specs.Prelude.{◌≡◌, ℕ, List, length, drop};
ghost use Rattle.httparse.specs.{Grammar.ResponseHead, Spans.IsResponseWithin};
ghost use Rattle.gx_page_reader.specs.Responses.{body_in, body_seen, body_with, parts_at, BeginWith, IsReadAs, response_of};

use crate::fault::PageFault;
use http1::fields::KnownFields;
use http1::framing::{Framing, FramingError, MethodKind, response_framing};
use httparse::Status;
use httparse::spans::{EMPTY_HEADER_SPAN, HeaderSpan, ResponseSpans, parse_response};

/// The fields that the head of a response may have.
const MOST_FIELDS: usize = 64;

/// The body that ends so, where these bytes stand behind the head.
fn body_with(told: Result<Framing, FramingError>, bytes: &[u8]) -> Result<&[u8], PageFault>
    ensures { body_seen result ≡ body_with told bytes.now }
{
    match told {
        Ok(Framing::UntilClose) => Ok(bytes),
        Ok(Framing::Length(length)) if length <= bytes.len() as u64 => {
            Ok(&bytes[..length as usize])
        }
        Ok(Framing::Length(_)) => Err(PageFault::CutShort),
        _ => Err(PageFault::NoResponse),
    }
}

/// The body of the response whose head has these fields and parts.
#[tactic(auto, using(crate::proofs::Head_parts::all_within))]
fn behind_head<'a>(
    bytes: &'a [u8],
    fields: &[HeaderSpan],
    head: &ResponseSpans,
) -> Result<&'a [u8], PageFault>
    requires within { IsResponseWithin bytes.now fields.now head.now }
    requires all { head.now.headers ≡ length fields.now }
    ensures { body_seen result ≡ body_in (parts_at bytes.now fields.now head.now)
        (drop head.now.len bytes.now) }
{
    if head.code != 200 {
        return Err(PageFault::OtherStatus(head.code));
    }
    let known = KnownFields::from_spans(bytes, fields);
    let told = response_framing(MethodKind::Other, 200, head.version, &known);
    body_with(told, &bytes[head.len..])
}

/// The body of the response that all these bytes are. It takes no memory.
///
/// # Errors
///
/// `CutShort` where more bytes would have to come, `OtherStatus` where its status is another than 200, and `NoResponse` where
/// they are no response, or one whose body is told in another way than by its length or to its end.
pub fn body_of(bytes: &[u8]) -> Result<&[u8], PageFault>
    ensures begun { (h : ResponseHead) (rest : List ℕ) → BeginWith bytes.now h rest
        → body_seen result ≡ response_of h rest }
    ensures read { IsReadAs bytes.now (body_seen result) }
{
    let mut fields = [EMPTY_HEADER_SPAN; MOST_FIELDS];
    match parse_response(bytes, &mut fields) {
        Ok(Status::Complete(head)) => behind_head(bytes, &fields[..head.headers], &head),
        Ok(Status::Partial) => Err(PageFault::CutShort),
        Err(_) => Err(PageFault::NoResponse),
    }
}
