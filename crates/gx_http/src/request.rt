//! A request as it is read from bytes, or why bytes are none.

ghost use Rattle.std.specs.Prelude.{◌≡◌, ℕ, List, length, drop, option_copied, MatchResult, OnOk, Ok, Err};
ghost use Rattle.httparse.specs.{Grammar.RequestHead, Spans.IsRequestWithin};
ghost use Rattle.gx_http.specs.Requests.{asked_by, body_length, own_host, parts_at, BeginWith, IsForOwnHost, IsReadAs, request_in, request_of, whole_body, within_bounds};

use crate::credentials::{Credentials, credentials_in, value_named};
use crate::forms::{KillForm, kill_form};
use crate::hosts::is_for_own_host;
use crate::routes::{Method, Route, routed};
use http1::fields::KnownFields;
use http1::framing::{Framing, MethodKind, request_framing};
use httparse::Status;
use httparse::spans::{EMPTY_HEADER_SPAN, HeaderSpan, RequestSpans, parse_request};
use thiserror::Error;

/// The bytes that a request may have.
pub const MOST_BYTES: usize = 4096;

/// The fields that the head of a request may have.
const MOST_FIELDS: usize = 32;

/// What a request asks for.
#[derive(Clone, Copy, PartialEq, Eq)]
pub enum RequestTarget {
    /// The page.
    Page,
    /// Its script.
    Script,
    /// Its style sheet.
    Style,
    /// What the page shows, as JSON.
    State,
    /// The figures, as a Prometheus server reads them.
    Metrics,
    /// Whether the gate takes orders.
    Health,
    /// A kill of an account.
    Kill(KillForm),
}

/// A request.
#[derive(Clone, Copy, PartialEq, Eq)]
pub struct Request {
    /// The user and the password that it names.
    pub caller: Option<Credentials>,
    /// What it asks for.
    pub asked: RequestTarget,
}

/// Why bytes are no request that is served.
#[derive(Clone, Copy, Debug, PartialEq, Eq, Error)]
pub enum RequestFault {
    /// More bytes may make them one.
    #[error("the request has not ended")]
    Unfinished,
    /// They are no request, or its head or its body is not as it has to be.
    #[error("bad request")]
    BadRequest,
    /// It names another host than the machine itself.
    #[error("misdirected request")]
    Misdirected,
    /// There is nothing of this path.
    #[error("not found")]
    NotFound,
    /// What there is of this path is asked for by this method.
    #[error("method not allowed")]
    MethodNotAllowed(Method),
    /// It has, or tells of, more bytes than a request may have.
    #[error("request too large")]
    TooLarge,
}

/// The bytes of a request's body, by its head.
fn body_length(method: &[u8], minor: u8, known: &KnownFields) -> Result<u64, RequestFault>
    ensures { result ≡ body_length method.now minor known.now }
{
    if known.hosts != 1 && (minor != 0 || known.hosts != 0) {
        return Err(RequestFault::BadRequest);
    }
    match request_framing(MethodKind::of(method), minor, known) {
        Ok(Framing::NoBody) => Ok(0),
        Ok(Framing::Length(length)) => Ok(length),
        _ => Err(RequestFault::BadRequest),
    }
}

/// The field Host, where there is one, names the machine itself.
fn own_host(value: Option<&[u8]>) -> Result<(), RequestFault>
    ensures { result ≡ own_host (option_copied value.entry) }
{
    if is_for_own_host(value) {
        Ok(())
    } else {
        Err(RequestFault::Misdirected)
    }
}

/// So many bytes of a body, where they fit behind a head of this length.
fn within_bounds(head: usize, body: u64) -> Result<usize, RequestFault>
    ensures { result ≡ within_bounds head body }
{
    if head > MOST_BYTES || body > (MOST_BYTES - head) as u64 {
        return Err(RequestFault::TooLarge);
    }
    Ok(body as usize)
}

/// The whole body, of this length, that stands in front of the bytes.
fn whole_body(length: usize, bytes: &[u8]) -> Result<&[u8], RequestFault>
    ensures { MatchResult result (λ body. whole_body length bytes.now ≡ Ok body.now)
        (λ fault. whole_body length bytes.now ≡ Err fault) }
{
    if bytes.len() < length {
        return Err(RequestFault::Unfinished);
    }
    Ok(&bytes[..length])
}

/// What is asked for by this route and this body.
fn asked_by(route: Route, body: &[u8]) -> Result<RequestTarget, RequestFault>
    ensures { result ≡ asked_by route body.now }
{
    match route {
        Route::Page => Ok(RequestTarget::Page),
        Route::Script => Ok(RequestTarget::Script),
        Route::Style => Ok(RequestTarget::Style),
        Route::State => Ok(RequestTarget::State),
        Route::Metrics => Ok(RequestTarget::Metrics),
        Route::Health => Ok(RequestTarget::Health),
        Route::Kill => match kill_form(body) {
            Some(form) => Ok(RequestTarget::Kill(form)),
            None => Err(RequestFault::BadRequest),
        },
    }
}

/// The request whose head has these fields and parts.
#[tactic(auto, using(crate::proofs::Head_parts::all_within))]
fn behind_head(
    bytes: &[u8],
    fields: &[HeaderSpan],
    head: &RequestSpans,
) -> Result<Request, RequestFault>
    requires within { IsRequestWithin bytes.now fields.now head.now }
    requires all { head.now.headers ≡ length fields.now }
    ensures { result ≡ request_in (parts_at bytes.now fields.now head.now)
        (drop head.now.len bytes.now) }
{
    let method = head.method.of(bytes);
    let known = KnownFields::from_spans(bytes, fields);
    let told = body_length(method, head.version, &known)?;
    own_host(value_named(bytes, fields, b"Host"))?;
    let length = within_bounds(head.len, told)?;
    let route = routed(method, head.path.of(bytes))?;
    let body = whole_body(length, &bytes[head.len..])?;
    Ok(Request {
        caller: credentials_in(bytes, fields),
        asked: asked_by(route, body)?,
    })
}

/// The request that stands in front of the bytes. It takes no memory.
///
/// # Errors
///
/// `Unfinished` where more bytes may make them a request; each other fault is final.
pub fn read_request(bytes: &[u8]) -> Result<Request, RequestFault>
    ensures begun { (h : RequestHead) (rest : List ℕ) → BeginWith bytes.now h rest
        → result ≡ request_of h rest }
    ensures read { IsReadAs bytes.now result }
    ensures own { OnOk result (IsForOwnHost bytes.now) }
{
    let mut fields = [EMPTY_HEADER_SPAN; MOST_FIELDS];
    match parse_request(bytes, &mut fields) {
        Ok(Status::Complete(head)) => behind_head(bytes, &fields[..head.headers], &head),
        Ok(Status::Partial) if bytes.len() < MOST_BYTES => Err(RequestFault::Unfinished),
        Ok(Status::Partial) => Err(RequestFault::TooLarge),
        Err(_) => Err(RequestFault::BadRequest),
    }
}
