//! A response, as bytes.

ghost use Rattle.std.specs.Prelude.{◌≡◌, ◌++◌, length, OnErr, OnOk, option_map};
ghost use Rattle.http1.specs.Head.{header_parts, pairs};
ghost use Rattle.gx_http.specs.Responses.{code_of, common_fields, head_bytes, media_type, own_field, reason_of, response_bytes, status_of};

use crate::request::RequestFault;
use crate::routes::Method;
use gx_units::OutOfMemory;
use http1::Header;
use http1::head::write_response as write_response_head;
use itoa::Buffer;

/// What becomes of a request.
#[derive(Clone, Copy, PartialEq, Eq)]
pub enum Status {
    /// It is answered.
    Done,
    /// What was asked for was done, and the page shows it.
    SeePage,
    /// It is no request.
    BadRequest,
    /// A name and a password are asked for.
    Unauthorized,
    /// The user may not ask for this, or the page's token is not with it.
    Forbidden,
    /// There is nothing of this path.
    NotFound,
    /// It has to be asked for by this method.
    MethodNotAllowed(Method),
    /// It has too many bytes.
    TooLarge,
    /// It names another host than the machine itself.
    Misdirected,
    /// It cannot be answered now.
    Unavailable,
}

/// What a response's body is.
#[derive(Clone, Copy, PartialEq, Eq)]
pub enum Content {
    /// A page.
    Page,
    /// A page's script.
    Script,
    /// A page's style sheet.
    Style,
    /// JSON.
    Json,
    /// Figures, as a Prometheus server reads them.
    Metrics,
    /// A text.
    Text,
}

impl Status {
    /// The status code.
    pub fn code(self) -> u16
        ensures { result ≡ code_of self }
    {
        match self {
            Status::Done => 200,
            Status::SeePage => 303,
            Status::BadRequest => 400,
            Status::Unauthorized => 401,
            Status::Forbidden => 403,
            Status::NotFound => 404,
            Status::MethodNotAllowed(_) => 405,
            Status::TooLarge => 413,
            Status::Misdirected => 421,
            Status::Unavailable => 503,
        }
    }

    /// The words behind the code.
    fn reason(self) -> &'static [u8]
        ensures { result.now ≡ reason_of self }
    {
        match self {
            Status::Done => b"OK",
            Status::SeePage => b"See Other",
            Status::BadRequest => b"Bad Request",
            Status::Unauthorized => b"Unauthorized",
            Status::Forbidden => b"Forbidden",
            Status::NotFound => b"Not Found",
            Status::MethodNotAllowed(_) => b"Method Not Allowed",
            Status::TooLarge => b"Content Too Large",
            Status::Misdirected => b"Misdirected Request",
            Status::Unavailable => b"Service Unavailable",
        }
    }

    /// The field that responses of this status have, and no others.
    fn own_field(self) -> Option<Header<'static>>
        ensures { option_map header_parts result ≡ own_field self }
    {
        let (name, value): (&'static [u8], &'static [u8]) = match self {
            Status::SeePage => (b"Location", b"/"),
            Status::Unauthorized => (
                b"WWW-Authenticate",
                b"Basic realm=\"Boskurige\", charset=\"UTF-8\"",
            ),
            Status::MethodNotAllowed(method) => (b"Allow", method.text()),
            _ => return None,
        };
        Some(Header { name, value })
    }
}

impl RequestFault {
    /// The status of the answer to bytes that are no request, once no more of them come.
    pub fn status(self) -> Status
        ensures { result ≡ status_of self }
    {
        match self {
            RequestFault::Unfinished | RequestFault::BadRequest => Status::BadRequest,
            RequestFault::Misdirected => Status::Misdirected,
            RequestFault::NotFound => Status::NotFound,
            RequestFault::MethodNotAllowed(method) => Status::MethodNotAllowed(method),
            RequestFault::TooLarge => Status::TooLarge,
        }
    }
}

impl Content {
    /// What the body is, in the words of HTTP.
    fn media_type(self) -> &'static [u8]
        ensures { result.now ≡ media_type self }
    {
        match self {
            Content::Page => b"text/html; charset=utf-8",
            Content::Script => b"text/javascript; charset=utf-8",
            Content::Style => b"text/css; charset=utf-8",
            Content::Json => b"application/json",
            Content::Metrics => b"text/plain; version=0.0.4; charset=utf-8",
            Content::Text => b"text/plain; charset=utf-8",
        }
    }
}

/// The fields that each response has: the last but two say what a browser may do with a page.
fn common_fields<'a>(content: Content, length: &'a [u8]) -> [Header<'a>; 7]
    ensures { pairs result ≡ common_fields content length.now }
{
    [
        Header {
            name: b"Content-Type",
            value: content.media_type(),
        },
        Header {
            name: b"Content-Length",
            value: length,
        },
        Header {
            name: b"Cache-Control",
            value: b"no-store",
        },
        Header {
            name: b"Connection",
            value: b"close",
        },
        Header {
            name: b"Content-Security-Policy",
            value: b"default-src 'none'; script-src 'self'; style-src 'self'; connect-src 'self'; img-src data:; form-action 'self'; base-uri 'none'; frame-ancestors 'none'",
        },
        Header {
            name: b"X-Content-Type-Options",
            value: b"nosniff",
        },
        Header {
            name: b"Referrer-Policy",
            value: b"no-referrer",
        },
    ]
}

/// Puts the head of a response whose body has so many bytes at the end of the text.
fn write_head(
    text: &mut Vec<u8>,
    status: Status,
    content: Content,
    length: usize,
) -> Result<(), OutOfMemory>
    ensures written { OnOk result
        (text.new.items ≡ text.old.items ++ head_bytes status content length) }
    ensures refused { OnErr result (text.new.items ≡ text.old.items) }
{
    let mut digits = Buffer::new();
    let common = common_fields(content, digits.format(length as u64).as_bytes());
    let written = match status.own_field() {
        Some(own) => write_response_head(text, 1, status.code(), status.reason(), &common, &[own]),
        None => write_response_head(text, 1, status.code(), status.reason(), &common, &[]),
    };
    match written {
        Ok(()) => Ok(()),
        Err(_) => Err(OutOfMemory),
    }
}

/// Puts a response at the end of the text. Each response ends its connection.
///
/// # Errors
///
/// `OutOfMemory` where memory was refused; then the text is as it was.
pub fn write_response(
    text: &mut Vec<u8>,
    status: Status,
    content: Content,
    body: &[u8],
) -> Result<(), OutOfMemory>
    ensures written { OnOk result
        (text.new.items ≡ text.old.items ++ response_bytes status content body.now) }
    ensures refused { OnErr result (text.new.items ≡ text.old.items) }
{
    let start = text.len();
    write_head(text, status, content, body.len())?;
    if text.extend_from_slice(body).is_err() {
        text.truncate(start);
        return Err(OutOfMemory);
    }
    Ok(())
}
