//! A reply, as bytes.

ghost use Rattle.std.specs.Prelude.{◌≡◌, IfOk};
ghost use Rattle.gx_status.specs.Viewers.{page_text};
ghost use Rattle.gx_http.specs.Responses.{response_bytes};
ghost use Rattle.gx_http.specs.declared.response.Content.TheVariants as contents;
ghost use Rattle.gx_http.specs.declared.response.Status.TheVariants as statuses;
ghost use Rattle.gx_page.specs.Responses.{figures_told, IsResponse, notice_bytes, viewer_told};

use crate::notice::Notice;
use crate::reply::PageReply;
use gx_assets::{page, script, style};
use gx_board::BoardView;
use gx_button::{Secret, has_power};
use gx_http::{Content, Status, write_response};
use gx_policy::Policy;
use gx_status::{ServerFigures, Viewer, append_figures, append_page, append_server_figures};
use gx_units::{OutOfMemory, UserName};
use std::alloc::Global;

/// A response with this body.
fn respond(
    alloc: Global,
    status: Status,
    content: Content,
    body: &[u8],
) -> Result<Vec<u8>, OutOfMemory>
    ensures { IfOk result (λ text. text.items ≡ response_bytes status content body.now) }
{
    let mut text = Vec::new(alloc);
    write_response(&mut text, status, content, body)?;
    Ok(text)
}

/// A line of text, as a response.
pub(crate) fn notice_response(alloc: Global, notice: Notice) -> Result<Vec<u8>, OutOfMemory>
    ensures { IfOk result (λ text. text.items ≡ notice_bytes notice) }
{
    respond(alloc, notice.status(), Content::Text, notice.words())
}

/// What a page is told of this user and of its server.
fn viewer_told(policy: &Policy, secret: &Secret, about: ServerFigures, user: UserName) -> Viewer
    ensures { result ≡ viewer_told policy.now secret.now.bytes about user }
{
    let token = secret.token(user);
    let bytes = token.bytes;
    Viewer {
        user,
        may_kill: has_power(policy, user),
        token: bytes,
        server: about,
    }
}

/// What the user is shown, as a response.
fn state_response(alloc: Global, view: &BoardView, viewer: &Viewer) -> Result<Vec<u8>, OutOfMemory>
    ensures { IfOk result (λ text. text.items
        ≡ response_bytes statuses.Done contents.Json (page_text view.now viewer.now)) }
{
    let mut body = Vec::new(alloc);
    append_page(&mut body, view, viewer)?;
    respond(alloc, Status::Done, Content::Json, body.as_slice())
}

/// The figures of what he is shown, and of the server, as a response.
fn metrics_response(
    alloc: Global,
    view: &BoardView,
    about: ServerFigures,
) -> Result<Vec<u8>, OutOfMemory>
    ensures { IfOk result (λ text. text.items
        ≡ response_bytes statuses.Done contents.Metrics (figures_told view.now about)) }
{
    let mut body = Vec::new(alloc);
    append_figures(&mut body, view)?;
    append_server_figures(&mut body, &about)?;
    respond(alloc, Status::Done, Content::Metrics, body.as_slice())
}

/// A reply, as a response.
///
/// # Errors
///
/// `OutOfMemory` where memory was refused.
pub(crate) fn response(
    alloc: Global,
    policy: &Policy,
    secret: &Secret,
    about: ServerFigures,
    reply: &PageReply,
) -> Result<Vec<u8>, OutOfMemory>
    ensures { IfOk result (λ text. IsResponse
        policy.now secret.now.bytes about reply.now text.items) }
{
    match reply {
        PageReply::Page => respond(alloc, Status::Done, Content::Page, page()),
        PageReply::Script => respond(alloc, Status::Done, Content::Script, script()),
        PageReply::Style => respond(alloc, Status::Done, Content::Style, style()),
        PageReply::State(user, view) => {
            state_response(alloc, view, &viewer_told(policy, secret, about, *user))
        }
        PageReply::Metrics(_, view) => metrics_response(alloc, view, about),
        PageReply::Health(health) => notice_response(alloc, Notice::of_health(*health)),
        PageReply::Stranger => notice_response(alloc, Notice::Stranger),
        PageReply::Kill(done, _) => notice_response(alloc, Notice::of_kill(done)),
    }
}
