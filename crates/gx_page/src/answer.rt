//! A request is answered.

ghost use Rattle.std.specs.Prelude.{◌≡◌, IfOk};
ghost use mathlib.Core.List.{IsPrefix};
ghost use Rattle.gx_page.specs.Answers.{is_stranger, IsAnswered, IsTold};

use crate::notice::Notice;
use crate::reply::{PageReply, reply_to};
use crate::response::{notice_response, response};
use gx_board::Board;
use gx_button::{Refusal, Secret};
use gx_door::{Dial, Door};
use gx_http::Request;
use gx_policy::Policy;
use gx_records::{ShowsRecords, ShowsState};
use gx_serve::Announces;
use gx_status::ServerFigures;
use gx_units::OutOfMemory;
use std::alloc::Global;
use std::sync::Wait;

/// What a request is answered.
#[derive(Drop)]
pub(crate) struct HttpAnswer {
    /// The bytes of the response.
    pub(crate) text: Vec<u8>,
    /// Whether it asks for what is an officer's or a reader's, and has not the name and the password of one.
    pub(crate) is_stranger: bool,
}

/// Whether the request has not the name and the password that it needs.
fn is_stranger(reply: &PageReply) -> bool
    ensures { result ≡ is_stranger reply.now }
{
    matches!(
        reply,
        PageReply::Stranger | PageReply::Kill(Err(Refusal::Unauthorized), _)
    )
}

/// What is told of a reply: nothing but that it can't be kept, where it can't.
fn response_if_kept(
    alloc: Global,
    is_kept: bool,
    policy: &Policy,
    secret: &Secret,
    about: ServerFigures,
    reply: &PageReply,
) -> Result<Vec<u8>, OutOfMemory>
    ensures { IfOk result (λ text. IsTold is_kept
        policy.now secret.now.bytes about reply.now text.items) }
{
    if is_kept {
        response(alloc, policy, secret, about, reply)
    } else {
        notice_response(alloc, Notice::Unkept)
    }
}

/// Answers a request, once all records are kept that the board's pass has met: the answer tells of no others. A kill makes steps
/// on the line of the board's pass; nothing else makes any.
///
/// # Errors
///
/// `OutOfMemory` where memory was refused for the answer.
pub(crate) fn answer_to<
    T: Drop,
    D: Door<Pass = T>,
    G: ShowsRecords + ShowsState,
    R: Wait + Dial + Announces,
>(
    rt: &R,
    alloc: Global,
    door: &D,
    policy: &Policy,
    secret: &Secret,
    about: ServerFigures,
    board: Board<D, G>,
    request: &Request,
) -> (Board<D, G>, Result<HttpAnswer, OutOfMemory>)
    requires policy { policy.now ≡ D.policy }
    ensures later { IsPrefix board.front result.0.front }
    ensures answer { IfOk result.1
        (IsAnswered D.kept D.policy secret.now.bytes about board result.0 request.now) }
{
    let (board, reply) = reply_to(rt, alloc, door, policy, secret, board, request);
    let reply = match reply {
        Ok(reply) => reply,
        Err(refused) => return (board, Err(refused)),
    };
    let mut board = board;
    let count = board.length(door);
    let is_kept = door.keep(rt, count);
    match response_if_kept(alloc, is_kept, policy, secret, about, &reply) {
        Ok(text) => {
            let is_stranger = is_stranger(&reply);
            (board, Ok(HttpAnswer { text, is_stranger }))
        }
        Err(refused) => (board, Err(refused)),
    }
}
