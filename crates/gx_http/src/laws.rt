//! What is so of all responses, as what functions without a body ensure.

ghost use Rattle.gx_http.specs.Laws.{ResponsesReadBack};

/// A reader of HTTP finds in a response its status, its fields and the length of its body, and behind its head the body and
/// nothing else.
#[tactic(auto, using(crate::proofs::Response_read::responses_read_back))]
pub fn responses_read_back()
    ensures { ResponsesReadBack }
{}
