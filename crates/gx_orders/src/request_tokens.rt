//! The tokens of a request, and the one that a denial uses.

ghost use Rattle.std.specs.Prelude.{◌≡◌};
ghost use Rattle.gx_history.specs.Requests.{named_token, new_token};
ghost use Rattle.gx_policy.specs.RuleNames.{is_answered_rule};
ghost use Rattle.gx_orders.specs.Changes.{denied_token};

use gx_history::record::Request;
use gx_policy::RuleName;
use gx_units::Token;

/// The token that an Enter, or a Replace, asks for an order under.
pub fn new_token(request: &Request) -> Option<Token>
    ensures { result ≡ new_token request.now }
{
    match request {
        Request::Enter(m) => Some(m.token),
        Request::Replace(m) => Some(m.replacement_token),
        _ => None,
    }
}

/// The token of the order that a Replace, or a Cancel, is about.
pub fn named_token(request: &Request) -> Option<Token>
    ensures { result ≡ named_token request.now }
{
    match request {
        Request::Replace(m) => Some(m.existing_token),
        Request::Cancel(m) => Some(m.token),
        _ => None,
    }
}

/// Whether a denial by this rule is answered, and uses the token: the rules P and those of the
/// file.
fn is_answered(rule: RuleName) -> bool
    ensures { result ≡ is_answered_rule rule }
{
    match rule {
        RuleName::P1
        | RuleName::P2
        | RuleName::P3
        | RuleName::P4
        | RuleName::P5
        | RuleName::P6
        | RuleName::P7
        | RuleName::P8
        | RuleName::P9
        | RuleName::P10
        | RuleName::P11
        | RuleName::P12
        | RuleName::File(_) => true,
        _ => false,
    }
}

/// The token that a denial by this rule uses, if it uses one.
pub fn denied_token(rule: RuleName, request: &Request) -> Option<Token>
    ensures { result ≡ denied_token rule request.now }
{
    if is_answered(rule) {
        new_token(request)
    } else {
        None
    }
}
