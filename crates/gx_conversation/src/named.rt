//! What may never be answered.

ghost use Rattle.std.specs.{Prelude.{◌≡◌, is_some}, List.list_all};
ghost use Rattle.gx_conversation.specs.Waiting.{named_by, named_order};

use gx_operator::ClientRequest;
use gx_ouch::Inbound;
use gx_units::Token;

fn named_by(order: &Inbound) -> Option<Token>
    ensures { result ≡ named_by order.now }
{
    match order {
        Inbound::Enter(_) => None,
        Inbound::Replace(order) => Some(order.existing_token),
        Inbound::Cancel(order) => Some(order.token),
    }
}

/// The token of the live order that a replace or a cancel names: the gate answers neither where there is none.
pub(crate) fn named_order(asked: &ClientRequest) -> Option<Token>
    ensures { result ≡ named_order asked.now }
{
    match asked {
        ClientRequest::Command(_) => None,
        ClientRequest::Order(order) => named_by(order),
    }
}

/// Whether all of it may never be answered.
pub(crate) fn all_name_orders(waiting: &[ClientRequest]) -> bool
    ensures { result ≡ list_all (λ asked. is_some (named_order asked)) waiting.now }
{
    waiting.iter().all(|asked| named_order(asked).is_some())
}
