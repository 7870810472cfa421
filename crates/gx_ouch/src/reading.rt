//! Messages from a trader, read from bytes.

ghost use Rattle.std.specs.{Prelude.{◌≡◌, length, Some}, Int.{w32, from_be_bytes}};
ghost use Rattle.gx_ouch.specs.declared.inbound.Inbound.TheVariants as inbounds;
ghost use Rattle.gx_ouch.specs.{Layout.field_bytes, Messages.{enter_order, replace_order, cancel_order}, Reading.{inbound_of, enter_of, replace_of, cancel_of}};

use crate::inbound::{CancelOrder, EnterOrder, Inbound, ReplaceOrder};
use gx_units::{Firm, Symbol, Token};

impl Inbound {
    /// The message that these bytes are, whatever its fields hold. None where their type and length are no message's:
    /// Enter Order is `O` with 49 bytes, Replace Order `U` with 47, Cancel Order `X` with 19.
    #[tactic(auto, unfolding(crate::specs::Reading::inbound_of))]
    pub fn read(bytes: &[u8]) -> Option<Inbound>
        ensures { result ≡ inbound_of bytes.now }
    {
        match (bytes.first()?, bytes.len()) {
            (b'O', 49) => Some(Inbound::Enter(enter_order(bytes))),
            (b'U', 47) => Some(Inbound::Replace(replace_order(bytes))),
            (b'X', 19) => Some(Inbound::Cancel(cancel_order(bytes))),
            _ => None,
        }
    }
}

fn enter_order(bytes: &[u8]) -> EnterOrder
    requires { length bytes.now ≡ 49 }
    ensures { enter_of (field_bytes enter_order bytes.now) ≡ Some (inbounds.Enter result) }
{
    EnterOrder {
        token: Token {
            bytes: text(&bytes[1..15]),
        },
        side: bytes[15],
        shares: number(&bytes[16..20]),
        stock: Symbol {
            bytes: text(&bytes[20..28]),
        },
        price: number(&bytes[28..32]),
        time_in_force: number(&bytes[32..36]),
        firm: Firm {
            bytes: text(&bytes[36..40]),
        },
        display: bytes[40],
        capacity: bytes[41],
        intermarket_sweep: bytes[42],
        minimum_quantity: number(&bytes[43..47]),
        cross_type: bytes[47],
        customer_type: bytes[48],
    }
}

fn replace_order(bytes: &[u8]) -> ReplaceOrder
    requires { length bytes.now ≡ 47 }
    ensures { replace_of (field_bytes replace_order bytes.now) ≡ Some (inbounds.Replace result) }
{
    ReplaceOrder {
        existing_token: Token {
            bytes: text(&bytes[1..15]),
        },
        replacement_token: Token {
            bytes: text(&bytes[15..29]),
        },
        shares: number(&bytes[29..33]),
        price: number(&bytes[33..37]),
        time_in_force: number(&bytes[37..41]),
        display: bytes[41],
        intermarket_sweep: bytes[42],
        minimum_quantity: number(&bytes[43..47]),
    }
}

fn cancel_order(bytes: &[u8]) -> CancelOrder
    requires { length bytes.now ≡ 19 }
    ensures { cancel_of (field_bytes cancel_order bytes.now) ≡ Some (inbounds.Cancel result) }
{
    CancelOrder {
        token: Token {
            bytes: text(&bytes[1..15]),
        },
        shares: number(&bytes[15..19]),
    }
}

/// The bytes of a field.
pub fn text<const N: usize>(field: &[u8]) -> [u8; N]
    requires { length field.now ≡ N }
    ensures { result ≡ field.now }
{
    let mut bytes = [0; N];
    bytes.copy_from_slice(field);
    bytes
}

/// The number in a field of four bytes.
fn number(field: &[u8]) -> u32
    requires { length field.now ≡ 4 }
    ensures { result ≡ from_be_bytes w32 field.now }
{
    u32::from_be_bytes(text(field))
}
