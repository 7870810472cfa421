//! Messages of OUCH 4.2: what a trader asks for, and what he is told.
#![tactic(auto)]

mod draft;
mod inbound;
mod laws;
mod letters;
mod outbound;
mod reading;
mod writing;

pub use draft::MessageDraft;
pub use inbound::{CancelOrder, EnterOrder, Inbound, ReplaceOrder};
pub use laws::read_messages_have_no_gaps;
pub use letters::{CancelReason, EventCode, Liquidity, RejectReason};
pub use outbound::{
    Accepted, Canceled, Executed, MESSAGE_ROOM, OrderTerms, Outbound, Rejected, Replaced,
};
pub use reading::text;
