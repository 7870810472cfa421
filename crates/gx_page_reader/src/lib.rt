//! What the risk desk's page tells a program that asks for it: the request, and its answer read. No connection and no clock.
//!
//! - `request`: the request for what the page shows, as bytes;
//! - `response`: the body of the response that bytes are, or why they are none;
//! - `state`: what the body tells, as JSON;
//! - `fault`: why nothing is told.
#![tactic(auto)]

mod fault;
mod request;
mod response;
mod state;

pub use fault::PageFault;
pub use request::write_state_request;
pub use response::body_of;
pub use state::PageState;
