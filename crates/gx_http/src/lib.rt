//! The requests that a page's server takes, and what it answers, as bytes of HTTP/1.1: no connection, no clock and no gate.
//!
//! - `request`: a request as it is read from bytes, or why bytes are none;
//! - `routes`: what may be asked for, by its path and its method;
//! - `hosts`: which hosts it may name;
//! - `credentials`: the user and the password that a request names;
//! - `forms`: the form that asks for a kill;
//! - `response`: a response, as bytes;
//! - `laws`: what is so of all that is written.
#![tactic(auto)]

mod credentials;
mod forms;
mod hosts;
mod laws;
mod request;
mod response;
mod routes;

pub use credentials::Credentials;
pub use forms::{KillForm, PageToken};
pub use laws::responses_read_back;
pub use request::{MOST_BYTES, Request, RequestFault, RequestTarget, read_request};
pub use response::{Content, Status, write_response};
pub use routes::{Method, Route};
