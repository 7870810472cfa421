//! The risk desk's page, as it is served: what becomes of each request, and a connection from its first byte to its last.
//!
//! - `viewer`: who asks;
//! - `reply`: what becomes of a request;
//! - `notice`: what is said of it, where that is a line of text;
//! - `response`: a reply, as bytes;
//! - `answer`: a request is answered;
//! - `visit`: what comes on a connection, and what goes out on it;
//! - `guest`: a connection from its first byte to its last;
//! - `serving`: the one thread that serves them all.
#![tactic(auto)]

mod answer;
mod guest;
mod notice;
mod reply;
mod response;
mod serving;
mod viewer;
mod visit;

pub use notice::Notice;
pub use reply::{Health, PageReply};
pub use serving::{PageServer, serve_page};
