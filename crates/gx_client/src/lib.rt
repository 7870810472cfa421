//! A client's side of the two protocols: what the gate writes is read, and what the gate reads is written. No socket
//! stands here.
//!
//! A `ServerFeeder` cuts what a server sends into packets, in whatever pieces it comes. A `ClientSession` tells what each
//! packet is, and numbers the reports; `read_report` reads what one carries. What a client sends is written by
//! `ClientSession::login_packet`, `command_packet`, `inbound_packet`, `heartbeat_packet` and `logout_packet`.
#![tactic(auto)]

mod feeder;
mod front;
mod heard;
mod laws;
mod letters;
mod reading;
mod report;
mod sending;
mod session;
mod writing;

pub use feeder::{ServerFed, ServerFeeder};
pub use front::ServerFault;
pub use heard::{Heard, Stage};
pub use laws::{
    kinds_are_told_apart, little_is_held_back, messages_are_told_apart, nothing_follows_a_fault,
    others_are_passed_over, over_is_over, packets_are_read_back, packets_grow,
    reports_are_numbered, what_is_sent_is_heard,
};
pub use reading::{Stamped, read_answer, read_drop_copy, read_outbound};
pub use report::{Report, read_report};
pub use sending::{command_packet, heartbeat_packet, inbound_packet, logout_packet};
pub use session::ClientSession;
pub use writing::{write_command, write_inbound};
