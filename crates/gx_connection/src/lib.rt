//! A connection over any reader and any writer: its session, driven at a gate.
#![tactic(auto)]

mod asking;
mod connection;
mod fault;
mod laws;
mod pipe;
mod room;

pub use fault::PipeFault;
pub use laws::{
    faults_leave_a_front, no_order_waits, nothing_follows, silent_before_login, stream_is_sent,
    whoever_is_on_may_leave,
};
pub use pipe::{run_pipe, run_pipe_within};
