//! A server over connections in memory, driven by a scenario: its steps say what peers send, what they wait for and what the
//! clock shows. The server's own code serves the connections, at any door.
#![tactic(auto)]

mod clock;
mod connection;
mod devices;
mod driver;
mod fixture;
mod output;
mod running;
mod scenario;
mod step;
mod switches;
mod threads;

pub use clock::{ClockReads, ClockedRuntime, ScenarioClock};
pub use driver::ScenarioFailure;
pub use output::{write_failure, write_owed, write_packets};
pub use scenario::Scenario;
pub use threads::run_scenario;
