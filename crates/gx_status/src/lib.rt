//! What the risk desk's page is told of a view, as text.
//!
//! - `listing`: rows as a JSON array;
//! - `rows`: each row of a view as a JSON object;
//! - `state`: a view as one JSON object;
//! - `viewer`: who looks at it, and what it says of its server;
//! - `metrics`: a view as a Prometheus server reads it;
//! - `limits`: limits, and what is used of net ones, likewise;
//! - `server`: what a server says of itself, likewise;
//! - `laws`: what is so of the bounds that it names.
#![tactic(auto)]

mod laws;
mod limits;
mod listing;
mod metrics;
mod rows;
mod server;
mod state;
mod viewer;

pub use laws::bounds_are_told;
pub use metrics::append_figures;
pub use server::{ServerFigures, append_server_figures};
pub use viewer::{Viewer, append_page};
