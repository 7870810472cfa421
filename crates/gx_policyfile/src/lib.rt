//! The policy file: what a broker's staff writes, read into a policy.
#![tactic(auto)]

mod account;
mod desk;
mod known;
mod laws;
mod migrating;
mod place;
mod reading;
mod rule;
mod samples;
mod stock;
mod user;
mod version;

pub use desk::policy_for_desk;
pub use laws::{
    each_is_sound, keys_are_known, names_in_places_differ, order_is_kept, places_are_short,
};
pub use migrating::migrate;
pub use reading::{read_policy, read_version};
pub use samples::{SAMPLE, sample};
