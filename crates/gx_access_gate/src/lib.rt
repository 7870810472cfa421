//! What a gate is asked and what it answers: outcomes, the answer to a login, reports that were pulled, and why a step
//! was refused. Their definitions speak of a policy and the records of a day under it, so that whoever asks a gate is
//! proved over any that keeps [`AccessGate`]'s contract.
#![tactic(auto)]

mod access;
mod asking;
mod outcome;
mod pulled;

pub use access::AccessGate;
pub use asking::asked;
pub use outcome::{LoginAnswer, Outcome, StepFault, record_of, record_of_match};
pub use pulled::{Pulled, Reached, Reports, count_of};
