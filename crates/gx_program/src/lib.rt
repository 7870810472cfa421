//! What every command of the program `gate` stands on, with no gate: what it is asked, which files and streams it opens, and
//! what it tells when it gives up.
//!
//! - `arguments`: what the command line asks for;
//! - `streams`: the standard streams, of which none may be missing;
//! - `files`, `growing`: the files that the arguments name, and one that another program writes;
//! - `limits`: what the system limits a process to;
//! - `output`: a writer that is written to in pieces;
//! - `policies`: the policy of a run, and what is told of a policy file;
//! - `ending`: why the program gave up.
#![tactic(auto)]

mod arguments;
mod ending;
mod files;
mod growing;
mod limits;
mod output;
mod policies;
mod streams;

pub use arguments::{asked_of, tell_bad_word, words_of};
pub use ending::{Failure, Resource, print, tell, tell_in, write_failure};
pub use files::{
    Content, Named, bytes_of, expected_of, file_named, identity_of, look_before, read_file,
    refused, tell_apart,
};
pub use growing::{MOVED, PIECE, go_to, length_named, read_once};
pub use limits::{longest_file, most_descriptors};
pub use output::held_back;
pub use policies::{policy_file, policy_of, print_for_desk, print_migrated, tell_policy};
pub use streams::{NULL, StandIns};
