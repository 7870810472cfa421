//! What stands in a day, as JSON: what the page and the program tell of it in the same bytes.
//!
//! - `parts`: numbers, names and moments as members of an object;
//! - `rows`: a user and a command, as objects.
#![tactic(auto)]

mod parts;
mod rows;

pub use parts::{
    append_bool_member, append_count_member, append_first_key, append_first_name,
    append_first_number, append_integer_member, append_key, append_name_member,
    append_number_member, append_sum_member, append_time_member,
};
pub use rows::{append_command_member, append_user};
