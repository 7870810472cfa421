//! What a user is shown of the gate's answers: a line each, of words for a person, or JSON for a program.
#![tactic(auto)]

mod answers;
mod earlier;
mod json;
mod laws;
mod limits;
mod orders;
mod showing;

pub use answers::answer_line;
pub use earlier::earlier_answer_line;
pub use laws::{lines_are_whole, names_are_visible};
pub use limits::{LimitForm, meanings_line, no_money_line, question_line};
pub use orders::{copy_line, order_line};
