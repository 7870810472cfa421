//! The rules, judged on facts and figures that the caller hands in.
//!
//! [`RuleBook::first_forbidding`] asks in the written order: the built-in rules L, G, I and P, then the rules of the
//! policy file in the file's order, then the built-in rules Q.
#![tactic(auto)]

mod book_rule;
mod built_in;
mod file_rule;
mod laws;
mod order;
mod request;
mod rule_book;
mod rule_places;
mod terms;

pub use laws::{a_setting_changes_no_name, other_rules_stay, rules_after_one_more};
pub use rule_book::RuleBook;
