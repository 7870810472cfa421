//! A policy, as data: what a policy file says of accounts, stocks, users and rules; and the names of the rules.
#![tactic(auto)]

mod copies;
mod kinds;
mod people;
mod policy;
mod rule_name;

pub use kinds::{
    ExposureLimit, FIRST_KINDS, FIRST_KINDS_TOLD, KIND_WORDS, KINDS_TOLD, KindName, ListKind,
    OrderLimit, PlainKind,
};
pub use policy::{
    Account, AccountNames, Accounts, Count, FileRule, FileRules, Lifters, Policy, PolicyData,
    Powers, Rate, Repeat, Role, RuleKind, Scope, Stock, Stocks, Symbols, User, Users,
};
pub use rule_name::{BUILT_IN, RuleName, is_built_in};
