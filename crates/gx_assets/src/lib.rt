//! What the risk desk's page is made of, as a browser gets it: the page, its script and its style sheet.
//!
//! A browser takes script and style from the page's own server alone, so nothing of either stands in the page itself. All three
//! are written by hand, in ASCII.
#![tactic(auto)]

mod css;
mod html;
mod javascript;

pub use css::style;
pub use html::page;
pub use javascript::script;
