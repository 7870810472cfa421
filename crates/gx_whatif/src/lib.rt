//! A day under another policy: the steps of a day's audit, judged again under that policy, and each record whose verdict
//! changes. Whether the password of a login was right is taken from its record.
#![tactic(auto)]

mod change;
mod comparing;
mod fault;
mod heading;
pub mod laws;
mod other_day;
mod stepping;
mod telling;
mod waiting;

pub use change::VerdictChange;
pub use comparing::{WhatIf, what_if};
pub use fault::WhatIfFault;
pub use heading::{Heading, HeadingRow};
pub use telling::{append_whatif_json, append_whatif_text};
