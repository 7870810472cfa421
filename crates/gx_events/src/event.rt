//! What a log tells.

use crate::limits::RuleLimit;
use gx_desk::Action;
use gx_policy::RuleName;
use gx_units::UserName;

/// What the log tells of a record.
#[derive(Clone, Copy, PartialEq, Eq)]
pub enum Event {
    /// A login of the user on the line is granted.
    LoggedIn(UserName, u16),
    /// A logout of the user on the line is granted.
    LoggedOut(UserName, u16),
    /// A login of the user on the line is denied by the rule: the first within its minute.
    LoginDenied(UserName, u16, RuleName),
    /// So many more logins were denied within this minute. It is told with the first record of another minute.
    MoreDenied(u64, u64),
    /// A command of the user is granted. Of a Set Limit it has the rule with the limit in force before.
    Commanded(UserName, Action, Option<RuleLimit>),
    /// A command of the user is denied by the rule. Of a Set Limit it has the rule whose limit was to change, if there is one.
    CommandDenied(UserName, Action, RuleName, Option<RuleLimit>),
    /// So many hundredths of the day's records are used, and so many records are left.
    RecordsUsed(u64, u64),
    /// So many hundredths of the day's lines are used, and so many lines are left.
    LinesUsed(u64, u64),
}
