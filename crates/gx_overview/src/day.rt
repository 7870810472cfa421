//! How far the day is, what is left of it, and who is logged in.

ghost use Rattle.std.specs.Prelude.{◌≡◌, ◌-◌, map, IfOk};
ghost use Rattle.gx_pass.specs.Views.{highest_line};
ghost use Rattle.gx_overview.specs.Rules.{day_row, user_row};

use gx_history::records::Records;
use gx_pass::{LAST_LINE, line_in};
use gx_policy::User;
use gx_records::{ShowsRecords, ShowsState};
use gx_units::{Moment, OutOfMemory, UserName};
use std::alloc::Global;

/// The records that a day may have.
const MOST_RECORDS: u64 = 16_777_216;

/// How far a day is.
#[derive(Clone, Copy, PartialEq, Eq)]
pub struct DayRow {
    /// How many records it has.
    pub records: u64,
    /// How many more it may have; a Kill and a Logout may come behind them.
    pub left: u64,
    /// That of the last record, in nanoseconds past midnight; 0 where there is none.
    pub moment: Moment,
    /// A Close Day was granted.
    pub is_closed: bool,
}

/// Whether a user is logged in.
#[derive(Clone, Copy, PartialEq, Eq)]
pub struct UserRow {
    /// The name in upper case.
    pub user: UserName,
    /// The line that he is logged in on; None where he is not.
    pub line: Option<u16>,
}

/// How far the day is.
pub fn day_row<G: ShowsState>(gate: &G) -> DayRow
    ensures row { result ≡ day_row (G.state gate.now).records }
{
    let records = gate.length();
    DayRow {
        records,
        left: MOST_RECORDS.saturating_sub(records),
        moment: gate.moment_of_last(),
        is_closed: gate.is_day_closed(),
    }
}

/// The highest line of these records, 0 where none has one.
#[tactic(auto, using(crate::proofs::Pass_next::most_of_one_more))]
fn highest_line(records: &Records<'_>) -> u16
    ensures { result ≡ highest_line records.now }
{
    let mut highest = 0;
    for place in 0..records.len() {
        highest = highest.max(line_in(&records.at(place).content()));
    }
    highest
}

/// How many lines are left: each connection of a server, in all the runs of its day, has one above those before it, and the
/// last is 65,535.
pub fn lines_left<G: ShowsRecords>(gate: &G) -> u16
    ensures { result ≡ 65535 - highest_line (G.state gate.now).records }
{
    LAST_LINE - highest_line(&gate.shown_records())
}

fn user_row<G: ShowsState>(gate: &G, user: &User) -> UserRow
    ensures { result ≡ user_row (G.state gate.now).records user.now }
{
    UserRow {
        user: user.name,
        line: gate.on(user.name),
    }
}

fn user_rows_of<G: ShowsState>(
    alloc: Global,
    gate: &G,
    users: &[User],
) -> Result<Vec<UserRow>, OutOfMemory>
    ensures { IfOk result (λ rows. rows.items ≡ map
        (user_row (G.state gate.now).records) users.now) }
{
    let mut rows = Vec::new(alloc);
    for user in users {
        rows.push(user_row(gate, user))?;
    }
    Ok(rows)
}

/// Whether each user of the policy is logged in, in the file's order.
///
/// # Errors
///
/// `OutOfMemory` where the rows were refused their memory.
pub fn user_rows<G: ShowsState>(alloc: Global, gate: &G) -> Result<Vec<UserRow>, OutOfMemory>
    ensures rows { IfOk result (λ rows. rows.items ≡ map
        (user_row (G.state gate.now).records) (G.state gate.now).policy.users) }
{
    user_rows_of(alloc, gate, gate.policy().users())
}
