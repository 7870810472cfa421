//! Lines, kills, the day's end and the clock, as they are now.

ghost use Rattle.std.specs.{Option.option_map_or, Prelude.{◌≡◌, IfOk, Some, None, false, not, option_map}};
ghost use Rattle.gx_policy.specs.declared.policy.Lifters.TheVariants.{Two};
ghost use Rattle.gx_history.specs.InForce.{has_lifted, is_untouched, kill_after};
ghost use Rattle.gx_trading_status.specs.{StatusData.{at_moment, kill_in, killed_in, line_in, with_user_line, with_mark}, InForce.{day_commanded, status_moved, fresh_status, fresh_kills, fresh_lines}, View.{kills_of, lifted_by, lines_of}};

use gx_desk::Action;
use gx_history::moves::Move;
use gx_index::get_near;
use gx_policy::{Lifters, Policy};
use gx_units::{AccountName, Moment, OutOfMemory, UserName};
use indexmap::IndexMap;
use std::alloc::Global;
use std::marker::Model;

/// A Kill that is in force.
#[derive(Clone, Copy, PartialEq, Eq)]
pub enum Kill {
    /// Nobody has lifted the account since.
    Whole,
    /// This officer has lifted it since, and another has to.
    LiftedBy(UserName),
}

impl Kill {
    /// What a Lift by the officer leaves of it.
    fn lifted(self, lifters: Lifters, officer: UserName) -> Option<Kill>
        ensures { option_map lifted_by result
            ≡ kill_after lifters (Some (Some officer)) (Some (lifted_by self)) }
    {
        match lifters {
            Lifters::One => None,
            Lifters::Two => self.lifted_by_one_of_two(officer),
        }
    }

    fn lifted_by_one_of_two(self, officer: UserName) -> Option<Kill>
        ensures { option_map lifted_by result
            ≡ kill_after Two (Some (Some officer)) (Some (lifted_by self)) }
    {
        match self {
            Kill::Whole => Some(Kill::LiftedBy(officer)),
            Kill::LiftedBy(other) if other == officer => Some(self),
            Kill::LiftedBy(_) => None,
        }
    }
}

/// Who is logged in on which line, which accounts are killed, whether the day is closed, and the moment of the last
/// record. It knows the users and the accounts of one policy, and takes memory only when it is made.
#[derive(Drop)]
pub struct TradingStatus {
    lifters: Lifters,
    lines: IndexMap<UserName, Option<u16>>,
    kills: IndexMap<AccountName, Option<Kill>>,
    closed: bool,
    moment: Moment,
}

impl Model for TradingStatus {
    ghost use Rattle.gx_trading_status.specs.StatusData.{TradingStatusData};
    ghost use Rattle.gx_trading_status.specs.View.{day_of};

    ghost Value = { TradingStatusData };

    ghost view = { λ day. day_of day.lifters day.lines.entries day.kills.entries day.closed day.moment };
}

fn no_lines(alloc: Global, policy: &Policy) -> Result<IndexMap<UserName, Option<u16>>, OutOfMemory>
    ensures { IfOk result (λ lines. lines_of lines.entries ≡ fresh_lines policy.now) }
{
    // What this ensures: no two users have one name.
    let _ = policy.rules();
    let mut lines = IndexMap::with_capacity(alloc, policy.users().len())?;
    for user in policy.users() {
        lines.insert(user.name, None)?;
    }
    Ok(lines)
}

fn no_kills(
    alloc: Global,
    policy: &Policy,
) -> Result<IndexMap<AccountName, Option<Kill>>, OutOfMemory>
    ensures { IfOk result (λ kills. kills_of kills.entries ≡ fresh_kills policy.now) }
{
    // What this ensures: no two accounts have one name.
    let _ = policy.rules();
    let mut kills = IndexMap::with_capacity(alloc, policy.accounts().len())?;
    for account in policy.accounts() {
        kills.insert(account.name, None)?;
    }
    Ok(kills)
}

fn marked(lifters: Lifters, mark: Option<UserName>, kill: Option<Kill>) -> Option<Kill>
    ensures { option_map lifted_by result
        ≡ kill_after lifters (Some mark) (option_map lifted_by kill) }
{
    match mark {
        None => Some(Kill::Whole),
        Some(officer) => kill?.lifted(lifters, officer),
    }
}

impl TradingStatus {
    /// The day before any record: nobody is logged in, no account is killed, the day is open, and its moment is 0.
    ///
    /// `OutOfMemory`: there is no memory for the names of the policy's users and accounts.
    pub fn new(alloc: Global, policy: &Policy) -> Result<TradingStatus, OutOfMemory>
        ensures { IfOk result (λ day. day ≡ fresh_status policy.now) }
    {
        let lines = no_lines(alloc, policy)?;
        let kills = no_kills(alloc, policy)?;
        Ok(TradingStatus {
            lifters: policy.lifters(),
            lines,
            kills,
            closed: false,
            moment: 0,
        })
    }

    /// The line that the user is logged in on, who is looked for at this place of the policy's users first. None where
    /// he is on none, or is not known. Takes no memory.
    #[inline(always)]
    pub fn line_of(&self, user: UserName, near: usize) -> Option<u16>
        ensures { result ≡ line_in self.now user }
    {
        *get_near(&self.lines, near, user)?
    }

    fn kill_of(&self, account: AccountName, near: usize) -> Option<Kill>
        ensures { option_map lifted_by result ≡ kill_in self.now account }
    {
        *get_near(&self.kills, near, account)?
    }

    /// Whether the account is killed, which is looked for at this place of the policy's accounts first; false where it
    /// is not known. Takes no memory.
    pub fn is_killed(&self, account: AccountName, near: usize) -> bool
        ensures { result ≡ killed_in self.now account }
    {
        self.kill_of(account, near).is_some()
    }

    /// Whether a Kill of the account would change anything: it is not killed, or somebody has lifted it since. Takes
    /// no memory.
    pub fn kill_changes(&self, account: AccountName) -> bool
        ensures { result ≡ not (is_untouched (kill_in self.now account)) }
    {
        match self.kill_of(account, 0) {
            Some(Kill::Whole) => false,
            Some(Kill::LiftedBy(_)) => true,
            None => true,
        }
    }

    /// Whether a Lift of the account by the officer would change anything: it is killed, and he has not lifted it
    /// since. Takes no memory.
    pub fn lift_changes(&self, account: AccountName, officer: UserName) -> bool
        ensures { result ≡ option_map_or (λ officers. not (has_lifted officer officers))
            (kill_in self.now account) false }
    {
        match self.kill_of(account, 0) {
            Some(Kill::Whole) => true,
            Some(Kill::LiftedBy(other)) => other != officer,
            None => false,
        }
    }

    /// Whether the day is closed. Takes no memory.
    pub fn is_closed(&self) -> bool
        ensures { result ≡ self.now.closed }
    {
        self.closed
    }

    /// The moment of the last record, in nanoseconds past midnight; 0 before any. Takes no memory.
    pub fn last_moment(&self) -> Moment
        ensures { result ≡ self.now.moment }
    {
        self.moment
    }

    fn put_on(&mut self, user: UserName, line: Option<u16>)
        ensures { self.new ≡ with_user_line user line self.old }
    {
        let Some(place) = self.lines.get_mut(&user) else {
            return;
        };
        *place = line;
    }

    /// Records a Kill, or a Lift by this officer.
    fn mark(&mut self, account: AccountName, mark: Option<UserName>)
        ensures { self.new ≡ with_mark account mark self.old }
    {
        let lifters = self.lifters;
        let Some(place) = self.kills.get_mut(&account) else {
            return;
        };
        *place = marked(lifters, mark, *place);
    }

    /// Kills an account, counts the officer among those who have lifted it, or closes the day.
    fn command(&mut self, officer: UserName, action: &Action)
        ensures { self.new ≡ day_commanded officer action.now self.old }
    {
        match *action {
            Action::Kill(account) => self.mark(account, None),
            Action::Lift(account) => self.mark(account, Some(officer)),
            Action::CloseDay => self.closed = true,
            _ => {}
        }
    }

    /// Does to the day what a record does, and sets its moment, in nanoseconds past midnight. A Login or Logout puts its
    /// user on a line or on none. A Kill kills its account: whoever has lifted it before does not count any more. A Lift
    /// counts its officer among those who have lifted the account, which is killed no longer once they are as many as the
    /// policy asks for. A Close Day closes it. A name that is not known changes nothing, and nor does any other record.
    /// Takes no memory.
    pub fn apply(&mut self, m: &Move, moment: Moment)
        ensures { self.new ≡ at_moment moment (status_moved m.now self.old) }
    {
        self.moment = moment;
        match m {
            Move::PutsOn(user, line) => self.put_on(*user, *line),
            Move::Commands(officer, c) => self.command(*officer, &c.action),
            _ => {}
        }
    }

    /// Lets it go. Its drop is proved here once, and not in each crate that owns one.
    pub fn release(self) {}
}
