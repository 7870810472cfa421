//! Laws of the definitions, each as what a function without a body ensures.

ghost use Rattle.gx_trading_status.specs.Laws.{DaysBegin, DaysGoOn, EndsAreKept, KillsAreKept, LinesAreKept, MomentsAreKept};

/// Before any record nobody is logged in, no account is killed, the day is open, and its moment is 0.
pub fn a_day_begins()
    ensures { DaysBegin }
{}

/// What one more record does is done to the day: a Login, a Logout, a Kill, a Lift or a Close Day changes it, and any record
/// sets the moment. This holds of every list of records, legal or not.
pub fn days_go_on()
    ensures { DaysGoOn }
{}

/// What is kept answers for every user and every account, known or not, as the records of a legal day do.
pub fn what_is_kept_answers()
    ensures lines { LinesAreKept }
    ensures kills { KillsAreKept }
    ensures end { EndsAreKept }
    ensures moment { MomentsAreKept }
{}
