//! Laws of the reserved places, each as what a function without a body ensures.

ghost use Rattle.gx_laws.specs.ReservedLaws.{EnoughIsMore, ReservedReportsAreEnough, KillsTakeReservedRecords, MatchesWantNoMore, OthersWantNoMore, EnoughReservedIsEnough, MostReservedRecordsAreEnough};

/// A granted Kill or Logout finds the places for its record and for all that it tells, and leaves
/// those that are still wanted.
pub fn kills_and_logouts_are_never_refused()
    ensures told { ReservedReportsAreEnough }
    ensures recorded { KillsTakeReservedRecords }
{}

/// How many places any other record wants: so many for who asks, and no more for anybody else
/// unless it is a granted Lift or Close Day.
pub fn other_records_need_few_reserved()
    ensures enough { EnoughReservedIsEnough }
    ensures others { OthersWantNoMore }
    ensures matches { MatchesWantNoMore }
    ensures more { EnoughIsMore }
    ensures records { MostReservedRecordsAreEnough }
{}
