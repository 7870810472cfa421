//! Laws of the definitions, each as what a function without a body ensures.

ghost use Rattle.gx_laws.specs.HistoryLaws.{RequestsLeaveRecords, GrantedWhereNoneForbids, DeniedByTheFirst, RequestsAreShown, LegalGoesOn, RunsAreLegal, LegalAreRuns, NumbersArePlaces, OrdersAreGrants, OrderNumbersAreWithin, TokensDiffer, AccountsAreTheUsers, StocksAreListed, LiveHaveOpen, EndedAreNotLive, TokensGrow, LinesGoOn, KillsGoOn, DaysEnd, MomentsGoOn, StreamsGrow, MasksAreExact, MasksAreWithin};

/// A request leaves a record of its verdict: granted where no rule forbids, else denied by the first that does.
pub fn requests_are_judged()
    ensures left { RequestsLeaveRecords }
    ensures granted { GrantedWhereNoneForbids }
    ensures denied { DeniedByTheFirst }
    ensures shown { RequestsAreShown }
{}

/// Legal histories are the runs of steps, and go on record by record.
pub fn days_are_runs()
    ensures next { LegalGoesOn }
    ensures run { RunsAreLegal }
    ensures same { LegalAreRuns }
    ensures numbers { NumbersArePlaces }
{}

/// The orders of a legal history are its granted Enters and Replaces, each under a token of its own, for its user's
/// account and in a listed stock.
pub fn orders_are_granted_requests()
    ensures grants { OrdersAreGrants }
    ensures numbers { OrderNumbersAreWithin }
    ensures tokens { TokensDiffer }
    ensures accounts { AccountsAreTheUsers }
    ensures stocks { StocksAreListed }
{}

/// Open shares are a part of the total, and a Kill or the end of the day leaves none.
pub fn orders_end()
    ensures within { LiveHaveOpen }
    ensures ended { EndedAreNotLive }
{}

/// What one more record does to used tokens, lines, kills, the end of the day and the moment, from that record alone.
pub fn states_go_on()
    ensures tokens { TokensGrow }
    ensures lines { LinesGoOn }
    ensures kills { KillsGoOn }
    ensures day { DaysEnd }
    ensures moment { MomentsGoOn }
{}

/// What a user was told stays, and each record adds to the end.
pub fn streams_grow()
    ensures { StreamsGrow }
{}

/// The bits of a mask are the accounts that pass a test, in the file's order.
pub fn masks_are_accounts()
    ensures exact { MasksAreExact }
    ensures within { MasksAreWithin }
{}
