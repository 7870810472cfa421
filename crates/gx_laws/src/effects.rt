//! Laws of what a record changes and of what matching comes to, each as what a function without a body ensures.

ghost use Rattle.gx_laws.specs.{Kinds.{CancelsLeaveFewer, ClosesLeaveNone, DenialsTellWhoAsked, EntersComeLast, ExpiriesEndOne, FillsTakeFromTwo, GrantsChangeOneSight, KillsLeaveTheOthers, LiftsBringNoneBack, LoginsPutOn, LogoutsPutOff, MatchesKeepInForce, ReplacesComeLast, RestsMoveOne, RestrictsChangeOneRule, RevokesChangeOneSight, SetLimitsChangeOneRule, UnrestrictsChangeOneRule}, EffectLaws.{FillsAreFair, IdleWhereNoneWaits, KilledAreNotFilled, KilledAreNotLive, KilledHaveNoOrders, KilledPlaceNoOrders, KillsEndByLifts, LiveOrdersAreFound, LiveOrdersAreOfTheirTraders, LiveOrdersAreTheOne, NeverCrossed, NothingWhereNoneWaits, RestingAlone, RestingByPrice, RestingByTime, RestingWhole, SettledByMatches, SettledLeavesNone, SettledStepByStep, SettledWhereIdle, TotalsAreOpenAndDone}};
ghost use Rattle.gx_history.specs.{MayMove.MovesAreAllowed, World.{LiveGoesOn, SidesGoOn, WaitingGoesOn, WorldGoesOn, WorldsAreRuns}};

/// What one more record makes of the live orders.
pub fn live_orders_turn()
    ensures live { LiveGoesOn }
    ensures waiting { WaitingGoesOn }
    ensures sides { SidesGoOn }
{}

/// The day is the run of a state machine. The world is all that a record can change, each word of it said over the list
/// of the day's records; `stepped` makes the next world of a world and a record, and looks at nothing else.
///
/// Of a legal day and its next record, the world after it is what `stepped` makes of the world before (`step`). So the
/// world of a legal day is the fold of `stepped` over its records (`run`).
pub fn the_world_goes_on()
    ensures step { WorldGoesOn }
    ensures run { WorldsAreRuns }
{}

/// Each record of a legal day may move the world as it does, and none does nothing. A new order is for its user's account,
/// which is not killed; a cut order has fewer shares open then; one that replaces another is for the same account and has
/// some; whoever is matched was the first that waited, and met the best of the other side that it crosses, or nothing; and
/// the names in a command are known.
pub fn moves_are_allowed()
    ensures { MovesAreAllowed }
{}

/// In a legal day each live order is for the account that its user trades for.
pub fn live_orders_are_of_their_traders()
    ensures { LiveOrdersAreOfTheirTraders }
{}

/// A denial tells at most who asked, and changes nothing else in the world, whatever the records before it.
pub fn denials_tell_who_asked()
    ensures { DenialsTellWhoAsked }
{}

/// A Login puts its user on its line, and a Logout on none. Nothing else in the world changes, whatever the records before.
pub fn logins_and_logouts_change_one_line()
    ensures on { LoginsPutOn }
    ensures off { LogoutsPutOff }
{}

/// An Enter's order comes last of the live ones and of those that wait. Its user is told, and nothing else in the world
/// changes.
pub fn enters_come_last()
    ensures { EntersComeLast }
{}

/// A Cancel leaves its user's live order under its token fewer shares open, in its place, or ends it. He is told, and
/// nothing else in the world changes.
pub fn cancels_leave_fewer()
    ensures { CancelsLeaveFewer }
{}

/// A Replace ends its user's live order under the existing token, and its own comes last of the live ones and of those
/// that wait, with shares open. He is told, and nothing else in the world changes.
pub fn replaces_come_last()
    ensures { ReplacesComeLast }
{}

/// A Kill leaves the orders of all other accounts in their places, and none of its own. Whose orders ended is told, and
/// the officer; nothing else in the world changes.
pub fn kills_leave_the_others()
    ensures { KillsLeaveTheOthers }
{}

/// A Lift counts its officer, who is told whether the account is killed still. No order comes back, and nothing else in
/// the world changes.
pub fn lifts_bring_none_back()
    ensures { LiftsBringNoneBack }
{}

/// A Set Limit, Restrict or Unrestrict changes the rule of its name alone. The officer is told, and nothing else in the
/// world changes.
pub fn settings_change_one_rule()
    ensures limits { SetLimitsChangeOneRule }
    ensures restricts { RestrictsChangeOneRule }
    ensures unrestricts { UnrestrictsChangeOneRule }
{}

/// A Grant or Revoke changes whether its reader sees the one account. The officer is told, and nothing else in the world
/// changes.
pub fn grants_and_revokes_change_one_sight()
    ensures grants { GrantsChangeOneSight }
    ensures revokes { RevokesChangeOneSight }
{}

/// A Close Day leaves no order, and the day closed. Whose orders ended is told, each trader, and the officer; nothing
/// else in the world changes.
pub fn closes_leave_none()
    ensures { ClosesLeaveNone }
{}

/// A fill takes its shares off what its two orders have open; an order that comes to rest leaves those that wait for its
/// side of the book; one that expires lives no more. Whose order was filled or has expired is told, and of a fill the
/// readers who see its accounts; nothing else in the world changes.
pub fn matches_change_their_orders()
    ensures fills { FillsTakeFromTwo }
    ensures rests { RestsMoveOne }
    ensures expiries { ExpiriesEndOne }
{}

/// A matching step makes no order, uses no token, and changes nothing that is in force: rules, kills, the day's end, lines
/// and what readers see.
pub fn matches_keep_in_force()
    ensures { MatchesKeepInForce }
{}

/// A live order's total is what it has open and what its chain has executed, and a token names one order at most.
pub fn live_orders_are_named()
    ensures total { TotalsAreOpenAndDone }
    ensures one { LiveOrdersAreTheOne }
    ensures found { LiveOrdersAreFound }
{}

/// A killed account is granted no Enter and no Replace, and none of its orders is live until an officer lifts it.
pub fn killed_accounts_do_not_trade()
    ensures none_placed { KilledPlaceNoOrders }
    ensures none_live { KilledAreNotLive }
    ensures no_orders { KilledHaveNoOrders }
    ensures until_lifted { KillsEndByLifts }
{}

/// A fill is between two live orders that have its shares open.
pub fn fills_are_fair()
    ensures { FillsAreFair }
{}

/// The better price comes first in the book, and at one price the earlier to rest; a side has the live orders that rest
/// there, and no other.
pub fn books_are_in_price_time_order()
    ensures price { RestingByPrice }
    ensures time { RestingByTime }
    ensures alone { RestingAlone }
    ensures whole { RestingWhole }
{}

/// No resting buy crosses a resting sell of its stock.
pub fn books_are_never_crossed()
    ensures { NeverCrossed }
{}

/// A matching step leaves a record exactly where an order waits to be matched.
pub fn matching_waits_for_orders()
    ensures idle { IdleWhereNoneWaits }
    ensures nothing { NothingWhereNoneWaits }
{}

/// Matching steps come to an end, and then no order waits.
pub fn matching_settles()
    ensures idle { SettledWhereIdle }
    ensures step { SettledStepByStep }
    ensures matches { SettledByMatches }
    ensures none_left { SettledLeavesNone }
{}

/// A Kill between two fills of a sweep ends the rest of it: no later match fills an order of the account.
pub fn killed_accounts_are_not_filled()
    ensures { KilledAreNotFilled }
{}
