//! Laws of the definitions, each as what a function without a body ensures.

ghost use Rattle.gx_orders.specs.Laws.{LiveAccountsAreTheUsers, NoneAtFirst, OrdersGoOn, RecordsFindOrders, UsedTokensAreKept};

/// What is kept answers what the rules ask of the used tokens, and each live order is for its user's account. Before any
/// record there is nothing.
pub fn what_is_kept_answers()
    ensures first { NoneAtFirst }
    ensures used { UsedTokensAreKept }
    ensures accounts { LiveAccountsAreTheUsers }
{}

/// What one more record does is done to the orders that are kept, which it finds as it has to: a new order and an answered
/// denial bring a token that was not used, what a Cancel or a Replace names is live, both sides of a fill have its shares
/// open, and what rests or expires is the first that waited.
pub fn orders_go_on()
    ensures next { OrdersGoOn }
    ensures finds { RecordsFindOrders }
{}
