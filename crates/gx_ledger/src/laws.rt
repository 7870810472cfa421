//! How a ledger follows more than one call, each as what a function without a body ensures.

ghost use Rattle.gx_ledger.specs.Following.{AllAreEnded, EndedThenAccepted, NoneCloses, OneMoreCloses};

/// Orders that are closed one after another, as those of a killed account are and all at the end of
/// the day: none is nothing, one more follows those before it, and when each order of the accounts
/// has ended, all have.
pub fn orders_end_one_by_one()
    ensures none { NoneCloses }
    ensures more { OneMoreCloses }
    ensures all { AllAreEnded }
{}

/// An order takes the place of another: the old one is closed, and then the new one is accepted.
pub fn an_order_takes_the_place_of_another()
    ensures { EndedThenAccepted }
{}
