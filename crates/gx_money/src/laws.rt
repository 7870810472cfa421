//! What is so of all amounts, as what a function without a body ensures.

ghost use Rattle.gx_money.specs.Laws.{AmountsAreToldApart};

/// No two amounts are shown as one: nothing is rounded.
pub fn amounts_are_told_apart()
    ensures { AmountsAreToldApart }
{}
