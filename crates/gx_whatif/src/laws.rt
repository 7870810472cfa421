//! What is so of every legal day, and of two days worked by hand, as what a function without a body ensures.

ghost use Rattle.gx_whatif.specs.{Laws.NothingDiffersUnderItsOwn, Rows.{ARuleComes, ARuleGoes}};

/// Under its own policy a legal day is made again as it is, and none of its verdicts changes.
pub fn nothing_differs_under_its_own()
    ensures { NothingDiffersUnderItsOwn }
{}

/// Two short days, computed. Where a rule comes that denies an order, the matching steps of that order find none waiting.
/// Where a rule goes that denied one, it comes to rest before the next step, and a later order is filled with it.
pub fn a_rule_comes_and_goes()
    ensures comes { ARuleComes }
    ensures goes { ARuleGoes }
{}
