//! What is decided is what the records say: the contract of a function with no body.

ghost use Rattle.gx_decide.specs.Verdicts.{DecidesTheVerdict};

/// On the facts, the people, the rules and a ledger of the day, the verdict is that of the records.
pub fn decided_is_the_verdict()
    ensures { DecidesTheVerdict }
{}
