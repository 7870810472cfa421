//! Laws of the rules on running sums, each as what a function without a body ensures.

ghost use Rattle.gx_laws.specs.ExposureLaws.{GrossSharesAreKept, GrossValuesAreKept, NetSharesAreKept, NoneAskedNoneHeld, NoneAskedNoneOnSide};

/// After the last grant of an order of some accounts, what they have open and executed is within the
/// limit of each gross rule that was in force at that grant: in shares always, and in value but for
/// what their sells got above their own prices since. Accounts that were granted no order have
/// nothing.
pub fn gross_rules_are_kept()
    ensures shares { GrossSharesAreKept }
    ensures values { GrossValuesAreKept }
    ensures none { NoneAskedNoneHeld }
{}

/// After the last grant of an order of some accounts on one side of a stock, what they have open and
/// executed there is within the limit of each net rule that was in force at that grant and what they
/// executed on the other side. Accounts that were granted no order on a side have nothing there.
pub fn net_rules_are_kept()
    ensures shares { NetSharesAreKept }
    ensures none { NoneAskedNoneOnSide }
{}
