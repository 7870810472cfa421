//! Laws of figures and limits, each as what a function without a body ensures.

ghost use Rattle.gx_peaks.specs.Laws.{LimitsStay, MostRaiseNothing};

/// What raises no figure, and leaves a limit as it is: a record raises a figure only where it grants an order, or fills a sell
/// as the order that came in, which may get more than its own price. So no denial, login, cancel, kill, rest or expiry does,
/// nor a change of a list or of a limit. And a rule's limit is changed by a granted Set Limit of that rule alone.
pub fn what_raises_no_figure()
    ensures most { MostRaiseNothing }
    ensures limits { LimitsStay }
{}
