//! Laws of the definitions, each as what a function without a body ensures.

ghost use Rattle.gx_status.specs.Metrics.{BoundsAreTold};

/// The bounds of the buckets that `/metrics` names are those that times are counted by.
pub fn bounds_are_told()
    ensures { BoundsAreTold }
{}
