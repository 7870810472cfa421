//! Laws of what the figures are taken from, each as what a function without a body ensures.

ghost use Rattle.gx_laws.specs.PositionLaws.{DaysBeginEmpty, LiveOrdersAreFew, PositionsAreSound, PositionsGoOn, RecordsMayCome};

/// A day begins without an order.
pub fn days_begin_empty()
    ensures { DaysBeginEmpty }
{}

/// Whatever one more record is, orders, fills and grants after it are those before it, changed by
/// one word for what the record does; and what it does may be done.
pub fn positions_go_on()
    ensures change { PositionsGoOn }
    ensures may_come { RecordsMayCome }
{}

/// In every legal history the numbers of live orders differ, their stocks are listed, moments do
/// not fall from grant to grant, and the sums over all accounts fit 128 bits; and no more orders
/// are live than a day has records.
pub fn positions_are_sound()
    ensures sound { PositionsAreSound }
    ensures few { LiveOrdersAreFew }
{}
