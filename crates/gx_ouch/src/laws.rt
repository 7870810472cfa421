//! What the layouts of the messages say together.

ghost use Rattle.gx_ouch.specs.{Layout.IsWithoutGaps, Messages.{enter_order, replace_order, cancel_order}};

/// Each byte of a message that is read is its type or in one of its fields.
pub fn read_messages_have_no_gaps()
    ensures enter { IsWithoutGaps enter_order }
    ensures replace { IsWithoutGaps replace_order }
    ensures cancel { IsWithoutGaps cancel_order }
{}
