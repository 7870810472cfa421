//! Messages to a trader, written as bytes.

ghost use Rattle.std.specs.Prelude.{◌≡◌, ◌≤◌, length, take, drop, map};
ghost use Rattle.gx_ouch.specs.declared.outbound.Outbound.TheVariants as outbounds;
ghost use Rattle.gx_ouch.specs.{Layout.{HasSizes, LiesIn, with_fields}, Messages.{order_fields, accepted_layout, replaced_layout, canceled_layout, executed_layout, rejected_layout}, Writing.{order_contents, contents_behind, outbound_contents, outbound_layout, outbound_bytes}};

use crate::draft::MessageDraft;
use crate::outbound::{
    Accepted, Canceled, Executed, MESSAGE_ROOM, OrderTerms, Outbound, Rejected, Replaced,
};

/// Order State: the order is live.
const ORDER_STATE: u8 = b'L';

/// BBO Weight Indicator: it is not told.
const WEIGHT_INDICATOR: u8 = b' ';

impl Outbound {
    /// Writes the message to the front of the room, with its moment, in nanoseconds past midnight, as Timestamp.
    /// Answers the message's length; what lies behind it stays.
    pub fn write(&self, timestamp: u64, room: &mut [u8; MESSAGE_ROOM]) -> usize
        ensures len { result ≡ (outbound_layout self.now).size }
        ensures within { result ≤ MESSAGE_ROOM }
        ensures bytes { take result room.new ≡ outbound_bytes timestamp self.now }
        ensures fields { LiesIn (outbound_layout self.now) (outbound_contents timestamp self.now)
            (take result room.new) }
        ensures rest { drop result room.new ≡ drop result room.old }
    {
        self.draft(timestamp).copy_to(room)
    }

    /// The message's bytes, with its moment, in nanoseconds past midnight, as Timestamp.
    #[tactic(auto, unfolding(crate::specs::Writing::outbound_bytes))]
    #[inline(always)]
    pub fn draft(&self, timestamp: u64) -> MessageDraft
        ensures bytes { result ≡ outbound_bytes timestamp self.now }
        ensures len { length result ≡ (outbound_layout self.now).size }
        ensures sizes { HasSizes (outbound_layout self.now) (outbound_contents timestamp self.now) }
    {
        let mut draft = MessageDraft::new();
        draft.put(&[self.kind()]);
        draft.put(&timestamp.to_be_bytes());
        match self {
            Outbound::SystemEvent(event) => draft.put(&[event.letter()]),
            Outbound::Accepted(accepted) => accepted.put(&mut draft),
            Outbound::Replaced(replaced) => replaced.put(&mut draft),
            Outbound::Canceled(canceled) => canceled.put(&mut draft),
            Outbound::Executed(executed) => executed.put(&mut draft),
            Outbound::Rejected(rejected) => rejected.put(&mut draft),
        }
        draft
    }

    /// The type byte.
    fn kind(&self) -> u8
        ensures { result ≡ (outbound_layout self.now).kind }
    {
        match self {
            Outbound::SystemEvent(_) => b'S',
            Outbound::Accepted(_) => b'A',
            Outbound::Replaced(_) => b'U',
            Outbound::Canceled(_) => b'C',
            Outbound::Executed(_) => b'E',
            Outbound::Rejected(_) => b'J',
        }
    }
}

impl OrderTerms {
    /// Writes what Accepted and Replaced say alike of an order.
    #[inline(always)]
    fn put(&self, order_reference: u64, draft: &mut MessageDraft)
        requires { length draft.old ≡ 23 }
        ensures bytes { draft.new
            ≡ with_fields draft.old (order_contents self.now order_reference) }
        ensures sizes { map length (order_contents self.now order_reference)
            ≡ map (λ place. place.size) order_fields }
        ensures len { length draft.new ≡ 65 }
    {
        draft.put(&[self.side]);
        draft.put(&self.shares.to_be_bytes());
        draft.put(&self.stock.bytes);
        draft.put(&self.price.to_be_bytes());
        draft.put(&self.time_in_force.to_be_bytes());
        draft.put(&self.firm.bytes);
        draft.put(&[self.display]);
        draft.put(&order_reference.to_be_bytes());
        draft.put(&[self.capacity]);
        draft.put(&[self.intermarket_sweep]);
        draft.put(&self.minimum_quantity.to_be_bytes());
        draft.put(&[self.cross_type]);
        draft.put(&[ORDER_STATE]);
    }
}

impl Accepted {
    #[inline(always)]
    fn put(&self, draft: &mut MessageDraft)
        requires { length draft.old ≡ 9 }
        ensures bytes { draft.new
            ≡ with_fields draft.old (contents_behind (outbounds.Accepted self.now)) }
        ensures sizes { HasSizes accepted_layout
            (outbound_contents 0 (outbounds.Accepted self.now)) }
        ensures len { length draft.new ≡ 66 }
    {
        draft.put(&self.token.bytes);
        self.terms.put(self.order_reference, draft);
        draft.put(&[WEIGHT_INDICATOR]);
    }
}

impl Replaced {
    #[inline(always)]
    fn put(&self, draft: &mut MessageDraft)
        requires { length draft.old ≡ 9 }
        ensures bytes { draft.new
            ≡ with_fields draft.old (contents_behind (outbounds.Replaced self.now)) }
        ensures sizes { HasSizes replaced_layout
            (outbound_contents 0 (outbounds.Replaced self.now)) }
        ensures len { length draft.new ≡ 80 }
    {
        draft.put(&self.token.bytes);
        self.terms.put(self.order_reference, draft);
        draft.put(&self.previous_token.bytes);
        draft.put(&[WEIGHT_INDICATOR]);
    }
}

impl Canceled {
    #[inline(always)]
    fn put(&self, draft: &mut MessageDraft)
        requires { length draft.old ≡ 9 }
        ensures bytes { draft.new
            ≡ with_fields draft.old (contents_behind (outbounds.Canceled self.now)) }
        ensures sizes { HasSizes canceled_layout
            (outbound_contents 0 (outbounds.Canceled self.now)) }
        ensures len { length draft.new ≡ 28 }
    {
        draft.put(&self.token.bytes);
        draft.put(&self.decrement.to_be_bytes());
        draft.put(&[self.reason.letter()]);
    }
}

impl Executed {
    #[inline(always)]
    fn put(&self, draft: &mut MessageDraft)
        requires { length draft.old ≡ 9 }
        ensures bytes { draft.new
            ≡ with_fields draft.old (contents_behind (outbounds.Executed self.now)) }
        ensures sizes { HasSizes executed_layout
            (outbound_contents 0 (outbounds.Executed self.now)) }
        ensures len { length draft.new ≡ 40 }
    {
        draft.put(&self.token.bytes);
        draft.put(&self.shares.to_be_bytes());
        draft.put(&self.price.to_be_bytes());
        draft.put(&[self.liquidity.letter()]);
        draft.put(&self.match_number.to_be_bytes());
    }
}

impl Rejected {
    #[inline(always)]
    fn put(&self, draft: &mut MessageDraft)
        requires { length draft.old ≡ 9 }
        ensures bytes { draft.new
            ≡ with_fields draft.old (contents_behind (outbounds.Rejected self.now)) }
        ensures sizes { HasSizes rejected_layout
            (outbound_contents 0 (outbounds.Rejected self.now)) }
        ensures len { length draft.new ≡ 24 }
    {
        draft.put(&self.token.bytes);
        draft.put(&[self.reason.letter()]);
    }
}
