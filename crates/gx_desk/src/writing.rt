//! Answers and drop copies, written as bytes.

ghost use Rattle.std.specs.Prelude.{◌≡◌, length, take, drop};
ghost use Rattle.gx_ouch.specs.{Layout.{HasSizes, LiesIn}, Writing.outbound_bytes};
ghost use Rattle.gx_desk.specs.{Messages.{answer, drop_copy}, Writing.{answer_bytes, answer_code, answer_contents, drop_copy_bytes, drop_copy_contents}};

use crate::{Answer, AnswerCode, DropCopy};
use gx_ouch::{MESSAGE_ROOM, MessageDraft, Outbound};

impl AnswerCode {
    /// The code's two bytes: `OK`, `PL`, or `Q` and the number of the rule that denies.
    pub fn code(self) -> [u8; 2]
        ensures { result ≡ answer_code self }
    {
        match self {
            AnswerCode::Done => *b"OK",
            AnswerCode::PartlyLifted => *b"PL",
            AnswerCode::UnknownName => *b"Q1",
            AnswerCode::NoPower => *b"Q2",
            AnswerCode::NotHisAccount => *b"Q3",
            AnswerCode::NoChange => *b"Q4",
        }
    }
}

impl Answer {
    /// Writes the answer to the front of the room, with its moment, in nanoseconds past midnight, as timestamp.
    /// Answers its length; what lies behind it stays.
    pub fn write(&self, timestamp: u64, room: &mut [u8; MESSAGE_ROOM]) -> usize
        ensures len { result ≡ answer.size }
        ensures bytes { take result room.new ≡ answer_bytes timestamp self.now }
        ensures fields { LiesIn answer (answer_contents timestamp self.now) (take result room.new) }
        ensures rest { drop result room.new ≡ drop result room.old }
    {
        self.draft(timestamp).copy_to(room)
    }

    #[tactic(auto, unfolding(crate::specs::Writing::answer_bytes))]
    fn draft(&self, timestamp: u64) -> MessageDraft
        ensures bytes { result ≡ answer_bytes timestamp self.now }
        ensures len { length result ≡ answer.size }
        ensures sizes { HasSizes answer (answer_contents timestamp self.now) }
    {
        let mut draft = MessageDraft::new();
        draft.put(b"Q");
        draft.put(&timestamp.to_be_bytes());
        draft.put(&self.tag.bytes);
        draft.put(&[self.command_type]);
        draft.put(&self.code.code());
        draft.put(&self.record_number.to_be_bytes());
        draft
    }
}

impl DropCopy {
    /// Writes the drop copy to the front of the room, with its moment, in nanoseconds past midnight, as Timestamp.
    /// Answers its length; what lies behind it stays.
    pub fn write(&self, timestamp: u64, room: &mut [u8; MESSAGE_ROOM]) -> usize
        ensures len { result ≡ drop_copy.size }
        ensures bytes { take result room.new ≡ drop_copy_bytes timestamp self.now }
        ensures fields { LiesIn drop_copy (drop_copy_contents timestamp self.now)
            (take result room.new) }
        ensures rest { drop result room.new ≡ drop result room.old }
    {
        self.draft(timestamp).copy_to(room)
    }

    #[tactic(auto, unfolding(crate::specs::Writing::drop_copy_bytes, gx_ouch::specs::Writing::outbound_bytes))]
    fn draft(&self, timestamp: u64) -> MessageDraft
        ensures bytes { result ≡ drop_copy_bytes timestamp self.now }
        ensures len { length result ≡ drop_copy.size }
        ensures sizes { HasSizes drop_copy (drop_copy_contents timestamp self.now) }
    {
        let mut draft = Outbound::Executed(self.executed).draft(timestamp);
        draft.put(&self.account.bytes);
        draft.put(&[self.side]);
        draft
    }
}
