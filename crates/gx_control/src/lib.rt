//! What the threads of a server share beside its gate: the clock, what wakes the matcher and the writers, the slots for
//! connections, who has not logged in, how often wrong passwords were given, what went wrong at the door, how long answers
//! take, how much was written to a journal, and whether the server has begun and is to end. And what its threads look at: what
//! a writer has seen of the records, who is connected.
#![tactic(auto)]

mod answer_times;
mod attempts;
mod begun;
mod connection_slots;
mod control;
mod journal_tally;
mod newcomers;
mod peer;
mod pull_cursor;
mod shutdown;
mod tally;
mod wakeup;
mod writer_wakeup;

pub use answer_times::{AnswerCounts, AnswerTimes, AnswersNoted};
pub use attempts::Attempts;
pub use begun::Begun;
pub use connection_slots::{ConnectionSlot, ConnectionSlots};
pub use control::ServerControl;
pub use journal_tally::{JournalCounts, JournalTally, Tallied};
pub use newcomers::Newcomers;
pub use peer::{Peer, words_of};
pub use pull_cursor::PullCursor;
pub use shutdown::{ShutdownAsked, ShutdownFlag};
pub use tally::{Mishap, Tally};
pub use wakeup::{Notified, Wakeup, Woken};
pub use writer_wakeup::{Wakeups, WriterWakeup, WriterWakeups};
