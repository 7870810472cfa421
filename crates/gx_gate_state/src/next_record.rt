//! What a gate's state is brought up to date by.

use gx_history::History;
use gx_history::moves::Move;
use gx_history::record::RecordData;
use gx_index::Near;
use gx_policy::Policy;

/// The next record of a day, of a request or of a matching step, and what it does; and the policy
/// and the records that it comes behind.
#[derive(Clone, Copy)]
pub struct NextRecord<'a> {
    /// The policy of the day.
    pub policy: &'a Policy,
    /// The records before it.
    pub history: &'a History,
    /// What it does.
    pub moves: &'a Move,
    /// What stands in it.
    pub data: &'a RecordData,
    /// Where the names of who asks are looked for first, or the stock of the order that is matched.
    pub near: Near,
}
