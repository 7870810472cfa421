//! A gate that threads share: one lock over the gate and the keeper of its history.
//!
//! A caller holds a pass, and each call gives it back with all that was met under the lock: a legal history, which
//! begins with all that the pass had met before. Of the pass's line it has the caller's own records, and no others. And
//! each record, of whatever line, is counted in the pass that it was added with, so that no call adds more than it tells.
//!
//! And a server over a gate of its own: for a day that begins with it, or for one that is kept in a journal and may go on
//! from what a file holds.
//!
//! # Modules
//!
//! - `shared`: the gate that threads share, a [`Door`](gx_door::Door), behind its lock;
//! - `guarded_gate`: what lies under the lock, a gate and the keeper of its history, whose records are the same;
//! - `entrance`: where passes are issued, an [`Issuer`](gx_door::Issuer);
//! - `priority_lock`: the lock, at which an officer's step goes before traders', who take turns;
//! - `permit`: what passes are issued for, each with a part of a ledger, and how many lines were issued;
//! - `counted_pass`: a pass, and how many records were added with it;
//! - `counting`: the keeper, and the books in which each record and each line is counted;
//! - `steps`: each step is one call of the gate, and the keeper notes its record before the lock is let go;
//! - `ending`: what a Kill or a Close Day ends, counted in front of its step;
//! - `copying`: records, copied into room that is there;
//! - `resuming`: the keeper of a history that was there before it, which it reads a portion at a time;
//! - `serving`: a server whose day begins with it, and the gate that was served;
//! - `keeping`: a server whose day is kept in a journal, on whatever device that lies, and may go on from records that
//!   were there;
//! - `rest`: what the journal lacks at the end of the day, taken from the closed gate.
#![tactic(auto)]

mod copying;
mod counted_pass;
mod counting;
mod ending;
mod entrance;
mod guarded_gate;
mod keeping;
mod logging;
mod permit;
mod priority_lock;
mod rest;
mod resuming;
mod serving;
mod shared;
mod steps;

pub use counted_pass::CountedPass;
pub use entrance::Entrance;
pub use keeping::{KeptDay, close_kept, serve_journaled};
pub use permit::{BlankLedgers, Permits};
pub use priority_lock::Priority;
pub use serving::{Served, serve};
pub use shared::SharedGate;
