//! Cases that need the inside of a gate, whichever it is: a text of cases, and a text of what each does.
//!
//! A case is a line `== TITLE`, which says what it shows, and parts up to the next case. A part is a line `-- KIND` and
//! the lines behind it:
//!
//! - `-- pipe`: the bytes of a connection, in hex. It prints the verdicts of its records, and the bytes that it was sent.
//! - `-- script`: a script. It prints what the script prints.
//! - `-- again`: the lines of a script, each a run of its own, and run again where its step was refused, as for want of
//!   memory. It prints the verdicts of their records: they are the same, whichever step was refused.
//! - `-- audit`: the audit of the records so far is written; its bytes are printed in hex, a line for the header and a line
//!   a record. `-- audit-1`: the bytes of the one in version 1.
//! - `-- session MOMENT`: the events of a session that begins at this moment, a line each: its moment and what happens
//!   (`login`, `data HEX`, `heartbeat`, `debug`, `logout`, `accepted`, `rejected`, `pulled COUNT`, `pulled-last COUNT`,
//!   `refused`, `tick`, `fault`, `end`). It prints what the session sends and what follows.
//! - `-- play`, alone: a scenario, whose steps, a line each, are run one after the other. Peers speak over connections in
//!   memory to the server's own code at a gate of their own, whose journal is written to a device in memory; the clock shows
//!   what the steps say. It prints what was waited for in vain, if anything was (the scenario ends there); the packets that
//!   each peer was sent, in hex, a line each, and why he was cut off, if he was; the reports that the user of each peer's
//!   name is owed, of a journal that failed those by its day; and the bytes of the journal and of the audit. The journal has
//!   line 1, the matcher line 2, the scenario's driver line 3, and the first peer line 4.
//! - `-- calls pulls`, `-- calls meeting`, `-- calls again`, `-- calls three`, alone: calls at a shared gate of their own,
//!   by passes of several lines, in one thread or in three. It prints what they answered, and what is on record of them;
//!   of those that are made again where they are refused, as for want of memory, which records they leave; and the bytes of
//!   the audit.
//!
//! The steps of a scenario, in which NAME is a peer:
//!
//! - `clock MOMENT`: the clock shows this moment from now on, until each connection has done what it does then;
//! - `open NAME`: a peer connects, until the server reads;
//! - `NAME gives HEX`: he sends these bytes, until the server has read all and waits for more, or at the door; `NAME sends
//!   HEX`: he sends these bytes, and nothing is waited for;
//! - `NAME ends HEX`: he sends these bytes and no more; `NAME ends`: no more;
//! - `NAME takes nothing`: what the server writes to him has to wait from now on; `NAME takes all`: no longer;
//! - `NAME asks nothing`: his requests have to wait at the door from now on; `NAME asks all`: no longer;
//! - `NAME hears COUNT`: waits until he was sent so many packets in all, and the server has done what comes of it;
//! - `NAME is finished`: waits until the server has said that it writes no more to him; `NAME is cut`: until he is hung up;
//! - `records COUNT`: waits until there are so many records;
//! - `stop`: the server is asked to end.
//!
//! Behind the last step each peer sends no more, one after the other, until all threads of his connection have ended.
//!
//! The parts of a case run on one gate under the sample policy, one after the other; in the end it prints who is logged in and
//! which accounts are killed. Each case is run twice: with devices that give and take large pieces, and with devices that give
//! and take a byte at a time; where the two differ both are printed. Behind the kind of a run, or of a scenario for its journal,
//! other devices may be named: `SIZE READS ROOM INTERRUPTS WRITE WRITES MOST`. They give and take at most SIZE bytes at a time,
//! the reader fails after READS reads, the writer takes no more than ROOM bytes, each call is interrupted so often before it is
//! done, writes take WRITE bytes, the writer fails after WRITES writes, and an input that has not ended after MOST reads is
//! called endless. `-` is no limit, and the last ones may be left out.
#![tactic(auto)]

mod cases;
mod scenarios;
mod shared_case;

use cases::answer_text;
use gx_core::Gate;
use gx_test_devices::OutputText;
use std::alloc::Global;
use std::io;
use std::io::Read as _;

fn main(rt: HostRuntime) -> io::Result<()> {
    let alloc: Global = rt.alloc();
    let mut text = String::new(alloc);
    rt.reader().read_to_string(&mut text)?;
    let mut output = OutputText::new(alloc);
    answer_text::<Gate, HostRuntime>(&rt, alloc, &mut output, text.as_str());
    if !output.is_complete() {
        return Err(io::Error::from(io::ErrorKind::OutOfMemory));
    }
    let out = output.as_str();
    print!(rt; "{out}")
}
