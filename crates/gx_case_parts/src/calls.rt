//! Calls at a door, by passes of several lines and in several threads, and the text of what came of them.

ghost use Rattle.std.specs.Prelude.{IsTrue};
ghost use Rattle.gx_history.specs.Showing.{has_its_first};

use crate::runs::put_records;
use gx_access_gate::{Outcome, Pulled};
use gx_desk::{Action, Command, Tag};
use gx_door::{Dial, Door, Issuer, PullFault};
use gx_history::record::{Record, Request, Step};
use gx_ouch::EnterOrder;
use gx_test_devices::OutputText;
use gx_units::{AccountName, Firm, Password, SessionName, Symbol, Token, UserName, unpadded};
use std::alloc::Global;
use std::sync::Wait;
use std::thread;
use std::thread::Threads;

/// The account that ALICE trades for.
const ALFA: AccountName = AccountName {
    bytes: *b"ALFA    ",
};

/// The session of the day.
const TODAY: SessionName = SessionName {
    bytes: *b"          ",
};

/// So many requests each caller makes.
const CALLS: u16 = 100;

/// A user who makes calls.
#[derive(Clone, Copy)]
struct TestCaller {
    user: UserName,
    password: Password,
    /// Whether he kills ALFA and lifts it, in turn; else he orders shares.
    is_officer: bool,
}

const ALICE: TestCaller = TestCaller {
    user: UserName { bytes: *b"ALICE " },
    password: Password {
        bytes: *b"apple     ",
    },
    is_officer: false,
};

const BOB: TestCaller = TestCaller {
    user: UserName { bytes: *b"BOB   " },
    password: Password {
        bytes: *b"banana    ",
    },
    is_officer: false,
};

const OLGA: TestCaller = TestCaller {
    user: UserName { bytes: *b"OLGA  " },
    password: Password {
        bytes: *b"orange    ",
    },
    is_officer: true,
};

/// The token or the tag of the request of this number.
fn numbered(number: u16) -> [u8; 14] {
    let mut bytes = *b"A000          ";
    bytes[1] = b'0' + (number / 100 % 10) as u8;
    bytes[2] = b'0' + (number / 10 % 10) as u8;
    bytes[3] = b'0' + (number % 10) as u8;
    bytes
}

/// An order to buy a share.
fn order(number: u16) -> EnterOrder {
    EnterOrder {
        token: Token {
            bytes: numbered(number),
        },
        side: b'B',
        shares: 1,
        stock: Symbol {
            bytes: *b"TEST    ",
        },
        price: 10_000,
        time_in_force: 99_999,
        firm: Firm { bytes: *b"    " },
        display: b'Y',
        capacity: b'A',
        intermarket_sweep: b'N',
        minimum_quantity: 0,
        cross_type: b'N',
        customer_type: b'N',
    }
}

/// A Kill, or a Lift where the number is odd.
fn command(number: u16) -> Command {
    let action = if number % 2 == 0 {
        Action::Kill(ALFA)
    } else {
        Action::Lift(ALFA)
    };
    Command {
        tag: Tag {
            bytes: numbered(number),
        },
        action,
    }
}

/// The request of this number.
fn request(caller: TestCaller, number: u16) -> Request
    ensures { IsTrue (has_its_first result) }
{
    if caller.is_officer {
        Request::Command(command(number))
    } else {
        Request::Enter(order(number))
    }
}

/// A login.
fn log_in<D: Door, R: Wait + Dial>(rt: &R, door: &D, caller: TestCaller, pass: D::Pass) -> D::Pass {
    door.login(
        rt,
        pass,
        caller.user,
        caller.password,
        TODAY,
        1,
        rt.moment(),
    )
    .0
}

/// Logs in, and makes the requests of a caller. Answers, in words, his line and the numbers of the records that these left.
fn call<D: Door, R: Wait + Dial>(
    rt: &R,
    alloc: Global,
    door: &D,
    caller: TestCaller,
    pass: D::Pass,
) -> OutputText {
    let mut out = OutputText::new(alloc);
    out.put_bytes(unpadded(&caller.user.bytes));
    out.put(" on line ");
    out.put_number(door.line_of(&pass).into());
    out.put(":");
    let mut pass = log_in(rt, door, caller, pass);
    for number in 0..CALLS {
        let request = request(caller, number);
        let (back, answer) = door.act(rt, pass, caller.user, request, rt.moment());
        pass = back;
        if let Ok(outcome) = answer {
            out.put(" ");
            out.put_number(outcome.number);
        }
    }
    out
}

/// Makes the calls of three callers at once, and writes their records; `None` where no thread could be made.
fn call_at_once<'x, T: Drop + Send, D: Door<Pass = T> + Sync, R: Threads + Wait + Dial + Sync>(
    rt: &'x R,
    alloc: Global,
    door: &'x D,
    passes: (T, T, T),
) -> Option<(OutputText, OutputText, OutputText)> {
    let (one, two, three) = passes;
    thread::scope(thread::scope_env(), rt, |scope| {
        let Ok(first) = (&*scope).spawn(move || call(rt, alloc, door, ALICE, one)) else {
            return None;
        };
        let Ok(second) = (&*scope).spawn(move || call(rt, alloc, door, BOB, two)) else {
            return None;
        };
        let third = call(rt, alloc, door, OLGA, three);
        Some((first.join(rt), second.join(rt), third))
    })
}

/// How many records are of a line.
fn of_line(records: &[Record], line: u16) -> u64 {
    let mut count = 0u64;
    for entry in records {
        if let Step::Asked(asked) = entry.content().step
            && asked.line == line
        {
            count = count.saturating_add(1);
        }
    }
    count
}

/// What came of a pull, in words.
fn words_of(pulled: &Result<Pulled, PullFault>) -> &'static str {
    match pulled {
        Ok(pulled) => {
            if pulled.reports.as_slice().is_empty() {
                "no reports"
            } else {
                "reports"
            }
        }
        Err(PullFault::NotOn) => "not on",
        Err(PullFault::OutOfMemory) => "out of memory",
    }
}

/// Pulls ALICE's reports by this pass, and writes what came of that behind a text. Gives the pass back.
fn put_pull<D: Door, R: Wait>(
    rt: &R,
    out: &mut OutputText,
    door: &D,
    pass: D::Pass,
    text: &str,
) -> D::Pass {
    let (pass, pulled) = door.pull(rt, pass, ALICE.user, 1, 10);
    out.put(text);
    out.put(words_of(&pulled));
    pass
}

/// Writes what comes of pulls on the line on which ALICE is logged in, on another, and on hers once she is logged out.
fn put_pulls<D: Door, R: Wait + Dial>(
    rt: &R,
    out: &mut OutputText,
    door: &D,
    passes: (D::Pass, D::Pass),
) {
    let (one, other) = passes;
    let one = log_in(rt, door, ALICE, one);
    let one = put_pull(rt, out, door, one, "on her line: ");
    let _other = put_pull(rt, out, door, other, "; on another: ");
    let (one, _outcome) = door.logout(rt, one, ALICE.user, rt.moment());
    let _one = put_pull(rt, out, door, one, "; on hers, once she is logged out: ");
    out.put("\n")
}

/// Writes records, and how many of them are of a line.
fn put_own(alloc: Global, out: &mut OutputText, records: &[Record], line: u16) {
    put_records(alloc, out, records);
    out.put("of line ");
    out.put_number(line.into());
    out.put(": ");
    out.put_number(of_line(records, line));
    out.put("\n");
}

/// Writes what a pass has met of a day: the records, and how many of them are of its own line.
fn put_met<D: Door, R: Wait>(rt: &R, alloc: Global, out: &mut OutputText, door: &D, pass: D::Pass) {
    let line = door.line_of(&pass);
    let (_pass, records) = door.records(rt, pass, 1, u64::MAX);
    match records {
        Ok(records) => put_own(alloc, out, records.as_slice(), line),
        Err(_) => out.mark_incomplete(),
    }
}

/// Writes how many records there are by the other pass.
fn put_length(out: &mut OutputText, length: u64) {
    out.put("length by the other pass: ");
    out.put_number(length);
    out.put("\n");
}

/// Makes a request of a user who is not logged in by one of two passes, and writes what both have met then.
fn put_meeting<D: Door, R: Wait + Dial>(
    rt: &R,
    alloc: Global,
    out: &mut OutputText,
    door: &D,
    passes: (D::Pass, D::Pass),
) {
    let (one, mut other) = passes;
    let asked = request(ALICE, 0);
    let (one, _outcome) = door.act(rt, one, ALICE.user, asked, rt.moment());
    let length = door.length(&mut other);
    let (one, other) = door.meet(rt, one, other);
    put_length(out, length);
    put_met(rt, alloc, out, door, one);
    put_met(rt, alloc, out, door, other);
}

/// Logs in, and again where that was refused.
fn log_in_again<D: Door, R: Wait + Dial>(
    rt: &R,
    door: &D,
    caller: TestCaller,
    pass: D::Pass,
) -> D::Pass {
    let mut pass = pass;
    let before = door.length(&mut pass);
    let mut pass = log_in(rt, door, caller, pass);
    if door.length(&mut pass) > before {
        pass
    } else {
        log_in(rt, door, caller, pass)
    }
}

/// Makes a request, and again where it was refused. `None` where a refused one left a record, or was refused again.
fn act_again<D: Door, R: Wait + Dial>(
    rt: &R,
    door: &D,
    pass: D::Pass,
    number: u16,
) -> (D::Pass, Option<Outcome>) {
    let mut pass = pass;
    let before = door.length(&mut pass);
    let (mut pass, answer) = door.act(rt, pass, ALICE.user, request(ALICE, number), rt.moment());
    if answer.is_ok() || door.length(&mut pass) > before {
        return (pass, answer.ok());
    }
    let (pass, answer) = door.act(rt, pass, ALICE.user, request(ALICE, number), rt.moment());
    (pass, answer.ok())
}

/// Writes which record a request has left.
fn put_outcome(out: &mut OutputText, outcome: Option<Outcome>) {
    match outcome {
        Some(outcome) => {
            out.put("record ");
            out.put_number(outcome.number);
            out.put("\n");
        }
        None => out.put_line("no record"),
    }
}

/// Makes a trader's orders, each again where it was refused, and writes which records they have left.
fn put_again<D: Door, R: Wait + Dial>(rt: &R, out: &mut OutputText, door: &D, pass: D::Pass) {
    let mut pass = log_in_again(rt, door, ALICE, pass);
    for number in 0..3 {
        let (back, outcome) = act_again(rt, door, pass, number);
        pass = back;
        put_outcome(out, outcome);
    }
}

/// Makes the calls of three callers at once, and writes which records they have left.
fn put_three<T: Drop + Send, D: Door<Pass = T> + Sync, R: Threads + Wait + Dial + Sync>(
    rt: &R,
    alloc: Global,
    out: &mut OutputText,
    door: &D,
    passes: (T, T, T),
) {
    let Some((first, second, third)) = call_at_once(rt, alloc, door, passes) else {
        return out.mark_incomplete();
    };
    for text in [&first, &second, &third] {
        out.put_line(text.as_str());
        out.inherit_gaps(text);
    }
}

/// Three passes, each of a line of its own; `None` where there are no more.
fn three_passes<D: Door, I: Issuer<D>, R: Wait>(
    rt: &R,
    issuer: &mut I,
) -> Option<(D::Pass, D::Pass, D::Pass)> {
    let one = issuer.issue(rt).ok()?;
    let two = issuer.issue(rt).ok()?;
    let three = issuer.issue(rt).ok()?;
    Some((one, two, three))
}

/// Makes the calls of this name at a door, by passes of this issuer, and writes what came of them.
pub fn report_calls<
    T: Drop + Send,
    D: Door<Pass = T> + Sync,
    I: Issuer<D>,
    R: Threads + Wait + Dial + Sync,
>(rt: &R, alloc: Global, out: &mut OutputText, door: &D, issuer: &mut I, name: &str) {
    let Some(passes) = three_passes::<D, I, R>(rt, issuer) else {
        return out.mark_incomplete();
    };
    if name == "pulls" {
        put_pulls(rt, out, door, (passes.0, passes.1))
    } else if name == "meeting" {
        put_meeting(rt, alloc, out, door, (passes.0, passes.1))
    } else if name == "again" {
        put_again(rt, out, door, passes.0)
    } else {
        put_three(rt, alloc, out, door, passes)
    }
}
