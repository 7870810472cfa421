//! Sessions without a gate: the events of one, and what it answers to each.

use crate::texts::{OutputText, halves, hex_bytes_of};
use gx_access_gate::{LoginAnswer, StepFault};
use gx_session::{Control, Event, Next, Reply, Session, Sign};
use gx_soup::{ClientPacket, LoginRequest, Payload};
use gx_units::{LoginRejection, Password, SessionName, UserName};
use std::alloc::Global;

const BLANK: SessionName = SessionName {
    bytes: *b"          ",
};

/// The events that have one word each and are no packets.
const EVENTS: [(&str, Event<'static>); 6] = [
    (
        "accepted",
        Event::Answered(LoginAnswer::Accepted {
            session: BLANK,
            next: 1,
        }),
    ),
    (
        "rejected",
        Event::Answered(LoginAnswer::Rejected(LoginRejection::NotAuthorized)),
    ),
    ("refused", Event::Refused(StepFault::OutOfMemory)),
    ("tick", Event::Tick),
    ("fault", Event::Fault),
    ("end", Event::End),
];

/// The packet that one word names, if it names one.
fn packet_of(word: &str) -> Option<ClientPacket> {
    if word == "login" {
        Some(ClientPacket::Login(LoginRequest {
            user: UserName { bytes: *b"ALICE " },
            password: Password {
                bytes: *b"APPLE     ",
            },
            session: BLANK,
            wanted: 1,
        }))
    } else if word == "heartbeat" {
        Some(ClientPacket::Heartbeat)
    } else if word == "debug" {
        Some(ClientPacket::Debug)
    } else if word == "logout" {
        Some(ClientPacket::Logout)
    } else {
        None
    }
}

/// The event that a word names, if it names one that is no packet.
fn event_of(word: &str, count: &str) -> Option<Event<'static>> {
    let ended = word == "pulled-last";
    if ended || word == "pulled" {
        let count = count.parse().unwrap_or(0);
        return Some(Event::Pulled { count, ended });
    }
    for (name, event) in &EVENTS {
        if *name == word {
            return Some(*event);
        }
    }
    None
}

fn sent_text(send: Option<Control>) -> &'static str {
    match send {
        None => "",
        Some(Control::Answer(LoginAnswer::Accepted { .. })) => "send accepted, ",
        Some(Control::Answer(LoginAnswer::Rejected(_))) => "send rejected, ",
        Some(Control::Sign(Sign::Heartbeat)) => "send heartbeat, ",
        Some(Control::Sign(Sign::EndOfSession)) => "send end of session, ",
    }
}

fn next_text(next: Next) -> &'static str {
    match next {
        Next::Idle => "idle\n",
        Next::Login => "login\n",
        Next::Act(_) => "act\n",
        Next::Logout => "logout\n",
        Next::Close => "close\n",
    }
}

fn put_reply(out: &mut OutputText, reply: Reply) {
    out.put(sent_text(reply.send));
    out.put(next_text(reply.next))
}

/// Writes what follows an event that is no packet.
fn report_other_event(
    out: &mut OutputText,
    session: &mut Session,
    moment: u64,
    word: &str,
    count: &str,
) {
    match event_of(word, count) {
        Some(event) => put_reply(out, session.on(event, moment)),
        None => out.put("no such event\n"),
    }
}

/// Writes what follows a message whose bytes are in hex.
fn report_data(alloc: Global, out: &mut OutputText, session: &mut Session, moment: u64, hex: &str) {
    let bytes = hex_bytes_of(alloc, out, hex);
    match Payload::new(alloc, bytes.as_slice()) {
        Ok(payload) => {
            let packet = ClientPacket::Data(payload);
            put_reply(out, session.on(Event::Packet(&packet), moment))
        }
        Err(_) => out.mark_incomplete(),
    }
}

/// Writes what follows the event that a word names.
fn report_event(
    alloc: Global,
    out: &mut OutputText,
    session: &mut Session,
    moment: u64,
    words: &str,
) {
    let (word, rest) = halves(words, " ");
    if word == "data" {
        return report_data(alloc, out, session, moment, rest);
    }
    match packet_of(word) {
        Some(packet) => put_reply(out, session.on(Event::Packet(&packet), moment)),
        None => report_other_event(out, session, moment, word, rest),
    }
}

/// Writes what follows the event of a line, which begins with its moment.
fn report_line(alloc: Global, out: &mut OutputText, session: &mut Session, line: &str) {
    out.put(line);
    out.put(": ");
    let (moment, words) = halves(line, " ");
    match moment.parse() {
        Ok(moment) => report_event(alloc, out, session, moment, words),
        Err(_) => out.put("no moment\n"),
    }
}

/// Writes what follows each event of a session that begins at this moment.
pub fn report_session(alloc: Global, out: &mut OutputText, begin: &str, lines: &str) {
    let mut session = Session::new(begin.parse().unwrap_or(0));
    for line in lines.lines() {
        report_line(alloc, out, &mut session, line);
    }
}
