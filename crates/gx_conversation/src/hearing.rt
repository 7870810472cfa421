//! What a run hears.

use crate::fault::Fault;
use crate::run::{Phase, Run};
use crate::timer::Timer;
use gx_client::Heard;
use gx_history::report::{Message, Report};
use gx_operator::read_message;
use gx_ouch::Outbound;
use gx_soup::ServerPacket;
use std::io::{ErrorKind, Read, Write};
use std::time::Clock;

impl<S: Read + Write + Drop, O: Write + Drop, E: Write + Drop> Run<S, O, E> {
    /// Hears what comes next, if anything comes in time.
    pub(crate) fn read_reports<R: Clock>(&mut self, rt: &R) -> Result<(), Fault> {
        let mut buffer = [0u8; 4096];
        match self.stream.read(&mut buffer) {
            Ok(0) => self.hear_end(),
            Ok(count) => {
                self.heard = Timer::start(rt);
                self.hear_piece(&buffer[..count])
            }
            Err(error) => match error.kind() {
                ErrorKind::WouldBlock | ErrorKind::TimedOut | ErrorKind::Interrupted => Ok(()),
                _ => self.hear_end(),
            },
        }
    }

    /// The peer has closed the line, as it is to do behind a logout and behind the end of the session.
    fn hear_end(&mut self) -> Result<(), Fault> {
        match self.phase {
            Phase::LoggingIn | Phase::Talking => Err(Fault::LineBroke),
            Phase::Ended => Ok(()),
            Phase::Leaving | Phase::Over => {
                self.phase = Phase::Over;
                Ok(())
            }
        }
    }

    fn hear_piece(&mut self, piece: &[u8]) -> Result<(), Fault> {
        let fed = self.feeder.feed(piece)?;
        self.hear_packets(fed.packets.as_slice())?;
        match fed.fault {
            Some(_) => Err(Fault::NoGate),
            None => Ok(()),
        }
    }

    fn hear_packets(&mut self, packets: &[ServerPacket]) -> Result<(), Fault> {
        for packet in packets {
            self.hear_packet(packet)?;
        }
        Ok(())
    }

    fn hear_packet(&mut self, packet: &ServerPacket) -> Result<(), Fault> {
        match self.session.hear(packet) {
            Heard::LoggedIn(_, next) => {
                self.begin(next);
                Ok(())
            }
            Heard::Refused(why) => Err(Fault::Rejected(why)),
            Heard::Report(number) => self.hear_data(number, packet),
            Heard::Ended => self.end(),
            Heard::Heartbeat | Heard::Unexpected => Ok(()),
        }
    }

    /// The login was accepted, and told the number of the next report. The first login of a run asked for the last report, so
    /// that the gate sends that again, if there is one.
    fn begin(&mut self, next: u64) {
        self.phase = Phase::Talking;
        self.repeated = if self.is_taken_up { None } else { Some(next) };
    }

    /// Whether anything was not asked yet, or not answered.
    fn has_more_to_ask(&self) -> bool {
        self.command.is_some() || self.unconfirmed.is_some() || !self.operator.waiting().is_empty()
    }

    /// The server has ended the session.
    fn end(&mut self) -> Result<(), Fault> {
        if self.phase == Phase::Leaving {
            return Ok(());
        }
        if self.has_more_to_ask() {
            return Err(Fault::SessionEnded);
        }
        self.phase = if self.is_single || self.operator.is_watching() {
            Phase::Over
        } else {
            Phase::Ended
        };
        Ok(())
    }

    fn hear_data(&mut self, number: u64, packet: &ServerPacket) -> Result<(), Fault> {
        let ServerPacket::Sequenced(payload) = packet else {
            return Ok(());
        };
        match read_message(payload.as_slice()) {
            Some(report) => self.hear_report(number, &report),
            None => Err(Fault::NoGate),
        }
    }

    /// A Canceled that the gate sends again answers no Cancel of this run. Any other report that it sends again has a tag or a
    /// token of its own; and where it has sent none before, the first is no Canceled.
    fn hear_report(&mut self, number: u64, report: &Report) -> Result<(), Fault> {
        let waiting = self.operator.waiting().len();
        let line = if self.repeated == Some(number) && is_canceled(&report.message) {
            self.operator
                .earlier_line(report.timestamp, &report.message)?
        } else {
            self.operator.hear(report.timestamp, &report.message)?
        };
        if self.operator.is_watching() || self.operator.waiting().len() < waiting {
            self.is_answered = true;
        }
        match line {
            Some(line) => self.show(line.as_slice()),
            None => Ok(()),
        }
    }

    /// Writes what is to be shown.
    pub(crate) fn show(&mut self, text: &[u8]) -> Result<(), Fault> {
        match self.out.write_all(text) {
            Ok(()) => Ok(()),
            Err(_) => Err(Fault::OutputFailed),
        }
    }
}

fn is_canceled(message: &Message) -> bool {
    matches!(message, Message::Order(Outbound::Canceled(_)))
}
