//! What the lines ask for, done.

use crate::fault::Fault;
use crate::run::{Phase, Run};
use crate::summary::kills_line;
use crate::timer::Timer;
use crossbeam_channel::Receiver;
use gx_operator::ClientRequest;
use gx_terminal::{HELP, Wish, WrongWord, accounts_named};
use std::alloc::Global;
use std::io::{Read, Write};
use std::sync::Wait;
use std::time::Clock;

/// What is told of `kill --all` where no accounts are known.
pub const NO_ACCOUNTS: &str =
    "kill --all wants --accounts A,B,C, or --status-port P or --policy FILE, which have them";

/// So many lines are obeyed at the most before it is looked again whether anything is heard.
const LINES_AT_A_TURN: usize = 4_096;

impl<S: Read + Write + Drop, O: Write + Drop, E: Write + Drop> Run<S, O, E> {
    /// Obeys the command and the lines that have come, up to the first for which anything is waited for: so lines that ask
    /// nothing wait for nothing.
    pub(crate) fn obey_lines<R: Wait + Clock>(
        &mut self,
        rt: &R,
        lines: &Receiver<Option<Vec<u8>>, Global>,
    ) -> Result<(), Fault> {
        for _ in 0..LINES_AT_A_TURN {
            if !self.is_free() || !self.obey_next(rt, lines)? {
                break;
            }
        }
        Ok(())
    }

    /// Whether the next line may be obeyed: nothing is waited for, and what became of all that was asked is told.
    fn is_free(&self) -> bool {
        self.phase == Phase::Talking
            && !self.page.is_wanted
            && !self.has_kills
            && self.operator.waiting().is_empty()
    }

    /// Obeys the command or the next line. Answers whether there was one.
    fn obey_next<R: Wait + Clock>(
        &mut self,
        rt: &R,
        lines: &Receiver<Option<Vec<u8>>, Global>,
    ) -> Result<bool, Fault> {
        match self.command.take() {
            Some(line) => self.obey(rt, line.as_slice()),
            None if self.unconfirmed.is_some() => self.confirm(rt, lines),
            None => self.obey_line(rt, lines),
        }
    }

    /// Obeys the next of the lines that come. Answers whether one has come.
    fn obey_line<R: Wait + Clock>(
        &mut self,
        rt: &R,
        lines: &Receiver<Option<Vec<u8>>, Global>,
    ) -> Result<bool, Fault> {
        if self.is_single && !self.operator.is_watching() {
            return self.part(rt);
        }
        match lines.try_recv(rt) {
            Ok(Some(line)) => self.obey(rt, line.as_slice()),
            Ok(None) => self.part(rt),
            Err(error) if error.is_empty() => Ok(false),
            Err(_) => self.part(rt),
        }
    }

    /// Logs out, since no line comes any more.
    pub(crate) fn part<R: Clock>(&mut self, rt: &R) -> Result<bool, Fault> {
        self.leave(rt)?;
        Ok(false)
    }

    /// Waits for the end of the lines, behind the end of the session: none can be obeyed any more.
    pub(crate) fn await_no_line<R: Wait>(
        &mut self,
        rt: &R,
        lines: &Receiver<Option<Vec<u8>>, Global>,
    ) -> Result<(), Fault> {
        match lines.recv(rt) {
            Ok(Some(_)) => Err(Fault::SessionEnded),
            Ok(None) | Err(_) => {
                self.phase = Phase::Over;
                Ok(())
            }
        }
    }

    /// Obeys this line. Answers that there was one.
    fn obey<R: Clock>(&mut self, rt: &R, line: &[u8]) -> Result<bool, Fault> {
        match Wish::read(line) {
            Ok(wish) => self.obey_wish(rt, &wish, line)?,
            Err(wrong) => self.tell_wrong(wrong),
        }
        Ok(true)
    }

    /// Does what the line asks for, once the page was asked where that is needed.
    fn obey_wish<R: Clock>(&mut self, rt: &R, wish: &Wish, line: &[u8]) -> Result<(), Fault> {
        if self.puts_off(wish, line)? {
            return Ok(());
        }
        match wish {
            Wish::KillEach => self.kill_named(rt, line),
            _ => self.do_wish(rt, wish),
        }
    }

    fn tell_wrong(&mut self, wrong: WrongWord) {
        self.has_bad_words = true;
        let _ = writeln!(self.err, "gate: {wrong}");
    }

    fn do_wish<R: Clock>(&mut self, rt: &R, wish: &Wish) -> Result<(), Fault> {
        match wish {
            Wish::Nothing | Wish::KillEach => Ok(()),
            Wish::Watch => {
                self.operator.watch();
                Ok(())
            }
            Wish::Help => self.show(HELP.as_bytes()),
            Wish::Quit => self.leave(rt),
            Wish::KillAll => self.kill_all(rt),
            Wish::Limit(rule, limit) => self.set_limit(rt, wish, *rule, *limit),
            Wish::Ask(_) | Wish::Enter(_) | Wish::Replace(_) | Wish::Cancel(_) => {
                self.ask(rt, wish)
            }
        }
    }

    /// Asks for a single command or order.
    pub(crate) fn ask<R: Clock>(&mut self, rt: &R, wish: &Wish) -> Result<(), Fault> {
        match self.operator.asked(wish) {
            Some(asked) => self.send_asked(rt, &asked),
            None => Ok(()),
        }
    }

    /// Asks for this.
    fn send_asked<R: Clock>(&mut self, rt: &R, asked: &ClientRequest) -> Result<(), Fault> {
        let packet = self.operator.ask(asked)?;
        self.asked = Timer::start(rt);
        self.send(rt, packet.as_slice())
    }

    /// Asks for a Kill of each account that `kill --all` kills.
    fn kill_all<R: Clock>(&mut self, rt: &R) -> Result<(), Fault> {
        let Some(accounts) = &self.accounts else {
            self.has_bad_words = true;
            let _ = writeln!(self.err, "gate: {NO_ACCOUNTS}");
            return Ok(());
        };
        let kills = self.operator.kills(accounts.as_slice())?;
        self.kill_each(rt, kills, true)
    }

    /// Asks for a Kill of each account that the line names.
    fn kill_named<R: Clock>(&mut self, rt: &R, line: &[u8]) -> Result<(), Fault> {
        let accounts = accounts_named(self.alloc, line)?;
        let kills = self.operator.kills(accounts.as_slice())?;
        self.kill_each(rt, kills, false)
    }

    /// Asks for each of these Kills, all at once; what becomes of them is told in the end.
    fn kill_each<R: Clock>(
        &mut self,
        rt: &R,
        kills: Vec<ClientRequest>,
        is_of_all: bool,
    ) -> Result<(), Fault> {
        self.operator.begin_kills(kills);
        self.has_kills = true;
        self.is_of_all = is_of_all;
        self.ask_unanswered(rt)
    }

    /// Asks for each Kill of several that has no answer, all at once.
    pub(crate) fn ask_unanswered<R: Clock>(&mut self, rt: &R) -> Result<(), Fault> {
        let left = self.operator.round().unanswered()?;
        if left.is_empty() {
            return Ok(());
        }
        self.operator.give_up();
        self.send_each(rt, left.as_slice())
    }

    /// Tells what became of the Kills of a command, once none of them is waited for.
    pub(crate) fn settle_kills(&mut self) -> Result<(), Fault> {
        if !self.operator.waiting().is_empty() {
            return Ok(());
        }
        self.tell_kills()
    }

    /// Tells what became of the Kills of a command, if that is not told yet: those that have no answer now are not answered.
    ///
    /// # Errors
    ///
    /// `OutOfMemory`, or `OutputFailed`; the status counts them all the same.
    pub fn tell_kills(&mut self) -> Result<(), Fault> {
        if !self.has_kills {
            return Ok(());
        }
        self.has_kills = false;
        self.kills_status = self.kills_status.max(self.operator.round().status());
        let line = kills_line(
            self.alloc,
            self.form,
            self.operator.round(),
            self.told_file(),
        )?;
        self.operator.begin_kills(Vec::new(self.alloc));
        self.show(line.as_slice())
    }

    /// The file that alone tells the accounts of the Kills, if one does.
    fn told_file(&self) -> Option<&[u8]> {
        if !self.is_of_all {
            return None;
        }
        self.file.as_deref()
    }

    /// Asks for each of these, in this order.
    fn send_each<R: Clock>(&mut self, rt: &R, all: &[ClientRequest]) -> Result<(), Fault> {
        for asked in all {
            self.send_asked(rt, asked)?;
        }
        Ok(())
    }
}
