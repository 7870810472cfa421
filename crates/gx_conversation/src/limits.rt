//! Limits that lines give to rules: what is asked and told before one is sent.

use crate::fault::Fault;
use crate::run::Run;
use crossbeam_channel::Receiver;
use gx_lines::{LimitForm, meanings_line, no_money_line, question_line};
use gx_terminal::{KnownLimit, LimitFault, LimitUnit, TypedLimit, Wish};
use gx_units::RuleId;
use std::alloc::Global;
use std::io::{Read, Write};
use std::sync::Wait;
use std::time::Clock;

impl<S: Read + Write + Drop, O: Write + Drop, E: Write + Drop> Run<S, O, E> {
    /// How the limit is told of which this is known, where it is typed so. The page alone tells which limit is in force.
    fn limit_form(&self, known: Option<KnownLimit>, typed: TypedLimit) -> LimitForm {
        match known {
            Some(known) if known.unit == LimitUnit::Dollars && self.page.is_asked => {
                LimitForm::DollarsFrom(known.limit)
            }
            _ if typed.is_money => LimitForm::Dollars,
            _ => LimitForm::Number,
        }
    }

    /// Gives the rule the limit that is wished, where it is one of the rule; a limit that is far below the one before waits
    /// for a yes.
    pub(crate) fn set_limit<R: Clock>(
        &mut self,
        rt: &R,
        wish: &Wish,
        rule: RuleId,
        typed: TypedLimit,
    ) -> Result<(), Fault> {
        let known = KnownLimit::of_rule(self.limits.as_slice(), rule);
        let told = self.limit_form(known, typed);
        self.operator.tell_limits(told);
        let Some(known) = known else {
            return self.ask(rt, wish);
        };
        if let Some(fault) = typed.fault(known.unit) {
            return self.tell_limit_fault(rule, typed, fault);
        }
        if self.asks_first && typed.is_money && typed.is_under_tenth(known.limit) {
            let line = question_line(self.alloc, &rule, known.limit, typed.amount)?;
            let _ = self.err.write_all(line.as_slice());
            self.unconfirmed = Some(*wish);
            return Ok(());
        }
        self.ask(rt, wish)
    }

    /// Tells why a limit is none of its rule.
    fn tell_limit_fault(
        &mut self,
        rule: RuleId,
        typed: TypedLimit,
        fault: LimitFault,
    ) -> Result<(), Fault> {
        let line = match fault {
            LimitFault::TwoMeanings => meanings_line(self.alloc, &rule, typed.amount)?,
            LimitFault::CountsShares => no_money_line(self.alloc, &rule, b"shares")?,
            LimitFault::IsPartOfPrice => {
                no_money_line(self.alloc, &rule, b"ten-thousandths of the reference price")?
            }
        };
        self.has_bad_words = true;
        let _ = self.err.write_all(line.as_slice());
        Ok(())
    }

    /// Sends what waits for a yes, where the next line is one; anything else sends nothing. Answers whether a line has come.
    pub(crate) fn confirm<R: Wait + Clock>(
        &mut self,
        rt: &R,
        lines: &Receiver<Option<Vec<u8>>, Global>,
    ) -> Result<bool, Fault> {
        let line = match lines.try_recv(rt) {
            Ok(line) => line,
            Err(error) if error.is_empty() => return Ok(false),
            Err(_) => None,
        };
        let wished = self.unconfirmed.take();
        match (wished, &line) {
            (Some(wish), Some(text)) if text.as_slice() == b"yes".as_slice() => {
                self.ask(rt, &wish)?;
                return Ok(true);
            }
            _ => {}
        }
        self.has_bad_words = true;
        let _ = self.err.write_all(b"gate: nothing was sent\n");
        if line.is_none() {
            return self.part(rt);
        }
        Ok(true)
    }
}
