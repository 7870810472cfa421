//! What the server's page tells, which a run asks for where a line needs it.

use crate::fault::Fault;
use crate::run::Run;
use gx_terminal::{KnownLimit, Wish};
use gx_text::append;
use gx_units::AccountName;
use std::io::{Read, Write};

/// Why a run pauses.
#[derive(Clone, Copy, PartialEq, Eq)]
pub enum Pause {
    /// It is over.
    Over,
    /// The next line needs what the server's page tells.
    WantsPage,
}

/// Whether the page is asked, and how far that is.
#[derive(Clone, Copy)]
pub(crate) struct PageUse {
    /// Whether it is asked at all.
    pub(crate) is_asked: bool,
    /// Whether a line needs it now.
    pub(crate) is_wanted: bool,
    /// Whether it was asked for the next line.
    is_fresh: bool,
    /// Whether it told nothing when it was asked.
    pub(crate) was_missed: bool,
}

impl PageUse {
    pub(crate) fn new(is_asked: bool) -> PageUse {
        PageUse {
            is_asked,
            is_wanted: false,
            is_fresh: false,
            was_missed: false,
        }
    }
}

/// Whether accounts or limits have to be known for it.
fn needs_page(wish: &Wish) -> bool {
    matches!(wish, Wish::KillAll | Wish::Limit(_, _))
}

impl<S: Read + Write + Drop, O: Write + Drop, E: Write + Drop> Run<S, O, E> {
    /// Whether the line is put off until the page was asked. A page is asked anew for each line.
    pub(crate) fn puts_off(&mut self, wish: &Wish, line: &[u8]) -> Result<bool, Fault> {
        if !self.page.is_asked || self.page.is_fresh || !needs_page(wish) {
            self.page.is_fresh = false;
            return Ok(false);
        }
        let mut put_off = Vec::new(self.alloc);
        append(&mut put_off, line)?;
        self.command = Some(put_off);
        self.page.is_wanted = true;
        Ok(true)
    }

    /// From now on these are the accounts that `kill --all` kills, and the limits that are in force.
    pub fn take_page(&mut self, accounts: Vec<AccountName>, limits: Vec<KnownLimit>) {
        self.accounts = Some(accounts);
        self.limits = limits;
        self.page.is_wanted = false;
        self.page.is_fresh = true;
    }

    /// The page tells nothing: the line that needs it is not obeyed.
    pub fn miss_page(&mut self) {
        self.command = None;
        self.page.is_wanted = false;
        self.page.was_missed = true;
    }
}
