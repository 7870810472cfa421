//! The end of a server, as it is asked for.

ghost use Rattle.std.specs.Prelude.{◌≡◌};

use std::marker::Model;
use std::sync::atomic::{AtomicBool, Ordering};

/// Whether the end was asked for, as it was looked up. A [`ShutdownFlag`] alone gives one, at each look.
#[derive(Drop)]
pub struct ShutdownAsked {
    yes: bool,
}

impl Model for ShutdownAsked {
    ghost use Rattle.std.specs.Prelude.{Bool};

    ghost Value = { Bool };

    ghost view = { λ a. a.yes };
}

impl ShutdownAsked {
    /// Whether it was.
    pub fn is_yes(&self) -> bool
        ensures { result ≡ self.now }
    {
        self.yes
    }
}

/// Whether a server is to end: no connection is taken any more, and those that are served end.
#[derive(Drop)]
pub struct ShutdownFlag {
    requested: AtomicBool,
}

impl ShutdownFlag {
    /// Nobody has asked for the end.
    pub fn new() -> ShutdownFlag {
        ShutdownFlag {
            requested: AtomicBool::new(false),
        }
    }

    /// Asks for the end.
    pub fn request(&self) {
        self.requested.store(true, Ordering::SeqCst);
    }

    /// Whether the end was asked for.
    pub fn is_requested(&self) -> ShutdownAsked {
        ShutdownAsked {
            yes: self.requested.load(Ordering::SeqCst),
        }
    }
}
