//! Whether a server has begun to take connections.

use std::marker::Model;
use std::sync::{Condvar, Mutex, Wait};

/// Where a server stands.
#[derive(Clone, Copy, PartialEq, Eq)]
enum BeginStage {
    /// It takes no connection yet.
    Opening,
    /// It takes connections, or did.
    Begun,
    /// It never took one, and never will.
    Never,
}

/// Whether a server has begun to take connections: it says so itself, and whoever announces it waits for that.
#[derive(Drop)]
pub struct Begun {
    stage: Mutex<BeginStage>,
    news: Condvar,
}

// Clauses see nothing of it, which keeps the proofs of threads small.
impl Model for Begun {
    ghost use Rattle.std.specs.Prelude.{⊤};

    ghost Value = { ⊤ };

    ghost view = { λ _. tt };
}

impl Begun {
    /// It takes no connection yet.
    pub fn new() -> Begun {
        Begun {
            stage: Mutex::new(BeginStage::Opening),
            news: Condvar::new(),
        }
    }

    /// It takes connections from now on.
    pub fn begin<R: Wait>(&self, rt: &R) {
        *self.stage.lock(rt) = BeginStage::Begun;
        self.news.notify_all();
    }

    /// It takes none any more: where it never took one, nobody is to wait for it.
    pub fn end<R: Wait>(&self, rt: &R) {
        let mut stage = self.stage.lock(rt);
        if *stage == BeginStage::Opening {
            *stage = BeginStage::Never;
        }
        self.news.notify_all();
    }

    /// Waits until it takes connections, or never will. Answers whether it does.
    pub fn is_so<R: Wait>(&self, rt: &R) -> bool {
        let stage = self.news.wait_while(
            rt,
            self.stage.lock(rt),
            |stage| *stage == BeginStage::Opening,
        );
        *stage == BeginStage::Begun
    }
}
