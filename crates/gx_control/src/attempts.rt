//! How often somebody gives a wrong password.

use gx_units::UserName;
use std::alloc::Global;
use std::collections::BTreeMap;
use std::net::IpAddr;
use std::sync::{Mutex, Wait};
use std::time::{Clock, Duration, Instant};

/// So many wrong passwords of one user from one address are answered at once, in each minute.
const AT_ONCE: u8 = 5;

/// After so many seconds they are counted anew.
const COUNTED_SECONDS: u64 = 60;

/// Of so many users and addresses they are counted; of any other, none is answered at once.
const MOST: usize = 4_096;

/// A user's name, in upper case, as a number, and the address that he comes from.
type Guesser = (u64, IpAddr);

/// The bytes of a name as one number.
fn number_of(user: UserName) -> u64 {
    let [a, b, c, d, e, f] = user.bytes;
    u64::from_be_bytes([0, 0, a, b, c, d, e, f])
}

/// How many wrong passwords were given since the moment that it began at.
#[derive(Drop)]
struct Guesses {
    began: Option<Instant>,
    by_guesser: BTreeMap<Guesser, u8>,
}

impl Guesses {
    /// Whether they are counted for a minute.
    fn is_old<R: Clock>(&self, rt: &R) -> bool {
        match self.began.map(|began| began.elapsed(rt)) {
            Some(Ok(since)) => since >= Duration::from_secs(COUNTED_SECONDS),
            Some(Err(_)) => false,
            None => true,
        }
    }

    /// Counts anew, where a minute has passed.
    fn turn<R: Clock>(&mut self, rt: &R) {
        if self.is_old(rt) {
            self.began = Instant::now(rt).ok();
            self.by_guesser.clear();
        }
    }

    /// One more. Answers whether it is one too many.
    fn add(&mut self, guesser: Guesser) -> bool {
        let is_full = self.by_guesser.len() >= MOST;
        match self.by_guesser.get_mut(&guesser) {
            Some(count) => {
                *count = count.saturating_add(1);
                *count > AT_ONCE
            }
            None => is_full || self.by_guesser.insert(guesser, 1).is_err(),
        }
    }
}

/// Wrong passwords, as they are counted for each user and address.
#[derive(Drop)]
pub struct Attempts {
    guesses: Mutex<Guesses>,
}

impl Attempts {
    /// None yet.
    pub fn new(alloc: Global) -> Attempts {
        Attempts {
            guesses: Mutex::new(Guesses {
                began: None,
                by_guesser: BTreeMap::new(alloc),
            }),
        }
    }

    /// One more wrong password for this user from this address. Answers whether it is one too many: more than five were
    /// given for him from there within a minute.
    pub fn is_one_too_many<R: Wait + Clock>(
        &self,
        rt: &R,
        user: UserName,
        address: IpAddr,
    ) -> bool {
        let mut guesses = self.guesses.lock(rt);
        guesses.turn(rt);
        guesses.add((number_of(user.folded()), address))
    }
}
