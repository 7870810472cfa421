//! The one thread that serves the page.

ghost use Rattle.std.specs.Prelude.{◌≡◌};

use crate::answer::{HttpAnswer, answer_to};
use crate::guest::Guest;
use gx_board::Board;
use gx_button::Secret;
use gx_control::{ServerControl, ShutdownFlag};
use gx_door::{Dial, Door};
use gx_http::{Request, RequestTarget};
use gx_policy::Policy;
use gx_records::{ShowsRecords, ShowsState};
use gx_serve::Announces;
use gx_status::ServerFigures;
use gx_units::{OutOfMemory, UserName};
use std::alloc::Global;
use std::net::TcpListener;
use std::sync::Wait;
use std::thread;
use std::time::{Clock, Duration};

/// So many connections are served at once.
const AT_ONCE: usize = 64;

/// So many of them may wait for an answer in one user's name.
const WAITING_FOR_ONE: usize = 8;

/// Who has shown his password comes before others for so many seconds.
const SHOWN_LASTS_SECONDS: u64 = 60;

/// So many are taken at a look, so that whoever connects over and over keeps nobody from the processor.
const AT_A_LOOK: usize = 4;

/// So many milliseconds lie at least between two answers, so that whoever asks all the time keeps nobody from the gate.
const BETWEEN_ANSWERS_MILLIS: u64 = 20;

/// So many milliseconds an answer to `/healthz` is given to whoever asks for it, before the gate is looked at for it again.
const HEALTH_LASTS_MILLIS: u64 = 500;

/// So many portions of the gate's records are followed at a look, so that whoever is connected does not wait for more.
const PORTIONS_AT_A_LOOK: usize = 8;

/// So many milliseconds later it is looked whether there are records to follow, once there were none.
const BETWEEN_PORTIONS_MILLIS: u64 = 2;

/// So many milliseconds the thread rests where nobody is connected, and nobody comes.
const EMPTY_POLL_MILLIS: u64 = 20;

/// So many where somebody is connected, and nothing comes of it.
const GUESTS_POLL_MILLIS: u64 = 2;

/// What the page is served from. It stays the same for a run.
#[derive(Drop)]
pub struct PageServer<'x, T: Drop, D: Door<Pass = T>> {
    door: &'x D,
    policy: &'x Policy,
    secret: Secret,
    is_journaled: bool,
    control: &'x ServerControl,
    ghost same: { policy.now ≡ D.policy },
}

impl<'x, T: Drop, D: Door<Pass = T>> PageServer<'x, T, D> {
    /// A page of the gate at this door, which judges by this policy. Its tokens are made of the secret.
    pub fn new(
        door: &'x D,
        policy: &'x Policy,
        secret: Secret,
        is_journaled: bool,
        control: &'x ServerControl,
    ) -> PageServer<'x, T, D>
        requires policy { policy.now ≡ D.policy }
    {
        PageServer {
            door,
            policy,
            secret,
            is_journaled,
            control,
        }
    }
}

/// The last answer to `/healthz`, and when it was made.
#[derive(Drop)]
struct HealthAnswer {
    text: Vec<u8>,
    made: Duration,
}

/// An officer or a reader who has shown his password: when he did last, and when somebody was answered last in his name.
#[derive(Clone, Copy)]
struct ShownUser {
    user: UserName,
    shown: Duration,
    answered: Duration,
}

/// Who is connected, when somebody was answered last, and who has shown his password of late.
#[derive(Drop)]
struct Guests {
    all: Vec<Guest>,
    answered: Duration,
    shown: Vec<ShownUser>,
    /// When somebody was answered last in a name that is none of these.
    others_answered: Duration,
    health: Option<HealthAnswer>,
}

/// The time now; none where the clock can't be read.
fn time<R: Clock>(rt: &R) -> Duration {
    match rt.monotonic() {
        Ok(now) => now,
        Err(_) => Duration::ZERO,
    }
}

impl Guests {
    /// Hangs up on the one at this place.
    fn hang_up(&mut self, place: usize) {
        if let Some(guest) = self.all.get_mut(place) {
            guest.hang_up();
        }
        self.all.retain(|guest| !guest.is_over());
    }

    /// Whether it may be hung up on for another though an answer is owed to it: one to somebody in whose name no password was shown
    /// of late, which has yet to be made, or is late.
    fn gives_way(&self, guest: &Guest, now: Duration) -> bool {
        guest.is_late(now) || (guest.asks().is_some() && self.answered_for(guest, now).is_none())
    }

    /// The place of the one to hang up on for one more: of those to whom nothing is owed the first, else the last of those who
    /// give way.
    fn place_to_clear(&self, now: Duration) -> Option<usize> {
        let mut last_to_give_way = None;
        for (place, guest) in self.all.iter().enumerate() {
            if guest.is_owed_nothing(now) {
                return Some(place);
            }
            if self.gives_way(guest, now) {
                last_to_give_way = Some(place);
            }
        }
        last_to_give_way
    }

    /// Takes one who comes, if there is one, and room for him: where there is none he stays in the listener's queue. Answers
    /// whether one came.
    fn take(&mut self, alloc: Global, listener: &TcpListener, now: Duration) -> bool {
        let is_full = self.all.len() >= AT_ONCE;
        let to_clear = self.place_to_clear(now);
        if is_full && to_clear.is_none() {
            return false;
        }
        let Ok((stream, address)) = listener.accept() else {
            return false;
        };
        if let (true, Some(place)) = (is_full, to_clear) {
            self.hang_up(place);
        }
        if stream.set_nonblocking(true).is_ok() {
            let _ = self.all.push(Guest::new(alloc, stream, address.ip(), now));
        }
        true
    }

    /// Takes those who come, a few at a look.
    fn take_all(&mut self, alloc: Global, listener: &TcpListener, now: Duration) {
        for _ in 0..AT_A_LOOK {
            if !self.take(alloc, listener, now) {
                return;
            }
        }
    }

    /// Goes on with each as far as it can without waiting. Answers whether it did with one.
    fn go_on(&mut self, alloc: Global, now: Duration) -> bool {
        let mut moved = false;
        for guest in &mut self.all {
            if guest.go_on(alloc, now) {
                moved = true;
            }
        }
        self.all.retain(|guest| !guest.is_over());
        moved
    }

    /// How many wait for an answer in this user's name.
    fn count_of(&self, user: UserName) -> usize {
        self.all
            .iter()
            .filter(|guest| guest.claims() == Some(user))
            .count()
    }

    /// The place of the last who waits in the name of a user in whose name too many do.
    fn crowded(&self) -> Option<usize> {
        let mut found = None;
        for (place, guest) in self.all.iter().enumerate() {
            if let Some(user) = guest.claims() {
                if self.count_of(user) > WAITING_FOR_ONE {
                    found = Some(place);
                }
            }
        }
        found
    }

    /// Hangs up on those who wait in the name of a user in whose name too many do, as many as may have come at a look.
    fn thin_out(&mut self) {
        for _ in 0..AT_A_LOOK {
            match self.crowded() {
                Some(place) => self.hang_up(place),
                None => return,
            }
        }
    }

    /// When somebody was answered last in the name in which this one asks, if its user has shown his password of late.
    fn answered_for(&self, guest: &Guest, now: Duration) -> Option<Duration> {
        let user = guest.claims()?;
        let known = self.shown.iter().find(|known| known.user == user)?;
        let until = known
            .shown
            .saturating_add(Duration::from_secs(SHOWN_LASTS_SECONDS));
        if now < until {
            Some(known.answered)
        } else {
            None
        }
    }

    /// The place of the one whose turn it is of those who are to be answered, and what he asks for. Each name in which a password
    /// was shown of late has a turn, and all others together have one: the first who waits of those who have had none for
    /// longest.
    fn next(&self, now: Duration) -> Option<(usize, Request)> {
        let mut found: Option<(usize, Request)> = None;
        let mut longest = Duration::MAX;
        for (place, guest) in self.all.iter().enumerate() {
            if let Some(request) = guest.asks() {
                let since = self
                    .answered_for(guest, now)
                    .unwrap_or(self.others_answered);
                if found.is_none() || since < longest {
                    found = Some((place, request));
                    longest = since;
                }
            }
        }
        found
    }

    /// Notes that this one is answered in his turn.
    fn note_turn(&mut self, place: usize, now: Duration) {
        let Some(guest) = self.all.get(place) else {
            return;
        };
        if self.answered_for(guest, now).is_none() {
            self.others_answered = now;
        }
    }

    /// Notes that somebody was answered in a user's name, and whether he has shown that user's password.
    fn note(&mut self, user: UserName, has_shown: bool, now: Duration) {
        for known in &mut self.shown {
            if known.user == user {
                known.answered = now;
                if has_shown {
                    known.shown = now;
                }
                return;
            }
        }
        if has_shown {
            let _ = self.shown.push(ShownUser {
                user,
                shown: now,
                answered: now,
            });
        }
    }

    /// Whether somebody may be answered by now; always where the clock can't be read.
    fn may_answer(&self, now: Duration) -> bool {
        now == Duration::ZERO
            || now
                >= self
                    .answered
                    .saturating_add(Duration::from_millis(BETWEEN_ANSWERS_MILLIS))
    }

    /// Gives the guest at this place his answer.
    fn give<R: Wait + Clock>(
        &mut self,
        rt: &R,
        control: &ServerControl,
        place: usize,
        request: &Request,
        answer: Result<HttpAnswer, OutOfMemory>,
    ) {
        let now = time(rt);
        self.answered = now;
        self.note_turn(place, now);
        if let (Some(who), Ok(answer)) = (request.caller, &answer) {
            let has_shown = !answer.is_stranger && is_for_staff(request);
            self.note(who.user.folded(), has_shown, now);
        }
        let Some(guest) = self.all.get_mut(place) else {
            return;
        };
        match answer {
            Ok(HttpAnswer { text, is_stranger }) => {
                let is_late = is_stranger && is_one_too_many(rt, control, guest, request);
                guest.answer(Ok(text), is_late, now);
            }
            Err(refused) => guest.answer(Err(refused), false, now),
        }
    }
}

/// Whether a request asks for what officers and readers alone are shown.
fn is_for_staff(request: &Request) -> bool {
    !matches!(
        request.asked,
        RequestTarget::Health | RequestTarget::Kill(_)
    )
}

/// Gives all who ask whether the gate takes orders the last answer to that, while it is fresh.
fn answer_health(guests: &mut Guests, alloc: Global, now: Duration) {
    let Some(health) = &guests.health else {
        return;
    };
    if now
        >= health
            .made
            .saturating_add(Duration::from_millis(HEALTH_LASTS_MILLIS))
    {
        return;
    }
    for guest in &mut guests.all {
        if guest.asks_for_health() {
            let text = Vec::from_slice(alloc, health.text.as_slice());
            guest.answer(text.map_err(OutOfMemory::from), false, now);
        }
    }
}

/// Keeps an answer to `/healthz` for those who ask next.
fn keep_health(guests: &mut Guests, alloc: Global, now: Duration, answer: &HttpAnswer) {
    guests.health = match Vec::from_slice(alloc, answer.text.as_slice()) {
        Ok(text) => Some(HealthAnswer { text, made: now }),
        Err(_) => None,
    };
}

/// Whether a password was given that is one too many of those that were wrong.
fn is_one_too_many<R: Wait + Clock>(
    rt: &R,
    control: &ServerControl,
    guest: &Guest,
    request: &Request,
) -> bool {
    match request.caller {
        Some(who) => control
            .attempts
            .is_one_too_many(rt, who.user, guest.address),
        None => false,
    }
}

/// Wakes those whom a kill concerns.
fn tell_others<R: Wait>(rt: &R, control: &ServerControl, request: &Request) {
    if let RequestTarget::Kill(_) = request.asked {
        control.matcher.notify(rt);
    }
}

/// Answers the first who is to be answered, unless somebody was just before.
fn answer_next<
    T: Drop,
    D: Door<Pass = T>,
    G: ShowsRecords + ShowsState,
    R: Wait + Clock + Dial + Announces,
>(
    rt: &R,
    alloc: Global,
    server: &PageServer<'_, T, D>,
    board: Board<D, G>,
    guests: &mut Guests,
) -> Board<D, G> {
    let now = time(rt);
    if !guests.may_answer(now) {
        return board;
    }
    let Some((place, request)) = guests.next(now) else {
        return board;
    };
    let about = ServerFigures {
        is_journaled: server.is_journaled,
        connections: server.control.slots.count(rt),
        journal: server.control.journal.counts(),
        answers: server.control.answers.counts(),
    };
    let (board, answer) = answer_to(
        rt,
        alloc,
        server.door,
        server.policy,
        &server.secret,
        about,
        board,
        &request,
    );
    tell_others(rt, server.control, &request);
    if let (RequestTarget::Health, Ok(answer)) = (request.asked, &answer) {
        keep_health(guests, alloc, time(rt), answer);
    }
    guests.give(rt, server.control, place, &request, answer);
    board
}

/// Lets the board follow some of the records that came since somebody looked last. Answers whether there may be more.
fn follow_some<D: Door, G: ShowsRecords + ShowsState, R: Wait>(
    rt: &R,
    alloc: Global,
    door: &D,
    board: Board<D, G>,
) -> (Board<D, G>, bool) {
    let mut board = board;
    for _ in 0..PORTIONS_AT_A_LOOK {
        let (back, is_more) = board.follow(rt, door, alloc);
        board = back;
        if !is_more {
            return (board, false);
        }
    }
    (board, true)
}

/// When it is looked for records to follow again.
fn next_follow(now: Duration, is_more: bool) -> Duration {
    if is_more {
        now
    } else {
        now.saturating_add(Duration::from_millis(BETWEEN_PORTIONS_MILLIS))
    }
}

/// Rests where nothing has come of a look.
fn rest<R: Clock>(rt: &R, guests: &Guests, moved: bool) {
    if !moved {
        let pause = if guests.all.is_empty() {
            EMPTY_POLL_MILLIS
        } else {
            GUESTS_POLL_MILLIS
        };
        thread::sleep(rt, Duration::from_millis(pause));
    }
}

/// Serves the page on this listener until the end is asked for, 64 connections at once, each with five seconds for its request
/// and five for its answer. Each officer and reader who has shown his password within the minute has a turn, and all others together
/// have one, and nobody has more than eight wait in one name; whether the gate takes orders is told to all by one look at it. No connection is waited for, and no lock is held while anything is read from one or written to one;
/// what is waited for are the gate's lock and, where there is a journal, that what was done is kept.
pub fn serve_page<
    T: Drop,
    D: Door<Pass = T>,
    G: ShowsRecords + ShowsState,
    R: Wait + Clock + Dial + Announces,
>(
    rt: &R,
    alloc: Global,
    server: &PageServer<'_, T, D>,
    board: Board<D, G>,
    listener: &TcpListener,
    closing: &ShutdownFlag,
) {
    if listener.set_nonblocking(true).is_err() {
        return board.close();
    }
    let mut board = board;
    let mut follows_from = Duration::ZERO;
    let mut guests = Guests {
        all: Vec::new(alloc),
        answered: Duration::ZERO,
        shown: Vec::new(alloc),
        others_answered: Duration::ZERO,
        health: None,
    };
    for _ in rt.forever() {
        if closing.is_requested().is_yes() {
            break;
        }
        let now = time(rt);
        guests.take_all(alloc, listener, now);
        let moved = guests.go_on(alloc, now);
        guests.thin_out();
        answer_health(&mut guests, alloc, now);
        board = answer_next(rt, alloc, server, board, &mut guests);
        if now >= follows_from {
            let (back, is_more) = follow_some(rt, alloc, server.door, board);
            board = back;
            follows_from = next_follow(now, is_more);
        }
        rest(rt, &guests, moved || follows_from <= now);
    }
    board.close();
}
