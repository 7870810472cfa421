//! What a connection's state gives its writer.

ghost use Rattle.std.specs.Prelude.{◌≡◌, ◌≢◌, ◌≤◌, ◌↔◌, length, IfErr, IfOk, Some, None, is_some};
ghost use Rattle.gx_units.specs.Spelling.{folded_user};
ghost use Rattle.gx_history.specs.InForce.{line_of};
ghost use Rattle.gx_pass.specs.Views.{with_told};
ghost use Rattle.gx_door.specs.declared.fault.PullFault.TheVariants as pull_faults;
ghost use Rattle.gx_door.specs.Acts.{IsLater, history_met};
ghost use Rattle.gx_session.specs.{Events.is_over, Outboxes.left_after, Table.turn};
ghost use Rattle.gx_session.specs.Happenings as happens;
ghost use Rattle.gx_serve.specs.{Marks.{mark_sent, cursor_sent}, States.{HasMetMore, WasTold}, Seeking.{due_of, cursor_after, IsQuiet, Seeks, WasGreeted, WasPulled, WasSought, WasWatched}, Speech.{is_ending, Begins, AreReportsShown}, Tellings.sent_of};

use crate::state::{ConnectionState, ShutdownNoted};
use gx_access_gate::{LoginAnswer, Pulled, StepFault};
use gx_control::PullCursor;
use gx_door::{Dial, Door, PullFault};
use gx_session::{Event, Sign};
use gx_units::{Moment, UserName};
use std::marker::Model;
use std::sync::Wait;

/// The most reports of one pull.
const BATCH: u64 = 256;

/// That a session is over, and that nothing which it asked to send is left. It is given by what is due alone.
#[derive(Drop)]
pub struct Finished {
    _seen: (),
}

/// Whose reports a writer sends, and the number of the next. It goes on where reports were sent alone.
#[derive(Drop)]
pub struct Bookmark {
    user: UserName,
    next: u64,
    /// When he asked to log in.
    login: Moment,
}

impl Model for Bookmark {
    ghost use Rattle.gx_serve.specs.Marks.{mark, SentMark};

    ghost Value = { SentMark };

    ghost view = { λ b. mark b.user b.login b.next };
}

impl Bookmark {
    /// When the user asked to log in: reports of steps before are told again.
    pub fn login(&self) -> Moment
        ensures { result ≡ self.now.login }
    {
        self.login
    }
}

/// The answer to a login, and whose it is. A connection's state alone gives one.
#[derive(Drop)]
pub struct Answered {
    user: UserName,
    answer: LoginAnswer,
    /// When he asked for it.
    login: Moment,
    /// Of so many of the day's first records it may tell.
    known: u64,
}

impl Model for Answered {
    ghost use Rattle.gx_serve.specs.Marks.{given_login, Given};

    ghost Value = { Given };

    ghost view = { λ a. given_login a.user a.login a.answer a.known };
}

impl Answered {
    /// The answer.
    pub fn answer(&self) -> LoginAnswer
        ensures { result ≡ self.now.answer }
    {
        self.answer
    }

    /// Of how many of the day's first records it may tell.
    pub fn known(&self) -> u64
        ensures { result ≡ self.now.known }
    {
        self.known
    }

    /// What becomes of the login, once the answer was sent.
    pub fn sent(self) -> LoginOutcome
        ensures { Begins self.user self.login self.answer result }
    {
        match self.answer {
            LoginAnswer::Accepted { session: _, next } => LoginOutcome::On(Bookmark {
                user: self.user,
                next,
                login: self.login,
            }),
            LoginAnswer::Rejected(_) => LoginOutcome::Over(Finished { _seen: () }),
        }
    }
}

/// A packet that a session asked to send besides its login's answer. A connection's state alone gives one.
#[derive(Drop)]
pub struct Signed {
    sign: Sign,
}

impl Model for Signed {
    ghost use Rattle.gx_session.specs.declared.event.Sign.{Sign};

    ghost Value = { Sign };

    ghost view = { λ s. s.sign };
}

impl Signed {
    /// The packet.
    pub fn sign(&self) -> Sign
        ensures { result ≡ self.now }
    {
        self.sign
    }

    /// That nothing is left behind it, where it ends the session.
    pub fn finished(self) -> Option<Finished>
        ensures { is_some result ≡ is_ending self }
    {
        match self.sign {
            Sign::EndOfSession => Some(Finished { _seen: () }),
            Sign::Heartbeat => None,
        }
    }
}

/// Reports that were pulled, and how many records there were before. A connection's state alone gives
/// them.
#[derive(Drop)]
pub struct Fetched {
    pulled: Pulled,
    count: u64,
    /// Of so many of the day's first records they may tell.
    known: u64,
}

impl Model for Fetched {
    ghost use Rattle.gx_serve.specs.Marks.{fetched_data, FetchedData};

    ghost Value = { FetchedData };

    ghost view = { λ f. fetched_data f.pulled f.count f.known };
}

impl Fetched {
    /// The reports.
    pub fn pulled(&self) -> &Pulled
        ensures { result.now ≡ self.now.pulled }
    {
        &self.pulled
    }

    /// Of how many of the day's first records they may tell.
    pub fn known(&self) -> u64
        ensures { result ≡ self.now.known }
    {
        self.known
    }

    /// Whether they are all that there were, and the day goes on behind them.
    pub fn is_all(&self) -> bool {
        (self.pulled.reports.as_slice().len() as u64) < BATCH && !self.pulled.ended
    }
}

/// What became of a login.
#[derive(Drop)]
pub enum LoginOutcome {
    /// A user is logged in: whose reports he is sent, from which number on.
    On(Bookmark),
    /// Nobody is: the session is over.
    Over(Finished),
    /// The answer was not sent.
    Cut,
}

/// What the writer does for a user who was logged in.
#[derive(Drop)]
pub enum NextWrite {
    /// Sends a packet of the session's own.
    Sign(Signed),
    /// Sends reports.
    Reports(Fetched),
    /// Nothing for now.
    Nothing,
    /// Nothing any more: the session is over, and all that it asked to send was taken.
    Over(Finished),
}

/// What a pull brought is due; where it is nothing, all records were seen.
fn due_of(fetched: Fetched, cursor: &mut PullCursor) -> NextWrite
    ensures due { result ≡ due_of fetched }
    ensures cursor { cursor.new ≡ cursor_after cursor.old fetched }
{
    if fetched.pulled.reports.as_slice().is_empty() && !fetched.pulled.ended {
        cursor.note_pull(fetched.count, false);
        NextWrite::Nothing
    } else {
        NextWrite::Reports(fetched)
    }
}

impl<T: Drop> ConnectionState<T> {
    /// Tells the session of the time. It asks for no answer to a login.
    #[tactic(auto, using(crate::proofs::Session_call::ticks_answer_nothing))]
    fn tick<D: Door<Pass = T>, R: Wait + Dial>(
        &mut self,
        rt: &R,
        door: &D,
        moment: Moment,
    ) -> Option<Result<Answered, Finished>>
        requires clock { R.shown moment }
        ensures quiet { IsQuiet (is_over self.new.session.phase) result }
        ensures told { WasTold D.policy self.old.user happens.Tick moment
            self.old.session (history_met D.observed self.old.pass)
            self.new.session (history_met D.observed self.new.pass) }
        ensures user { self.new.user ≡ self.old.user }
        ensures answer { self.new.outbox.answer ≡ self.old.outbox.answer }
    {
        self.tell(rt, door, Event::Tick, moment);
        if self.session.is_over() {
            Some(Err(Finished { _seen: () }))
        } else {
            None
        }
    }

    /// What the writer does before the login is answered: it answers it, or looks at the time. Answers what it is to send,
    /// or that the session is over; `None` for nothing for now. The session was told of the server's end, where that was
    /// asked for.
    #[tactic(auto, using(crate::proofs::Session_call::was_handed_out))]
    pub fn greet<D: Door<Pass = T>, R: Wait + Dial>(
        &mut self,
        rt: &R,
        door: &D,
        _heeded: ShutdownNoted,
        moment: Moment,
    ) -> Option<Result<Answered, Finished>>
        requires clock { R.shown moment }
        ensures greeted { WasGreeted self.old.outbox.answer
            D.policy self.old.user self.old.login moment
            self.old.session (history_met D.observed self.old.pass)
            self.new.session (history_met D.observed self.new.pass) result }
        ensures taken { self.new.outbox.answer ≡ None }
        ensures user { self.new.user ≡ self.old.user }
    {
        match self.outbox.answer.take() {
            Some(answer) => Some(Ok(Answered {
                user: self.user,
                answer,
                login: self.login,
                known: self.length(door),
            })),
            None => {
                if self.session.is_over() {
                    Some(Err(Finished { _seen: () }))
                } else {
                    self.tick(rt, door, moment)
                }
            }
        }
    }

    /// How many records there are.
    pub(super) fn length<D: Door<Pass = T>>(&mut self, door: &D) -> u64
        ensures told { history_met D.observed self.new.pass
            ≡ with_told (history_met D.observed self.old.pass) result }
        ensures front { length (history_met D.observed self.old.pass).front ≤ result }
        ensures conduct { self.new.conduct ≡ self.old.conduct }
        ensures user { self.new.user ≡ self.old.user }
        ensures session { self.new.session ≡ self.old.session }
        ensures outbox { self.new.outbox ≡ self.old.outbox }
        ensures cursor { self.new.cursor ≡ self.old.cursor }
    {
        let Some(mut pass) = self.pass.take() else {
            unreachable!()
        };
        let length = door.length(&mut pass);
        self.pass = Some(pass);
        length
    }

    /// The user's reports from the bookmark on, and of how many of the day's first records they may tell.
    fn reports<D: Door<Pass = T>, R: Wait + Dial>(
        &mut self,
        rt: &R,
        door: &D,
        bookmark: &Bookmark,
    ) -> Result<(Pulled, u64), PullFault>
        ensures shown { IfOk result (λ found.
            AreReportsShown D.policy bookmark.now.user bookmark.now.next found.1 found.0) }
        ensures not_on { IfErr result (λ e. e ≡ pull_faults.NotOn
            ↔ line_of (history_met D.observed self.new.pass).front (folded_user bookmark.now.user)
            ≢ Some (history_met D.observed self.old.pass).line) }
        ensures later { IsLater D.policy
            (history_met D.observed self.old.pass) (history_met D.observed self.new.pass) }
        ensures looked { HasMetMore (history_met D.observed self.old.pass)
            (history_met D.observed self.new.pass) }
        ensures user { self.new.user ≡ self.old.user }
        ensures session { self.new.session ≡ self.old.session }
        ensures outbox { self.new.outbox ≡ self.old.outbox }
        ensures cursor { self.new.cursor ≡ self.old.cursor }
    {
        let Some(pass) = self.pass.take() else {
            unreachable!()
        };
        let (mut pass, answer) = door.pull(rt, pass, bookmark.user, bookmark.next, BATCH);
        let known = door.length(&mut pass);
        self.pass = Some(pass);
        match answer {
            Ok(pulled) => Ok((pulled, known)),
            Err(fault) => Err(fault),
        }
    }

    /// The user's reports from the bookmark on, where there are more records than were seen.
    #[tactic(auto, using(crate::proofs::Session_call::was_idle, crate::proofs::Session_call::was_fetched, crate::proofs::Session_call::was_refused, crate::proofs::Session_call::was_not_on))]
    fn pull<D: Door<Pass = T>, R: Wait + Dial>(
        &mut self,
        rt: &R,
        door: &D,
        bookmark: &Bookmark,
        moment: Moment,
    ) -> NextWrite
        requires clock { R.shown moment }
        ensures pulled { WasPulled D.policy self.old.user bookmark.now moment
            self.old.session (history_met D.observed self.old.pass) self.old.cursor
            self.new.session (history_met D.observed self.new.pass) self.new.cursor result }
        ensures user { self.new.user ≡ self.old.user }
    {
        let count = self.length(door);
        if !self.cursor.may_have_more(count) {
            self.drained = true;
            return NextWrite::Nothing;
        }
        match self.reports(rt, door, bookmark) {
            Ok((pulled, known)) => {
                self.drained = (pulled.reports.as_slice().len() as u64) < BATCH;
                let fetched = Fetched {
                    pulled,
                    count,
                    known,
                };
                due_of(fetched, &mut self.cursor)
            }
            Err(PullFault::OutOfMemory) => {
                self.refuse(rt, door, StepFault::OutOfMemory, moment);
                NextWrite::Nothing
            }
            Err(PullFault::NotOn) => {
                self.tell(rt, door, Event::Fault, moment);
                NextWrite::Nothing
            }
        }
    }

    /// What there is for the writer where the session asks to send nothing.
    fn seek<D: Door<Pass = T>, R: Wait + Dial>(
        &mut self,
        rt: &R,
        door: &D,
        bookmark: &Bookmark,
        moment: Moment,
    ) -> NextWrite
        requires clock { R.shown moment }
        ensures sought { Seeks None self.new.outbox D.policy self.old.user bookmark.now moment
            self.old.session (history_met D.observed self.old.pass) self.old.cursor
            self.new.session (history_met D.observed self.new.pass) self.new.cursor result }
        ensures user { self.new.user ≡ self.old.user }
    {
        if self.session.is_over() {
            return NextWrite::Over(Finished { _seen: () });
        }
        if self.session.is_on() {
            self.pull(rt, door, bookmark, moment)
        } else {
            NextWrite::Nothing
        }
    }

    /// What the writer does as time passes: what the session then asks to send, or else new reports.
    #[tactic(auto, using(crate::proofs::Session_call::was_watched))]
    fn watch_on<D: Door<Pass = T>, R: Wait + Dial>(
        &mut self,
        rt: &R,
        door: &D,
        bookmark: &Bookmark,
        moment: Moment,
    ) -> NextWrite
        requires clock { R.shown moment }
        ensures watched { WasWatched self.old.outbox self.new.outbox
            D.policy self.old.user bookmark.now moment
            self.old.session (history_met D.observed self.old.pass) self.old.cursor
            self.new.session (history_met D.observed self.new.pass) self.new.cursor result }
        ensures user { self.new.user ≡ self.old.user }
    {
        self.tell(rt, door, Event::Tick, moment);
        match self.outbox.sign.take() {
            Some(sign) => NextWrite::Sign(Signed { sign }),
            None => self.seek(rt, door, bookmark, moment),
        }
    }

    /// What the writer does for this user, whose next report has this number: first what the session
    /// asked to send, then what it asks for as time passes, then new reports. The session was told of the server's
    /// end, where that was asked for.
    pub fn due<D: Door<Pass = T>, R: Wait + Dial>(
        &mut self,
        rt: &R,
        door: &D,
        _heeded: ShutdownNoted,
        bookmark: &Bookmark,
        moment: Moment,
    ) -> NextWrite
        requires clock { R.shown moment }
        ensures sought { WasSought self.old.outbox self.new.outbox
            D.policy self.old.user bookmark.now moment
            self.old.session (history_met D.observed self.old.pass) self.old.cursor
            self.new.session (history_met D.observed self.new.pass) self.new.cursor result }
        ensures user { self.new.user ≡ self.old.user }
    {
        match self.outbox.sign.take() {
            Some(sign) => NextWrite::Sign(Signed { sign }),
            None => {
                if self.session.is_over() {
                    NextWrite::Over(Finished { _seen: () })
                } else {
                    self.watch_on(rt, door, bookmark, moment)
                }
            }
        }
    }

    /// These reports were sent: tells the session so, and goes on behind them.
    pub fn sent<D: Door<Pass = T>, R: Wait + Dial>(
        &mut self,
        rt: &R,
        door: &D,
        fetched: Fetched,
        bookmark: &mut Bookmark,
        moment: Moment,
    )
        requires clock { R.shown moment }
        ensures mark { bookmark.new ≡ mark_sent bookmark.old fetched }
        ensures told { WasTold D.policy self.old.user (sent_of fetched.pulled) moment
            self.old.session (history_met D.observed self.old.pass)
            self.new.session (history_met D.observed self.new.pass) }
        ensures user { self.new.user ≡ self.old.user }
        ensures outbox { self.new.outbox ≡ left_after self.old.outbox
            (turn self.old.session (sent_of fetched.pulled) moment).reply.send }
        ensures cursor { self.new.cursor ≡ cursor_sent fetched }
    {
        let count = fetched.pulled.reports.as_slice().len() as u64;
        let ended = fetched.pulled.ended;
        self.tell(rt, door, Event::Pulled { count, ended }, moment);
        self.cursor.note_pull(fetched.count, count >= BATCH);
        bookmark.next = fetched.pulled.next;
    }
}
