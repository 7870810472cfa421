//! What is said in a line of text.

ghost use Rattle.std.specs.Prelude.{◌≡◌};
ghost use Rattle.gx_page.specs.Notices.{notice_of_deed, notice_of_health, notice_of_kill, notice_of_refusal, notice_of_verdict, notice_status, notice_words};

use crate::reply::Health;
use gx_button::{Deed, Refusal};
use gx_history::record::Verdict;
use gx_http::{RequestFault, Status};
use gx_units::LoginRejection;

/// What is said in a line of text.
#[derive(Clone, Copy, PartialEq, Eq)]
pub enum Notice {
    /// The gate takes orders.
    Well,
    /// Its day is closed.
    Closed,
    /// Its day is full.
    Full,
    /// An officer's or a reader's name and password are wanted.
    Stranger,
    /// The token is not that of his page.
    NoToken,
    /// He has not the power to kill, or the account is not his.
    NoPower,
    /// He is logged in elsewhere.
    Elsewhere,
    /// The kill was denied.
    Denied,
    /// There was no memory for a step of the kill, or the day is full.
    Refused,
    /// The account is killed.
    Killed,
    /// What was done can't be kept, so nothing is told of it.
    Unkept,
    /// The bytes are no request that is served.
    Fault(RequestFault),
}

impl Notice {
    /// That of a gate's health.
    pub(crate) fn of_health(health: Health) -> Notice
        ensures { result ≡ notice_of_health health }
    {
        match health {
            Health::Well => Notice::Well,
            Health::Closed => Notice::Closed,
            Health::Full => Notice::Full,
        }
    }

    /// That of what became of a kill.
    pub(crate) fn of_kill(done: &Result<Deed, Refusal>) -> Notice
        ensures { result ≡ notice_of_kill done.now }
    {
        match done {
            Ok(deed) => Notice::of_deed(deed),
            Err(why) => Notice::of_refusal(*why),
        }
    }

    fn of_refusal(why: Refusal) -> Notice
        ensures { result ≡ notice_of_refusal why }
    {
        match why {
            Refusal::Unauthorized => Notice::Stranger,
            Refusal::NoToken => Notice::NoToken,
            Refusal::NoPower => Notice::NoPower,
        }
    }

    fn of_deed(deed: &Deed) -> Notice
        ensures { result ≡ notice_of_deed deed.now }
    {
        match deed {
            Deed::Refused(_) => Notice::Refused,
            Deed::Rejected(LoginRejection::NotAuthorized)
            | Deed::Rejected(LoginRejection::SessionNotAvailable) => Notice::Elsewhere,
            Deed::Asked(Ok(decided), _) => Notice::of_verdict(&decided.outcome.verdict),
            Deed::Asked(Err(_), _) => Notice::Refused,
        }
    }

    fn of_verdict(verdict: &Verdict) -> Notice
        ensures { result ≡ notice_of_verdict verdict.now }
    {
        match verdict {
            Verdict::Granted => Notice::Killed,
            Verdict::Denied(_) | Verdict::Filled(_) | Verdict::Rested(_) | Verdict::Expired(_) => {
                Notice::Denied
            }
        }
    }

    /// The status of the response that says it.
    pub(crate) fn status(self) -> Status
        ensures { result ≡ notice_status self }
    {
        match self {
            Notice::Well => Status::Done,
            Notice::Closed | Notice::Full | Notice::Refused | Notice::Unkept => Status::Unavailable,
            Notice::Stranger => Status::Unauthorized,
            Notice::NoToken | Notice::NoPower | Notice::Elsewhere | Notice::Denied => {
                Status::Forbidden
            }
            Notice::Killed => Status::SeePage,
            Notice::Fault(fault) => fault.status(),
        }
    }

    /// The words of it, a line.
    pub(crate) fn words(self) -> &'static [u8]
        ensures { result.now ≡ notice_words self }
    {
        match self {
            Notice::Well => b"the gate takes orders\n",
            Notice::Closed => b"the day is closed\n",
            Notice::Full => b"the day has as many records as it may have\n",
            Notice::Stranger => b"the name and the password of an officer or a reader are wanted\n",
            Notice::NoToken => b"the page is of an earlier run of the server: try again\n",
            Notice::NoPower => b"you may not kill this account\n",
            Notice::Elsewhere =>
                b"you are logged in elsewhere: kill from there, or log out there\n",
            Notice::Denied => b"the gate denied the kill: the last commands say why\n",
            Notice::Refused => b"there is no memory or no record left for the kill: try again\n",
            Notice::Killed => b"the account is killed\n",
            Notice::Unkept => b"the journal can't be written: nothing more is told\n",
            Notice::Fault(RequestFault::Misdirected) =>
                b"the page is served by the names 127.0.0.1, localhost and [::1] alone\n",
            Notice::Fault(_) => b"this is no request that is served here\n",
        }
    }
}
