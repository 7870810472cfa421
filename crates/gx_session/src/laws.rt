//! Laws of the session table: what was meant, in other words.

ghost use Rattle.std.specs.{Prelude.{ℕ, ◌≤◌, List, count_by, IsTrue}, List.list_all};
ghost use Rattle.gx_session.specs.{Happenings.Happening, Table.{SessionData, turn, new_session}, Events.{Timed, replies, is_over, is_last, is_parting, is_wordless, is_no_answer, is_acceptance, asks_login, asks_logout}};

/// After a logout or a close the session is over. Nothing is sent then, and at most one thing is asked: the logout
/// of a login that is accepted late.
pub fn ended_sessions_are_silent()
    ensures over { (session : SessionData) (event : Happening) (moment : ℕ)
        → IsTrue (is_last (turn session event moment).reply.next)
        → IsTrue (is_over (turn session event moment).session.phase) }
    ensures silent { (session : SessionData) (hs : List Timed) → IsTrue (is_over session.phase)
        → IsTrue (list_all is_parting (replies session hs)) }
    ensures once { (session : SessionData) (hs : List Timed) → IsTrue (is_over session.phase)
        → count_by asks_logout (replies session hs) ≤ 1 }
{}

/// Nothing is sent, no request is made and nobody is logged out before a login is answered.
pub fn silent_before_an_answer()
    ensures { (moment : ℕ) (hs : List Timed)
        → IsTrue (list_all (λ (h : Timed). is_no_answer h.event) hs)
        → IsTrue (list_all is_wordless (replies (new_session moment) hs)) }
{}

/// A session asks for one login at most.
pub fn one_login()
    ensures { (moment : ℕ) (hs : List Timed)
        → count_by asks_login (replies (new_session moment) hs) ≤ 1 }
{}

/// A session asks for no more logouts than logins were accepted.
pub fn no_logout_without_a_login()
    ensures { (moment : ℕ) (hs : List Timed)
        → count_by asks_logout (replies (new_session moment) hs)
        ≤ count_by (λ (h : Timed). is_acceptance h.event) hs }
{}
