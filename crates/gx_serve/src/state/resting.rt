//! How long the writer of a connection may rest.

ghost use Rattle.std.specs.Prelude.{◌≡◌, ◌&&◌, not};
ghost use Rattle.gx_session.specs.Table.{is_silent, rest_of};

use crate::state::ConnectionState;
use gx_units::Moment;

impl<T: Drop> ConnectionState<T> {
    /// Whether the session is silent, and was not found so when this was asked last: what the client has sent may lie unread
    /// still, as where the whole program was held up.
    pub fn is_in_doubt(&mut self, moment: Moment) -> bool
        ensures first { result ≡ (is_silent self.old.session moment && not self.old.doubted) }
        ensures doubted { self.new.doubted ≡ is_silent self.old.session moment }
        ensures user { self.new.user ≡ self.old.user }
        ensures session { self.new.session ≡ self.old.session }
        ensures pass { self.new.pass ≡ self.old.pass }
        ensures outbox { self.new.outbox ≡ self.old.outbox }
        ensures cursor { self.new.cursor ≡ self.old.cursor }
    {
        let silent = self.session.is_silent(moment);
        let doubted = self.doubted;
        self.doubted = silent;
        silent && !doubted
    }

    /// So many nanoseconds the writer may rest from this moment on, where nothing happens but that time passes.
    pub fn rest(&self, moment: Moment) -> u64
        ensures { result ≡ rest_of self.now.session moment }
    {
        self.session.rest(moment)
    }
}
