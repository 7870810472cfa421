//! The lists of all users.

ghost use Rattle.std.specs.Prelude.{◌≡◌, ◌<◌, ◌≤◌, IsTrue, IfOk, IsOk, OnOk, OnErr};
ghost use Rattle.gx_streams.specs.Kept.{is_known, items_in, empty_lists, on_user, reserved_in, with_reserved_last, with_last, with_reserved, without_last};

use crate::entries::Entries;
use crate::stored_report::StoredReport;
use crate::stream::Stream;
use gx_index::{get_mut_near, index_near};
use gx_policy::Policy;
use gx_units::{OutOfMemory, UserName};
use indexmap::IndexMap;
use std::alloc::Global;
use std::marker::Model;

/// So many entries have room from the first on, as many for each user: a list that grows moves all that it holds.
const FIRST_ENTRIES: usize = 32_768;

/// What is kept of what each user of the policy was told, in order, and places reserved for more.
#[derive(Drop)]
pub(crate) struct ReportLists {
    by_user: IndexMap<UserName, Stream>,
}

/// A user's entries, in order, and where he stands among the policy's users: a look-up that tries this place first finds
/// him there.
#[derive(Drop)]
pub(crate) struct Found<'a> {
    pub(crate) entries: Entries<'a>,
    pub(crate) place: usize,
}

impl Model for ReportLists {
    ghost use Rattle.std.specs.Prelude.{List};
    ghost use Rattle.gx_streams.specs.Kept.{UserList};
    ghost use Rattle.gx_streams.specs.declared.stored_report.StoredReport.{StoredReport};

    ghost Value = { List (UserList StoredReport) };

    ghost use Rattle.gx_streams.specs.Table.{lists_of};

    ghost view = { λ told. lists_of told.by_user.entries };
}

impl ReportLists {
    /// The policy's users, whom nothing was told, and no place reserved.
    pub(crate) fn new(alloc: Global, policy: &Policy) -> Result<ReportLists, OutOfMemory>
        ensures { IfOk result (λ told. told ≡ empty_lists policy.now) }
    {
        // What this ensures: no two users have one name.
        let _ = policy.rules();
        let mut by_user = IndexMap::with_capacity(alloc, policy.users().len())?;
        let room = FIRST_ENTRIES / policy.users().len().max(1);
        for user in policy.users() {
            let stream = Stream::new(alloc, room)?;
            by_user.insert(user.name, stream)?;
        }
        Ok(ReportLists { by_user })
    }

    /// Whether the user is one of the policy. Takes no memory.
    #[tactic(auto, using(crate::proofs::Users_table::known_found))]
    pub(crate) fn knows(&self, user: UserName) -> bool
        ensures { result ≡ is_known self.now user }
    {
        self.by_user.contains_key(&user)
    }

    /// Puts the entry last in the user's stream, in a place of its own: those that are reserved stay so. Here and below, the
    /// user is looked for at this place of the policy's users first.
    ///
    /// `OutOfMemory`: the stream could not grow, and nothing has changed.
    #[inline(always)]
    pub(crate) fn append(
        &mut self,
        user: UserName,
        near: usize,
        entry: StoredReport,
    ) -> Result<(), OutOfMemory>
        requires known { IsTrue (is_known self.old user) }
        ensures ok { OnOk result (self.new ≡ on_user user (with_last entry) self.old) }
        ensures err { OnErr result (self.new ≡ self.old) }
    {
        let Some(stream) = get_mut_near(&mut self.by_user, near, user) else {
            return Ok(());
        };
        stream.push(entry)
    }

    fn take_back(&mut self, user: UserName, near: usize)
        requires known { IsTrue (is_known self.old user) }
        ensures { self.new ≡ on_user user without_last self.old }
    {
        let Some(stream) = get_mut_near(&mut self.by_user, near, user) else {
            return;
        };
        stream.take_back();
    }

    /// Puts one entry last in the first user's list, and then the other in the second's.
    ///
    /// `OutOfMemory`: one of them could not grow, and nothing has changed.
    #[tactic(auto, using(crate::proofs::Users_table::known_after, crate::proofs::Users_table::taken_back))]
    pub(crate) fn append_both(
        &mut self,
        first: UserName,
        near_first: usize,
        one: StoredReport,
        second: UserName,
        near_second: usize,
        other: StoredReport,
    ) -> Result<(), OutOfMemory>
        requires first { IsTrue (is_known self.old first) }
        requires second { IsTrue (is_known self.old second) }
        ensures ok { OnOk result (self.new
            ≡ on_user second (with_last other) (on_user first (with_last one) self.old)) }
        ensures err { OnErr result (self.new ≡ self.old) }
    {
        self.append(first, near_first, one)?;
        match self.append(second, near_second, other) {
            Ok(()) => Ok(()),
            Err(refused) => {
                self.take_back(first, near_first);
                Err(refused)
            }
        }
    }

    /// Reserves at least so many places for the user. Places that are reserved already count.
    ///
    /// `OutOfMemory`: the stream could not grow, and nothing has changed.
    #[inline(always)]
    pub(crate) fn reserve(
        &mut self,
        user: UserName,
        near: usize,
        places: usize,
    ) -> Result<(), OutOfMemory>
        requires known { IsTrue (is_known self.old user) }
        ensures ok { OnOk result (self.new ≡ on_user user (with_reserved places) self.old) }
        ensures enough { places ≤ reserved_in self.old user → IsOk result }
        ensures err { OnErr result (self.new ≡ self.old) }
    {
        let Some(stream) = get_mut_near(&mut self.by_user, near, user) else {
            return Ok(());
        };
        stream.reserve(places)
    }

    /// Puts the entry last in the user's stream, in a reserved place. Takes no memory.
    #[inline(always)]
    pub(crate) fn append_reserved(&mut self, user: UserName, near: usize, entry: StoredReport)
        requires { 0 < reserved_in self.old user }
        ensures { self.new ≡ on_user user (with_reserved_last entry) self.old }
    {
        let Some(stream) = get_mut_near(&mut self.by_user, near, user) else {
            return;
        };
        stream.push_reserved(entry);
    }

    /// The user's entries; none of a user who is not known.
    #[inline(always)]
    #[tactic(auto, using(crate::proofs::Users_table::items_found))]
    pub(crate) fn find(&self, user: UserName, near: usize) -> Found<'_>
        ensures { result.entries ≡ items_in self.now user }
    {
        match index_near(&self.by_user, near, user) {
            Some(place) => Found {
                entries: self.by_user[place].entries(),
                place,
            },
            None => Found {
                entries: Entries::none(),
                place: near,
            },
        }
    }
}
