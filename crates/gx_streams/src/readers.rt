//! The spans of all readers.

ghost use Rattle.std.specs.{Prelude.{◌≡◌, ◌<◌, ◌+◌, ◌^◌, IfOk, IfSome, OnOk, OnErr, Some, length, map, option_map}, List.{AllByRecursion, find}};
ghost use Rattle.gx_policy.specs.People.{is_reader};
ghost use Rattle.gx_streams.specs.{Kept.at_first, Spans.{with_copies_counted, entitled_from, first_spans, is_named}};

use crate::fill::ReportedFill;
use crate::reader::Reader;
use gx_policy::{Policy, Role, User};
use gx_units::{OutOfMemory, UserName};
use indexmap::IndexMap;
use std::alloc::Global;
use std::marker::Model;

/// The policy's readers, in the file's order, each found by his name.
#[derive(Drop)]
pub(crate) struct Readers {
    by_name: IndexMap<UserName, Reader>,
    /// No reader has an account that is not in this mask.
    read: u64,
}

impl Model for Readers {
    ghost use Rattle.std.specs.Prelude.{List};
    ghost use Rattle.std.specs.Map.{values_of};
    ghost use Rattle.gx_streams.specs.Spans.{AreHeld, ReaderSpans};

    ghost Value = { List ReaderSpans };

    ghost view = { λ r. values_of r.by_name.entries };

    ghost invariant = { λ r. AreHeld r.read r.by_name.entries };
}

fn is_reader(user: &User) -> bool
    ensures { result ≡ is_reader (Some user.now.role) }
{
    matches!(user.role, Role::Reader(_))
}

impl Readers {
    /// The policy's readers, before any fill.
    pub(crate) fn new(alloc: Global, policy: &Policy) -> Result<Readers, OutOfMemory>
        ensures { IfOk result (λ readers. readers ≡ first_spans policy.now) }
    {
        // What this ensures: no two users have one name.
        let _ = policy.rules();
        let mut by_name = IndexMap::new(alloc);
        for user in policy.users() {
            if !is_reader(user) {
                continue;
            }
            by_name.insert(user.name, Reader::new(alloc, user.name))?;
        }
        Ok(Readers { by_name, read: 0 })
    }

    /// The reader of this name.
    pub(crate) fn find(&self, user: UserName) -> Option<&Reader>
        ensures { option_map (λ r. r.now) result ≡ find (is_named user) self.now }
    {
        self.by_name.get(&user)
    }

    /// How many readers there are.
    pub(crate) fn count(&self) -> usize
        ensures { result ≡ length self.now }
    {
        self.by_name.len()
    }

    /// The name of the reader at this place, and his mask.
    pub(crate) fn mask_at(&self, place: usize) -> Option<(UserName, u64)>
        ensures { IfSome result (λ his.
            option_map (λ r. r.current.mask) (find (is_named his.0) self.now) ≡ Some his.1) }
    {
        let (user, reader) = self.by_name.get_index(place)?;
        Some((*user, reader.current().mask))
    }

    /// Counts the copies of one more fill for each reader. It looks at none where no reader has an account of it.
    pub(crate) fn note(&mut self, fill: &ReportedFill)
        requires { AllByRecursion (λ r. r.count + 2 < 2 ^ 64) self.old }
        ensures { self.new ≡ map (with_copies_counted fill.now) self.old }
    {
        if fill.count(self.read) == 0 {
            return;
        }
        for place in 0..self.by_name.len() {
            self.by_name[place].note(fill);
        }
    }

    /// Begins a span with this mask at this fill, for one reader.
    pub(crate) fn entitle(
        &mut self,
        user: UserName,
        mask: u64,
        fill: usize,
    ) -> Result<(), OutOfMemory>
        requires { AllByRecursion (λ r. r.count + 2 < 2 ^ 64) self.old }
        ensures ok { OnOk result (self.new
            ≡ at_first (is_named user) (entitled_from mask fill) self.old) }
        ensures err { OnErr result (self.new ≡ self.old) }
    {
        self.read |= mask;
        let Some(reader) = self.by_name.get_mut(&user) else {
            return Ok(());
        };
        reader.entitle(mask, fill)
    }
}
