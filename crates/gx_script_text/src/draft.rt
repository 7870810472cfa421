//! A line that is put together from its end on, and appended at once.

ghost use Rattle.std.specs.Prelude.{◌≡◌, ◌+◌, ◌≤◌, ◌++◌, [], decimal, length};

use itoa::write_digits;
use std::marker::Model;

/// Room for the longest line of a record: five numbers of up to 20 digits, and the words between them.
pub(crate) const LINE_ROOM: usize = 128;

/// The end of a line. Contracts see its bytes.
#[derive(Drop)]
pub(crate) struct LineDraft {
    room: [u8; LINE_ROOM],
    /// Where what is written begins.
    start: usize,
}

impl Model for LineDraft {
    ghost use Rattle.std.specs.Prelude.{ℕ, List, drop, ◌≤◌};

    ghost Value = { List ℕ };

    ghost view = { λ draft. drop draft.start draft.room };

    ghost invariant = { λ draft. draft.start ≤ 128 };
}

impl LineDraft {
    /// Nothing yet.
    #[inline(always)]
    pub(crate) fn new() -> LineDraft
        ensures { result ≡ [] }
    {
        LineDraft {
            room: [0; LINE_ROOM],
            start: LINE_ROOM,
        }
    }

    /// Puts the bytes in front of what is written.
    #[inline(always)]
    pub(crate) fn put(&mut self, more: &[u8])
        requires { length more.now + length self.old ≤ 128 }
        ensures written { self.new ≡ more.now ++ self.old }
        ensures len { length self.new ≡ length more.now + length self.old }
    {
        let end = self.start;
        self.start -= more.len();
        self.room[self.start..end].copy_from_slice(more);
    }

    /// Puts the number in decimal digits in front of what is written.
    pub(crate) fn put_number(&mut self, number: u64)
        requires { 20 + length self.old ≤ 128 }
        ensures written { self.new ≡ decimal number ++ self.old }
        ensures len { length self.new ≤ 20 + length self.old }
    {
        self.start = write_digits(number, &mut self.room, self.start);
    }

    /// What is written.
    #[inline(always)]
    pub(crate) fn as_slice(&self) -> &[u8]
        ensures { result.now ≡ self.now }
    {
        &self.room[self.start..]
    }
}
