//! Why a policy file is refused, and where.

ghost use Rattle.gx_policyvalues.specs.declared.fault.FaultKind.TheVariants as kinds;
ghost use Rattle.gx_policyvalues.specs.{Field.is_memory, Telling.kind_words};
ghost use Rattle.std.specs.Prelude.{◌≡◌, false};

use gx_policytext::line_at;
use gx_shortened::Shortened;
use gx_units::OutOfMemory;
use std::alloc::{AllocError, AllocFailed, Global};
use std::error::Error;
use std::fmt;
use toml::Table;

/// Why a policy file is refused: the first fault in the order of the format. The kinds have the numbers 1 to 8.
#[derive(Clone, Copy, PartialEq, Eq)]
pub enum FaultKind {
    /// The bytes are no TOML, or not UTF-8.
    NotToml = 1,
    /// A key is absent that has to be there.
    MissingKey,
    /// A key stands where it is not one of the keys of its place.
    UnknownKey,
    /// A value is of another type, out of its range, or not spelled as it may be.
    BadValue,
    /// A name is of no account or stock of the file.
    UnknownName,
    /// An entry is named as one before it in its place.
    DuplicateName,
    /// A place has more entries than it may have.
    TooMany,
    /// A growth was refused. It says nothing of the file.
    OutOfMemory,
}

impl FaultKind {
    /// The kind's number and name.
    pub fn words(self) -> &'static str
        ensures { result.now ≡ kind_words self }
    {
        match self {
            FaultKind::NotToml => "1 NotToml",
            FaultKind::MissingKey => "2 MissingKey",
            FaultKind::UnknownKey => "3 UnknownKey",
            FaultKind::BadValue => "4 BadValue",
            FaultKind::UnknownName => "5 UnknownName",
            FaultKind::DuplicateName => "6 DuplicateName",
            FaultKind::TooMany => "7 TooMany",
            FaultKind::OutOfMemory => "8 OutOfMemory",
        }
    }

    /// Whether a growth was refused.
    pub fn is_memory(self) -> bool
        ensures { result ≡ is_memory self }
    {
        match self {
            FaultKind::OutOfMemory => true,
            _ => false,
        }
    }
}

impl fmt::Display for FaultKind {
    fn fmt<W: fmt::Write>(&self, f: &mut fmt::Formatter<W>) -> fmt::Result {
        f.write_str(self.words())
    }
}

/// The letters that a name is made of.
#[derive(Clone, Copy)]
pub enum Letters {
    /// `A` to `Z`, `0` to `9` and `_`.
    Plain,
    /// ASCII `!` to `~`.
    Visible,
}

/// What a key allows.
#[derive(Clone, Copy)]
pub enum Allowed {
    /// An integer from the first to the second.
    Number(u64, u64),
    /// A string of one to so many of these letters.
    Text(Letters, usize),
    /// At most so many entries.
    Entries(usize),
    /// What the text says.
    Words(&'static str),
}

impl fmt::Display for Allowed {
    fn fmt<W: fmt::Write>(&self, f: &mut fmt::Formatter<W>) -> fmt::Result {
        match self {
            Allowed::Number(least, most) => {
                if least == most {
                    write!(f, "the integer {least}")
                } else {
                    write!(f, "an integer from {least} to {most}")
                }
            }
            Allowed::Text(Letters::Plain, most) => {
                write!(f, "a string of 1 to {most} of A to Z, 0 to 9 and _")
            }
            Allowed::Text(Letters::Visible, most) => {
                write!(f, "a string of 1 to {most} of the ASCII characters ! to ~")
            }
            Allowed::Entries(most) => write!(f, "at most {most} entries"),
            Allowed::Words(text) => f.write_str(text),
        }
    }
}

/// What is wrong there.
#[derive(Drop)]
pub enum Cause {
    /// Nothing of the file: a growth was refused.
    Memory,
    /// The text, as the reader of TOML tells it.
    Text(String),
    /// This key, which is absent or has too many entries, and what is allowed.
    Key(&'static str, Allowed),
    /// This key and its value, as they are written in a line of the file, and what is allowed.
    Value(String, Allowed),
    /// This key, where the others are the known ones.
    UnknownKey(String, &'static [&'static str]),
}

/// An entry of the file.
#[derive(Drop)]
pub struct EntryPlace {
    /// `account`, `stock`, `user` or `rule`.
    pub place: &'static str,
    /// From 1, in the file's order.
    pub number: usize,
    /// As it is written, where that is a string.
    pub name: Option<String>,
}

impl fmt::Display for EntryPlace {
    fn fmt<W: fmt::Write>(&self, f: &mut fmt::Formatter<W>) -> fmt::Result {
        let (place, number) = (self.place, self.number);
        write!(f, "{place} {number}")?;
        match &self.name {
            Some(name) => {
                let name = Shortened::of(name.as_str());
                write!(f, " {name:?}")
            }
            None => Ok(()),
        }
    }
}

/// Why a policy file is refused. `kind` is the first fault; the rest helps who writes the file.
#[derive(Drop)]
pub struct PolicyFault {
    /// Which fault it is.
    pub kind: FaultKind,
    /// The entry that has the fault, or None at the top of the file.
    pub entry: Option<EntryPlace>,
    /// What the fault is about, where more can be said of it.
    pub cause: Cause,
}

/// The line of this key and its value, where the value is what is wrong.
fn value_line(
    alloc: Global,
    key: &str,
    allowed: Allowed,
    table: &Table,
) -> Result<Option<String>, OutOfMemory> {
    match allowed {
        Allowed::Entries(_) => Ok(None),
        _ => line_at(alloc, key, table),
    }
}

impl PolicyFault {
    /// A fault at the value of a key, or that the key is absent.
    pub fn at(kind: FaultKind, key: &'static str, allowed: Allowed) -> PolicyFault
        ensures { result.kind ≡ kind }
    {
        PolicyFault {
            kind,
            entry: None,
            cause: Cause::Key(key, allowed),
        }
    }

    /// The fault with the value that stands under its key in this table, where it has no place yet.
    pub fn with_value(self, alloc: Global, table: &Table) -> PolicyFault
        ensures { is_memory result.kind ≡ false → result.kind ≡ self.kind }
    {
        let PolicyFault { kind, entry, cause } = self;
        match (&entry, &cause) {
            (None, Cause::Key(key, allowed)) => match value_line(alloc, key, *allowed, table) {
                Ok(Some(line)) => PolicyFault {
                    kind,
                    entry,
                    cause: Cause::Value(line, *allowed),
                },
                Ok(None) => PolicyFault { kind, entry, cause },
                Err(_) => PolicyFault::memory(),
            },
            _ => PolicyFault { kind, entry, cause },
        }
    }

    /// A growth was refused.
    pub fn memory() -> PolicyFault
        ensures { result.kind ≡ kinds.OutOfMemory }
    {
        PolicyFault {
            kind: FaultKind::OutOfMemory,
            entry: None,
            cause: Cause::Memory,
        }
    }

    /// The fault within this entry.
    pub fn within(self, entry: EntryPlace) -> PolicyFault
        ensures { result.kind ≡ self.kind }
    {
        let PolicyFault { kind, cause, .. } = self;
        PolicyFault {
            kind,
            entry: Some(entry),
            cause,
        }
    }
}

/// The keys, with commas between them.
#[derive(Clone, Copy)]
struct KeyList(&'static [&'static str]);

impl fmt::Display for KeyList {
    fn fmt<W: fmt::Write>(&self, f: &mut fmt::Formatter<W>) -> fmt::Result {
        let mut gap = "";
        for key in self.0 {
            write!(f, "{gap}{key}")?;
            gap = ", ";
        }
        Ok(())
    }
}

/// The line of a key and its value, as a fault shows it: cut short where it is long, and without a password.
#[derive(Clone, Copy)]
struct ShownLine<'a>(&'a str);

impl fmt::Display for ShownLine<'_> {
    fn fmt<W: fmt::Write>(&self, f: &mut fmt::Formatter<W>) -> fmt::Result {
        let line = self.0;
        if line.contains("password") {
            let key = line.split_whitespace().next().unwrap_or("password");
            return write!(f, "{key} = \"..\"");
        }
        let line = Shortened::of(line);
        write!(f, "{line}")
    }
}

/// Where a fault is, and what is allowed there: a line for each, and no line end behind the last. Nothing is said
/// where a growth was refused. No password is shown, and of a long value its front alone.
#[derive(Clone, Copy)]
pub struct FaultPlace<'a>(&'a PolicyFault);

impl fmt::Display for FaultPlace<'_> {
    fn fmt<W: fmt::Write>(&self, f: &mut fmt::Formatter<W>) -> fmt::Result {
        let fault = self.0;
        if let Some(entry) = &fault.entry {
            write!(f, "{entry}, ")?;
        }
        match &fault.cause {
            Cause::Memory => Ok(()),
            Cause::Text(text) => f.write_str(text.as_str().trim_end()),
            Cause::Key(key, allowed) => write!(f, "key {key}\nallowed: {allowed}"),
            Cause::Value(line, allowed) => {
                let line = ShownLine(line.as_str());
                write!(f, "key {line}\nallowed: {allowed}")
            }
            Cause::UnknownKey(key, known) => {
                let (key, keys) = (Shortened::of(key.as_str()), KeyList(known));
                write!(f, "key {key:?}\nallowed: the keys {keys}")
            }
        }
    }
}

impl PolicyFault {
    /// Where the fault is, and what is allowed there.
    pub fn place(&self) -> FaultPlace<'_> {
        FaultPlace(self)
    }
}

/// A line that names the fault, a line that says where it is, and a line that says what is allowed there.
impl fmt::Display for PolicyFault {
    fn fmt<W: fmt::Write>(&self, f: &mut fmt::Formatter<W>) -> fmt::Result {
        let (kind, place) = (self.kind, self.place());
        match &self.cause {
            Cause::Memory => write!(f, "policy fault {kind}"),
            _ => write!(f, "policy fault {kind}\n{place}"),
        }
    }
}

impl From<AllocError> for PolicyFault {
    ghost from_gives = { λ _ e. e.kind ≡ kinds.OutOfMemory };

    fn from(_refused: AllocError) -> PolicyFault {
        PolicyFault::memory()
    }
}

impl<T: Drop> From<AllocFailed<T>> for PolicyFault {
    ghost from_gives = { λ _ e. e.kind ≡ kinds.OutOfMemory };

    fn from(_refused: AllocFailed<T>) -> PolicyFault {
        PolicyFault::memory()
    }
}

impl fmt::Debug for PolicyFault {
    fn fmt<W: fmt::Write>(&self, f: &mut fmt::Formatter<W>) -> fmt::Result {
        write!(f, "{self}")
    }
}

impl Error for PolicyFault {}
