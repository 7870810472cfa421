//! Which files are one.

ghost use Rattle.std.specs.Prelude.{◌≡◌};
ghost use Rattle.gx_files.specs.Identity.{are_one, shared_file};

/// A file as the system knows it: all its names have the same, and no other file has it.
#[derive(Clone, Copy, PartialEq, Eq)]
pub struct FileIdentity {
    /// The device that the file is on.
    pub device: u64,
    /// Its number there.
    pub inode: u64,
}

/// Two files of a run that are one.
#[derive(Clone, Copy, PartialEq, Eq)]
pub enum SharedFile {
    /// The policy file is the journal.
    PolicyAndJournal,
    /// The policy file is the audit.
    PolicyAndAudit,
    /// The journal is the audit.
    JournalAndAudit,
}

/// Whether both are there and are one file.
fn are_one(one: Option<FileIdentity>, other: Option<FileIdentity>) -> bool
    ensures { result ≡ are_one one other }
{
    match (one, other) {
        (Some(one), Some(other)) => one.device == other.device && one.inode == other.inode,
        _ => false,
    }
}

/// Which of a run's files are one; `None` where no two of them are. A file that is not there is none of them.
pub fn shared_file(
    policy: Option<FileIdentity>,
    journal: Option<FileIdentity>,
    audit: Option<FileIdentity>,
) -> Option<SharedFile>
    ensures { result ≡ shared_file policy journal audit }
{
    if are_one(policy, journal) {
        return Some(SharedFile::PolicyAndJournal);
    }
    if are_one(policy, audit) {
        return Some(SharedFile::PolicyAndAudit);
    }
    if are_one(journal, audit) {
        return Some(SharedFile::JournalAndAudit);
    }
    None
}
