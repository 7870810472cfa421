//! The version of a policy file, and what hangs on it.

ghost use Rattle.std.specs.Prelude.{◌≡◌, map};
ghost use Rattle.toml.specs.View.{table_view};
ghost use Rattle.gx_policyvalues.specs.Field.{seen_result};
ghost use Rattle.gx_policyfile.specs.Version.{version_number, version, top_keys, lifters_of, lifters};

use gx_policy::Lifters;
use gx_policyvalues::{PolicyFault, field};
use toml::Table;

/// The version of a policy file.
#[derive(Clone, Copy)]
pub enum FileVersion {
    /// Files that say `version = 1`.
    One,
    /// Files that say anything else, or nothing.
    Two,
}

/// The version by which a file is judged: 1 where its `version` is the integer 1, and 2 where that is anything else or
/// absent.
#[tactic(auto, unfolding(crate::specs::Version::version))]
pub fn version(top: &Table) -> FileVersion
    ensures { result ≡ version (table_view top.now) }
{
    match field::number_at(top, "version", 1, 1) {
        Ok(_) => FileVersion::One,
        Err(_) => FileVersion::Two,
    }
}

/// The keys at the top of a file of this version.
pub fn top_keys(version: FileVersion) -> &'static [&'static str]
    ensures { map (λ k. k.now) result.now ≡ top_keys version }
{
    match version {
        FileVersion::One => &["version", "session", "account", "stock", "user", "rule"],
        FileVersion::Two => &[
            "version", "session", "lifters", "account", "stock", "user", "rule",
        ],
    }
}

/// The number that the file gives itself.
///
/// # Errors
///
/// `MissingKey` where it gives none, `BadValue` where that is neither 1 nor 2.
pub fn number(top: &Table) -> Result<u64, PolicyFault>
    ensures { seen_result (λ n. n) result ≡ version_number (table_view top.now) }
{
    field::number_at(top, "version", 1, 2)
}

fn lifters_of(number: u64) -> Lifters
    ensures { result ≡ lifters_of number }
{
    if number == 1 {
        Lifters::One
    } else {
        Lifters::Two
    }
}

/// How many officers have to lift a killed account.
///
/// # Errors
///
/// In version 2, `MissingKey` where that is not said, `BadValue` where it is neither 1 nor 2.
pub fn lifters(version: FileVersion, top: &Table) -> Result<Lifters, PolicyFault>
    ensures { seen_result (λ l. l) result ≡ lifters version (table_view top.now) }
{
    match version {
        FileVersion::One => Ok(Lifters::One),
        FileVersion::Two => {
            let number = field::number_at(top, "lifters", 1, 2)?;
            Ok(lifters_of(number))
        }
    }
}
