//! The tree of a policy file.

ghost use Rattle.std.specs.Prelude.{◌≡◌, false};
ghost use Rattle.toml.specs.View.{table_view};
ghost use Rattle.gx_policyvalues.specs.{declared.fault.FaultKind.TheVariants.NotToml, Field.{Gives, is_memory}, Parsing.tree};

use crate::fault::{Cause, FaultKind, PolicyFault};
use std::alloc::Global;
use toml::Table;

/// The fault of a text that is no TOML.
fn not_toml(alloc: Global, refused: &toml::de::Error) -> PolicyFault
    ensures { is_memory result.kind ≡ false → result.kind ≡ NotToml }
{
    match format!(in alloc; "{refused}") {
        Ok(text) => PolicyFault {
            kind: FaultKind::NotToml,
            entry: None,
            cause: Cause::Text(text),
        },
        Err(_) => PolicyFault::memory(),
    }
}

/// The table at the top of the file.
///
/// # Errors
///
/// `NotToml` where the bytes are no TOML, or that memory was refused.
pub fn tree(alloc: Global, bytes: &[u8]) -> Result<Table, PolicyFault>
    ensures { Gives (λ top. table_view top) result (tree bytes.now) }
{
    match toml::table_from_slice(alloc, bytes) {
        Ok(top) => Ok(top),
        Err(e) => {
            if e.is_memory() {
                Err(PolicyFault::memory())
            } else {
                Err(not_toml(alloc, &e))
            }
        }
    }
}
