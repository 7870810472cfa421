//! A list that grows by what is found.

ghost use Rattle.gx_endings.specs.Endings.{Grows};
ghost use Rattle.std.specs.Prelude.{OnOk};

use gx_units::OutOfMemory;

/// Puts what was found behind the others, if there is anything.
pub(crate) fn put_last<T: Drop>(list: &mut Vec<T>, found: Option<T>) -> Result<(), OutOfMemory>
    ensures grows { OnOk result (Grows list.old.items found list.new.items) }
{
    match found {
        Some(one) => Ok(list.push(one)?),
        None => Ok(()),
    }
}
