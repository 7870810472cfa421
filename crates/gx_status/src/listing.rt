//! Rows as a JSON array.

ghost use Rattle.std.specs.Prelude.{◌≡◌, ◌++◌, codes, flat_map, OnOk};
ghost use Rattle.gx_status.specs.Listings.{array_text, rows_text};

use gx_text::append;
use gx_units::OutOfMemory;

/// A row that is told as a JSON object.
pub(crate) trait Row {
    ghost use Rattle.std.specs.Prelude.{ℕ, List};

    // The object.
    ghost json: { Self → List ℕ };

    /// Puts the object at the end of the text.
    fn append_json(&self, text: &mut Vec<u8>) -> Result<(), OutOfMemory>
        ensures told { OnOk result (text.new.items ≡ text.old.items ++ json self.now) };
}

/// Puts the rows at the end of the text, each behind a comma.
fn append_more<T: Row>(text: &mut Vec<u8>, rows: &[T]) -> Result<(), OutOfMemory>
    ensures { OnOk result (text.new.items
        ≡ text.old.items ++ flat_map (λ row. codes "," ++ T.json row) rows.now) }
{
    for row in rows {
        append(text, b",")?;
        row.append_json(text)?;
    }
    Ok(())
}

fn append_rows<T: Row>(text: &mut Vec<u8>, rows: &[T]) -> Result<(), OutOfMemory>
    ensures { OnOk result (text.new.items ≡ text.old.items ++ rows_text T.json rows.now) }
{
    match rows {
        [] => Ok(()),
        [first, more @ ..] => {
            first.append_json(text)?;
            append_more(text, more)
        }
    }
}

/// Puts the array of these rows at the end of the text.
pub(crate) fn append_array<T: Row>(text: &mut Vec<u8>, rows: &[T]) -> Result<(), OutOfMemory>
    ensures { OnOk result (text.new.items ≡ text.old.items ++ array_text T.json rows.now) }
{
    append(text, b"[")?;
    append_rows(text, rows)?;
    append(text, b"]")
}
