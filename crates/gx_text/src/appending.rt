//! Bytes and numbers at the end of a text.

ghost use Rattle.std.specs.Prelude.{◌≡◌, ◌≤◌, ◌++◌, replicate, decimal, OnErr, OnOk};
ghost use Rattle.gx_text.specs.Moments.{with_zeros};

use gx_units::OutOfMemory;
use itoa::Buffer;

/// As many zeros as stand in front of a number at the most.
static ZEROS: [u8; 9] = [b'0'; 9];

/// So many zeros.
fn zeros(count: usize) -> &'static [u8]
    requires { count ≤ 9 }
    ensures { result.now ≡ replicate count 48 }
{
    &ZEROS[..count]
}

/// Puts the bytes at the end of the text.
///
/// # Errors
///
/// `OutOfMemory` where memory was refused; then the text is as it was.
pub fn append(text: &mut Vec<u8>, more: &[u8]) -> Result<(), OutOfMemory>
    ensures appended { OnOk result (text.new.items ≡ text.old.items ++ more.now) }
    ensures refused { OnErr result (text.new.items ≡ text.old.items) }
{
    text.extend_from_slice(more)?;
    Ok(())
}

/// Puts the number in decimal digits at the end of the text.
///
/// # Errors
///
/// `OutOfMemory` where memory was refused; then the text is as it was.
pub fn append_number(text: &mut Vec<u8>, number: u64) -> Result<(), OutOfMemory>
    ensures appended { OnOk result (text.new.items ≡ text.old.items ++ decimal number) }
    ensures refused { OnErr result (text.new.items ≡ text.old.items) }
{
    let mut digits = Buffer::new();
    append(text, digits.format(number).as_bytes())
}

/// Puts the number in at least so many decimal digits at the end of the text: with zeros in front where it has fewer.
pub fn append_with_zeros(text: &mut Vec<u8>, width: usize, number: u64) -> Result<(), OutOfMemory>
    requires { width ≤ 9 }
    ensures { OnOk result (text.new.items ≡ text.old.items ++ with_zeros width number) }
{
    let mut buffer = Buffer::new();
    let digits = buffer.format(number).as_bytes();
    append(text, zeros(width.saturating_sub(digits.len())))?;
    append(text, digits)
}
