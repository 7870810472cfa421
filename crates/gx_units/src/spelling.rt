//! How a name fills its field.

ghost use Rattle.std.specs.Prelude.{◌≡◌, ◌≤◌, length, Some, None, nat_le, if◌then◌else◌};
ghost use Rattle.gx_units.specs.Spelling.{is_visible, padded_to, trimmed_text, without_left_spaces, without_right_spaces};

/// Whether the byte is a character that is seen: one of `!` to `~`.
#[inline]
pub fn is_visible(byte: u8) -> bool
    ensures { result ≡ is_visible byte }
{
    byte >= b'!' && byte <= b'~'
}

/// The text with spaces behind it, or None where the field is too short for it.
pub fn padded<const N: usize>(text: &[u8]) -> Option<[u8; N]>
    ensures { result
        ≡ (if nat_le (length text.now) N then Some (padded_to N text.now) else None) }
{
    if text.len() > N {
        return None;
    }
    let mut field = [b' '; N];
    field[..text.len()].copy_from_slice(text);
    Some(field)
}

/// The text of a field: all but the spaces on its right.
pub fn unpadded(field: &[u8]) -> &[u8]
    ensures text { result.now ≡ without_right_spaces field.now }
    ensures within { length result.now ≤ length field.now }
{
    let mut end = field.len();
    while end > 0 {
        if field[end - 1] != b' ' {
            return &field[..end];
        }
        end -= 1;
    }
    &field[..0]
}

/// The text of a field whose spaces may stand on either side: all but the spaces around it.
pub fn trimmed(field: &[u8]) -> &[u8]
    ensures text { result.now ≡ trimmed_text field.now }
    ensures within { length result.now ≤ length field.now }
{
    unpadded(without_left_spaces(field))
}

fn without_left_spaces(field: &[u8]) -> &[u8]
    ensures text { result.now ≡ without_left_spaces field.now }
    ensures within { length result.now ≤ length field.now }
{
    match field {
        [b' ', rest @ ..] => without_left_spaces(rest),
        _ => field,
    }
}

/// The field's text without the spaces around it, on its left.
pub(crate) fn rejustified(field: [u8; 10]) -> [u8; 10]
    ensures { result ≡ padded_to 10 (trimmed_text field) }
{
    match padded(trimmed(&field)) {
        Some(justified) => justified,
        None => unreachable!(),
    }
}
