//! Long texts, told in pieces of whole lines.

ghost use Rattle.std.specs.Prelude.{◌≤◌, ◌<◌, length};

/// A piece has so many bytes at most.
const MOST: usize = 4_096;

/// How many bytes a text's next piece has: those of whole lines, as far as these fit, or as many as a piece may have.
pub fn piece_size(text: &[u8]) -> usize
    ensures within { result ≤ length text.now }
    ensures few { result ≤ 4096 }
    ensures some { 0 < length text.now → 0 < result }
{
    let most = text.len().min(MOST);
    match text[..most].iter().rposition(|byte| *byte == b'\n') {
        Some(last) => last + 1,
        None => most,
    }
}
