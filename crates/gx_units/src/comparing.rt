//! Fixed fields compared as numbers of eight bytes: one test where bytes are eight.

ghost use Rattle.std.specs.Prelude.{◌≡◌, ◌∷◌, [], ◌++◌, bytes_eq, drop, take};

/// Whether both fields have the same bytes, compared as one word.
pub fn are_same(left: [u8; 8], right: [u8; 8]) -> bool
    ensures { result ≡ bytes_eq left right }
{
    u64::from_le_bytes(left) == u64::from_le_bytes(right)
}

/// A user's name as eight bytes, with zeros behind it.
pub fn widened(bytes: [u8; 6]) -> [u8; 8]
    ensures { result ≡ bytes ++ 0 ∷ 0 ∷ [] }
{
    let [a, b, c, d, e, f] = bytes;
    [a, b, c, d, e, f, 0, 0]
}

/// The first eight bytes of a token.
pub fn first_eight(bytes: [u8; 14]) -> [u8; 8]
    ensures { result ≡ take 8 bytes }
{
    let [a, b, c, d, e, f, g, h, ..] = bytes;
    [a, b, c, d, e, f, g, h]
}

/// The last eight bytes of a token.
pub fn last_eight(bytes: [u8; 14]) -> [u8; 8]
    ensures { result ≡ drop 6 bytes }
{
    let [.., a, b, c, d, e, f, g, h] = bytes;
    [a, b, c, d, e, f, g, h]
}
