//! Sixteen bytes of a line at once.

ghost use Rattle.std.specs.{Prelude.{◌≡◌, ◌≤◌, not, map, length, take, replicate, ◌++◌, ◌-◌}, List.prefix_len, Simd.Lanes.mask_l};
ghost use Rattle.gx_units.specs.Spelling.{is_space, is_visible};

use std::simd::prelude::*;

/// How many bytes are taken at once.
pub(crate) const WIDTH: usize = 16;

/// The place of each of the bytes.
const PLACES: [u8; 16] = [0, 1, 2, 3, 4, 5, 6, 7, 8, 9, 10, 11, 12, 13, 14, 15];

/// The first bytes of a text.
#[inline(always)]
pub(crate) fn first_bytes(text: &[u8]) -> u8x16
    requires { 16 ≤ length text.now }
    ensures { result ≡ take 16 text.now }
{
    u8x16::from_slice(text)
}

/// How many of the bytes stand in front of the first space; all, where there is none.
#[inline(always)]
pub(crate) fn before_space(bytes: u8x16) -> u32
    requires { length bytes ≡ 16 }
    ensures { result ≡ prefix_len (λ byte. not (is_space byte)) bytes }
{
    let spaces = bytes.simd_eq(u8x16::splat(b' ')).to_bitmask();
    if spaces == 0 {
        16
    } else {
        spaces.trailing_zeros()
    }
}

/// Which of the bytes are not visible: a bit for each.
#[inline(always)]
fn hidden(bytes: u8x16) -> u64
    requires { length bytes ≡ 16 }
    ensures { result ≡ mask_l (map (λ byte. not (is_visible byte)) bytes) }
{
    let low = bytes.simd_lt(u8x16::splat(b'!'));
    let high = bytes.simd_gt(u8x16::splat(b'~'));
    (low | high).to_bitmask()
}

/// How many of the bytes stand in front of the first that is not visible; all, where there is none.
#[inline(always)]
pub(crate) fn before_hidden(bytes: u8x16) -> u32
    requires { length bytes ≡ 16 }
    ensures { result ≡ prefix_len (λ byte. not (not (is_visible byte))) bytes }
{
    let hidden = hidden(bytes);
    if hidden == 0 {
        16
    } else {
        hidden.trailing_zeros()
    }
}

/// The first of the bytes, as many as are asked for, with spaces behind them.
#[inline(always)]
pub(crate) fn with_spaces_from(bytes: u8x16, end: usize) -> [u8; 16]
    requires long { length bytes ≡ 16 }
    requires within { end ≤ 16 }
    ensures { result ≡ take end bytes ++ replicate (16 - end) 32 }
{
    let places = u8x16::from_array(PLACES);
    places
        .simd_lt(u8x16::splat(end as u8))
        .select(bytes, u8x16::splat(b' '))
        .to_array()
}
