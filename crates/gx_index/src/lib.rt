//! Look-ups in a map in the order of insertion that begin where the key is likely to stand.
#![tactic(auto)]

ghost use Rattle.std.specs.{Prelude.{◌≡◌, ◌<◌, is_some, option_copied, position, slice_get, IfSome}, Borrow.sem, Option.option_copied_mut};
ghost use Rattle.indexmap.specs.{IndexMap.{get_by, index_map_len, index_of_by, values, IsUnique}, Lends.lends_get};

use indexmap::{IndexMap, IndexSet};
use std::alloc::Allocator;
use std::hash::{BuildHasher, Hash};

/// The index of the key. The entry at this place is looked at first; where the key stands
/// elsewhere, it is found by its hash: a wrong place costs time alone.
#[inline(always)]
#[tactic(auto, using(crate::proofs::Keys_only::index_at, crate::proofs::Keys_only::found_at, crate::proofs::Keys_only::value_at))]
pub fn index_near<K: Eq + Hash + Copy, V, S: BuildHasher, A: Allocator>(
    map: &IndexMap<K, V, S, A>,
    near: usize,
    key: K,
) -> Option<usize>
    ensures index { result ≡ index_of_by (K.eq key) map.now }
    ensures found { is_some result ≡ is_some (get_by (K.eq key) map.now) }
    ensures within { IfSome result (λ i. i < index_map_len map.now) }
    ensures value { IfSome result (λ i.
        slice_get (values map.now) i ≡ get_by (K.eq key) map.now) }
    ensures unique { IsUnique K.eq map.now }
{
    // what this ensures: no two keys are equal
    let _ = map.len();
    match map.get_index(near) {
        Some((there, _)) if *there == key => Some(near),
        _ => map.get_index_of(&key),
    }
}

/// The value of the key. The entry at this place is looked at first, as by [`index_near`].
#[inline(always)]
pub fn get_near<K: Eq + Hash + Copy, V>(map: &IndexMap<K, V>, near: usize, key: K) -> Option<&V>
    ensures { option_copied result ≡ get_by (K.eq key) map.now }
{
    let index = index_near(map, near, key)?;
    Some(&map[index])
}

/// The value of the key, to write. The entry at this place is looked at first, as by [`index_near`].
#[inline(always)]
pub fn get_mut_near<K: Eq + Hash + Copy, V, S: BuildHasher, A: Allocator>(
    map: &mut IndexMap<K, V, S, A>,
    near: usize,
    key: K,
) -> Option<&mut V>
    ensures* writes_back { sem 𝓛 (lends_get K.row V.row S.row A.row S.Hasher.row K.Hash
        S.BuildHasher S.Hasher.Hasher A.Allocator map.entry (K.eq key) result) }
    ensures value { option_copied_mut result ≡ get_by (K.eq key) map.old }
    ensures unique { IsUnique K.eq map.old }
{
    match index_near(map, near, key) {
        Some(index) => Some(&mut map[index]),
        None => None,
    }
}

/// The place of the value in a set. This place is looked at first, as by [`index_near`].
#[inline(always)]
#[tactic(auto, using(crate::proofs::Keys_only::place_at))]
pub fn place_near<T: Eq + Hash + Copy>(set: &IndexSet<T>, near: usize, value: T) -> Option<usize>
    ensures { result ≡ position (T.eq value) set.now.keys }
{
    // what this ensures: no two values are equal
    let _ = set.len();
    match set.get_index(near) {
        Some(there) if *there == value => Some(near),
        _ => set.get_index_of(&value),
    }
}

/// Where the names of a step stand in the policy: tables in its order look at these places first.
#[derive(Clone, Copy)]
pub struct Near {
    /// The place of the user who asks, among the policy's users.
    pub user: usize,
    /// The place of his account, among its accounts.
    pub account: usize,
    /// The place of the order's stock, among its stocks.
    pub stock: usize,
}

impl Near {
    /// The first places, for names of which no better is known.
    pub const FIRST: Near = Near {
        user: 0,
        account: 0,
        stock: 0,
    };
}
