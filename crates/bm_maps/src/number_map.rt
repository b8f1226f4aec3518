// A map from numbers over a sorted vector, and the search for a number in it.
ghost use Rattle.std.specs.Prelude.{◌≡◌, ◌≤◌, ◌+◌, OnOk, OnErr, IsOk, IsTrue, ◌<◌, ◌-◌, ◌⊎◌, T};
ghost use Rattle.bm_base.specs.Words.{nat_cmp};
ghost use Rattle.bm_maps.specs.Table.{capacity};
ghost use Rattle.std.specs.List.Retain.{IsFiltered};
ghost use Rattle.std.specs.Fn.{CalledAt};
ghost use Rattle.bm_maps.specs.KeyIndex.{key_index, IsWithin};
ghost use Rattle.bm_base.specs.Maps.Map as map;
ghost use Rattle.std.specs.FinMap as list;

use crate::sorted_entries::{find_at, index_between, put, replace, reserve, reserve_exact};
use std::alloc::{AllocError, Global};
use std::cmp::Ordering;
use std::marker::Model;

/// A map from numbers. A look-up is direct if the numbers are dense, and else a binary search;
/// an insertion or a removal moves the entries after it. A contract sees the map, and its spare
/// capacity in entries.
#[derive(Drop)]
pub struct NumberMap<V> {
    entries: Vec<(u64, V)>,
}

impl<V> Model for NumberMap<V> {
    ghost use Rattle.std.specs.Prelude.{T, vec_len, vec_capacity, ◌-◌};
    ghost use Rattle.std.specs.Ordering.{nat_cmp};
    ghost use Rattle.std.specs.FinMap.{is_sorted};
    ghost use Rattle.bm_maps.specs.Table.{Table, coded_table};
    ghost use Rattle.bm_base.specs.Maps.OfSorted.{of_sorted};

    ghost Value = { Table V };

    ghost coded = { coded_table V.code };

    ghost view = { λ m. record {
      map = of_sorted m.entries.items;
      spare = vec_capacity m.entries - vec_len m.entries;
    } };

    ghost invariant = { λ m. T (is_sorted nat_cmp m.entries.items) };
}

impl<V: Copy> NumberMap<V> {
    /// No entry, and no capacity. Takes no memory.
    pub fn new(alloc: Global) -> Self
        ensures empty { result.map ≡ map.empty }
        ensures spare { result.spare ≡ 0 }
    {
        NumberMap {
            entries: Vec::new(alloc),
        }
    }

    /// How many entries there are.
    pub fn len(&self) -> usize
        ensures { result ≡ map.len self.now.map }
    {
        self.entries.len()
    }

    /// How many entries there can be without further memory.
    pub fn capacity(&self) -> usize
        ensures { result ≡ capacity self.now }
    {
        self.entries.capacity()
    }

    /// The value at a key, if the map has the key.
    pub fn get(&self, key: u64) -> Option<V>
        ensures { result ≡ map.get self.now.map key }
    {
        find_at(&self.entries, &key, index_of_number(&self.entries, key))
    }

    /// As `get`, trying index `guess` first.
    pub fn get_near(&self, key: u64, guess: usize) -> Option<V>
        ensures { result ≡ map.get self.now.map key }
    {
        find_at(
            &self.entries,
            &key,
            index_by_guess(&self.entries, key, guess),
        )
    }

    /// Sets the value at a key. Takes memory only for a new key without spare capacity; an `Err`
    /// changes nothing.
    pub fn insert(&mut self, key: u64, value: V) -> Result<(), AllocError>
        ensures ok { OnOk result (self.new.map ≡ map.insert self.old.map key value) }
        ensures err { OnErr result (self.new.map ≡ self.old.map) }
        ensures err_spare { OnErr result (self.new.spare ≡ self.old.spare) }
        ensures known { IsTrue (map.contains_key self.old.map key) → IsOk result }
        ensures known_no_growth { IsTrue (map.contains_key self.old.map key)
            → capacity self.new ≡ capacity self.old }
        ensures reserved { 1 ≤ self.old.spare → IsOk result }
        ensures reserved_no_growth { 1 ≤ self.old.spare → capacity self.new ≡ capacity self.old }
        ensures no_less { capacity self.old ≤ capacity self.new }
    {
        let at = index_of_number(&self.entries, key);
        put(&mut self.entries, at, key, value)?;
        Ok(())
    }

    /// Reserves capacity for `additional` further entries; with enough capacity nothing changes.
    /// The entries stay as they are, and an `Err` changes nothing.
    pub fn reserve(&mut self, additional: usize) -> Result<(), AllocError>
        ensures spare { OnOk result (additional ≤ self.new.spare) }
        ensures succeeds { additional ≤ self.old.spare → IsOk result }
        ensures kept { self.old.spare ≤ self.new.spare }
        ensures same { self.new.map ≡ self.old.map }
        ensures enough { additional ≤ self.old.spare → self.new.spare ≡ self.old.spare }
        ensures err_spare { OnErr result (self.new.spare ≡ self.old.spare) }
    {
        reserve(&mut self.entries, additional)
    }

    /// As `reserve`, but never reserves more than `additional`.
    pub fn reserve_exact(&mut self, additional: usize) -> Result<(), AllocError>
        ensures spare { OnOk result (additional ≤ self.new.spare) }
        ensures succeeds { additional ≤ self.old.spare → IsOk result }
        ensures kept { self.old.spare ≤ self.new.spare }
        ensures no_more { self.old.spare ≤ additional → self.new.spare ≤ additional }
        ensures same { self.new.map ≡ self.old.map }
        ensures enough { additional ≤ self.old.spare → self.new.spare ≡ self.old.spare }
        ensures err_spare { OnErr result (self.new.spare ≡ self.old.spare) }
    {
        reserve_exact(&mut self.entries, additional)
    }

    /// Inserts into reserved capacity. Takes no memory.
    pub fn insert_reserved(&mut self, key: u64, value: V)
        requires { 1 ≤ self.old.spare }
        ensures after { self.new.map ≡ map.insert self.old.map key value }
        ensures spare { self.old.spare ≤ self.new.spare + 1 }
        ensures no_growth { capacity self.new ≡ capacity self.old }
    {
        let at = index_of_number(&self.entries, key);
        match put(&mut self.entries, at, key, value) {
            Ok(()) => {}
            Err(_) => unreachable!(),
        }
    }

    /// Sets the value at a known key; else nothing changes. Takes no memory.
    pub fn replace(&mut self, key: u64, value: V)
        ensures after { self.new.map ≡ map.revise_at self.old.map key (λ _. value) }
        ensures spare { self.new.spare ≡ self.old.spare }
        ensures no_growth { capacity self.new ≡ capacity self.old }
    {
        let at = index_of_number(&self.entries, key);
        replace(&mut self.entries, at, &key, value);
    }

    /// As `replace`, trying index `guess` first.
    pub fn replace_near(&mut self, key: u64, value: V, guess: usize)
        ensures after { self.new.map ≡ map.revise_at self.old.map key (λ _. value) }
        ensures spare { self.new.spare ≡ self.old.spare }
        ensures no_growth { capacity self.new ≡ capacity self.old }
    {
        let index = index_by_guess(&self.entries, key, guess);
        replace(&mut self.entries, index, &key, value);
    }

    /// The entries, by ascending key.
    pub fn entries(&self) -> &[(u64, V)]
        ensures { result.now ≡ map.entries self.now.map }
    {
        &self.entries
    }

    /// Keeps the entries that pass. Takes no memory.
    pub fn retain<F: FnMut(&(u64, V)) -> bool>(&mut self, f: F)
        requires { F.IsAlwaysCallable f }
        ensures filtered { IsFiltered (CalledAt F.FnMut) f (map.entries self.old.map)
            (map.entries self.new.map) }
        ensures no_growth { capacity self.new ≡ capacity self.old }
    {
        self.entries.retain(f);
    }

    /// Removes a key's entry, if there is one. Takes no memory.
    pub fn remove(&mut self, key: u64)
        ensures after { self.new.map ≡ map.remove self.old.map key }
        ensures no_growth { capacity self.new ≡ capacity self.old }
    {
        self.retain(|e| e.0 != key);
    }
}

/// The index of a number: how many entries have lesser numbers. In strictly ascending numbers `a`
/// the index of `k` is at most `k - a[0]`, and likewise from the end, so dense numbers need no
/// search. If `n` numbers are missing between the first and the last, the rest is a binary search
/// in at most `n + 1` indices. Two comparisons around the interpolated index come before it: they
/// leave few indices if the numbers are about evenly spaced.
pub(crate) fn index_of_number<V: Copy>(entries: &[(u64, V)], key: u64) -> usize
    requires { T (list.is_sorted nat_cmp entries.now) }
    ensures { result ≡ key_index nat_cmp key entries.now }
{
    let count = entries.len();
    if count == 0 {
        return 0;
    }
    let first = entries[0].0;
    let last = entries[count - 1].0;
    if key <= first {
        return 0;
    }
    if key > last {
        return count;
    }
    let low = least_index(count, last - key);
    let high = greatest_index(count, key - first);
    let (low, high) = narrow_bounds(entries, key, low, high);
    index_between(entries, &key, low, high)
}

/// As `index_of_number`, trying an index first: two comparisons if it is right.
pub(crate) fn index_by_guess<V: Copy>(entries: &[(u64, V)], key: u64, guess: usize) -> usize
    requires { T (list.is_sorted nat_cmp entries.now) }
    ensures { result ≡ key_index nat_cmp key entries.now }
{
    let (low, high) = narrow(entries, key, 0, entries.len(), guess);
    let (low, high) = narrow(entries, key, low, high, guess.wrapping_sub(1));
    if low == high {
        return low;
    }
    index_of_number(entries, key)
}

/// Bounds with at most this many indices between them are not narrowed.
const NARROW_ABOVE: usize = 8;

/// The distance from a guess at which the two comparisons are made.
const GUESS_MARGIN: usize = 16;

/// Narrows the bounds of a number's index, for about even numbers: two comparisons, before and
/// after the interpolated index.
fn narrow_bounds<V: Copy>(entries: &[(u64, V)], key: u64, low: usize, high: usize) -> (usize, usize)
    requires sorted { T (list.is_sorted nat_cmp entries.now) }
    requires bounds { IsWithin low high key entries.now }
    ensures { IsWithin result.0 result.1 key entries.now }
{
    if high.saturating_sub(low) <= NARROW_ABOVE {
        return (low, high);
    }
    let guess = interpolated_index(entries, key);
    let (low, high) = narrow(entries, key, low, high, guess.saturating_sub(GUESS_MARGIN));
    narrow(entries, key, low, high, guess.saturating_add(GUESS_MARGIN))
}

/// The index that a number would have if the numbers were evenly spaced between the first and the
/// last; 0 if those two are 2^32 or more apart. Only a guess.
fn interpolated_index<V: Copy>(entries: &[(u64, V)], key: u64) -> usize {
    let count = entries.len();
    if count == 0 {
        return 0;
    }
    let first = entries[0].0;
    let width = entries[count - 1].0.wrapping_sub(first);
    let behind = key.wrapping_sub(first);
    if width == 0 || width >> 32 != 0 {
        return 0;
    }
    (behind.wrapping_mul(count as u64) / width) as usize
}

/// Narrows the bounds of a number's index by one comparison, at index `at` if that is within them.
fn narrow<V: Copy>(
    entries: &[(u64, V)],
    key: u64,
    low: usize,
    high: usize,
    at: usize,
) -> (usize, usize)
    requires sorted { T (list.is_sorted nat_cmp entries.now) }
    requires bounds { IsWithin low high key entries.now }
    ensures { IsWithin result.0 result.1 key entries.now }
{
    if at < low || high <= at {
        return (low, high);
    }
    match key.cmp(&entries[at].0) {
        Ordering::Greater => (at + 1, high),
        _ => (low, at),
    }
}

/// The least index of a number that is `less` below the last of `count`.
fn least_index(count: usize, less: u64) -> usize
    requires { 0 < count }
    ensures { result ≡ count - 1 - less }
{
    (count - 1).saturating_sub(less as usize)
}

/// The greatest index of a number that is `greater` above the first, and not above the last.
fn greatest_index(count: usize, greater: u64) -> usize
    requires { 0 < count }
    ensures within { result < count }
    ensures greater { result ≡ greater ⊎ count ≡ result + 1 }
{
    let greater = greater as usize;
    if greater < count { greater } else { count - 1 }
}
