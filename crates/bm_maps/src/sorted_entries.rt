// Entries in a vector with strictly ascending keys, looked up by binary search. The base of
// `NumberMap`; other crates use `find` and `key_index` on lists of their own.
ghost use Rattle.std.specs.Prelude.{◌≡◌, ◌<◌, ◌≤◌, ◌+◌, if◌then◌else◌, is_some, OnOk, OnErr, IsOk, IsTrue, T, vec_len, vec_capacity, length, insert};
ghost use Rattle.bm_maps.specs.KeyIndex.{key_index};
ghost use Rattle.std.specs.FinMap as list;

use std::alloc::AllocError;
use std::cmp::Ordering;

/// The number of entries before the key's index.
pub fn key_index<K: Ord + Copy, V: Copy>(entries: &[(K, V)], key: &K) -> usize
    requires { T (list.is_sorted K.cmp entries.now) }
    ensures { result ≡ key_index K.cmp key.now entries.now }
{
    index_between(entries, key, 0, entries.len())
}

/// The number of entries before the key's index, which is at least `least` and at most `most`.
pub(crate) fn index_between<K: Ord + Copy, V: Copy>(
    entries: &[(K, V)],
    key: &K,
    least: usize,
    most: usize,
) -> usize
    requires sorted { T (list.is_sorted K.cmp entries.now) }
    requires from { least ≤ key_index K.cmp key.now entries.now }
    requires upto { key_index K.cmp key.now entries.now ≤ most }
    requires inside { most ≤ length entries.now }
    ensures { result ≡ key_index K.cmp key.now entries.now }
{
    let behind = entries[least..most].partition_point(|entry| key.cmp(&entry.0).is_gt());
    least + behind
}

/// The value at a key.
pub fn find<K: Ord + Copy, V: Copy>(entries: &[(K, V)], key: &K) -> Option<V>
    requires { T (list.is_sorted K.cmp entries.now) }
    ensures { result ≡ list.find K.cmp key.now entries.now }
{
    find_at(entries, key, key_index(entries, key))
}

/// The value at a key with this index.
pub(crate) fn find_at<K: Ord + Copy, V: Copy>(entries: &[(K, V)], key: &K, at: usize) -> Option<V>
    requires sorted { T (list.is_sorted K.cmp entries.now) }
    requires at { at ≡ key_index K.cmp key.now entries.now }
    ensures { result ≡ list.find K.cmp key.now entries.now }
{
    if at < entries.len() {
        match key.cmp(&entries[at].0) {
            Ordering::Equal => return Some(entries[at].1),
            _ => {}
        }
    }
    None
}

/// Reserves capacity for further entries. Takes memory only if there is less; an `Err` changes
/// nothing.
pub(crate) fn reserve<K: Copy, V: Copy>(
    entries: &mut Vec<(K, V)>,
    additional: usize,
) -> Result<(), AllocError>
    ensures ok { OnOk result (vec_len entries.new + additional ≤ vec_capacity entries.new) }
    ensures succeeds { vec_len entries.old + additional ≤ vec_capacity entries.old → IsOk result }
    ensures enough { vec_len entries.old + additional ≤ vec_capacity entries.old →
        vec_capacity entries.new ≡ vec_capacity entries.old }
    ensures items { entries.new.items ≡ entries.old.items }
    ensures len { vec_len entries.new ≡ vec_len entries.old }
    ensures capacity { vec_capacity entries.old ≤ vec_capacity entries.new }
    ensures err { OnErr result (vec_capacity entries.new ≡ vec_capacity entries.old) }
{
    if additional <= entries.capacity() - entries.len() {
        return Ok(());
    }
    entries.reserve(additional)
}

/// As `reserve`, but never reserves more than `additional`.
pub(crate) fn reserve_exact<K: Copy, V: Copy>(
    entries: &mut Vec<(K, V)>,
    additional: usize,
) -> Result<(), AllocError>
    ensures ok { OnOk result (vec_len entries.new + additional ≤ vec_capacity entries.new) }
    ensures succeeds { vec_len entries.old + additional ≤ vec_capacity entries.old → IsOk result }
    ensures enough { vec_len entries.old + additional ≤ vec_capacity entries.old →
        vec_capacity entries.new ≡ vec_capacity entries.old }
    ensures exact { vec_capacity entries.old ≤ vec_len entries.old + additional →
        vec_capacity entries.new ≤ vec_len entries.old + additional }
    ensures items { entries.new.items ≡ entries.old.items }
    ensures len { vec_len entries.new ≡ vec_len entries.old }
    ensures capacity { vec_capacity entries.old ≤ vec_capacity entries.new }
    ensures err { OnErr result (vec_capacity entries.new ≡ vec_capacity entries.old) }
{
    let spare = entries.capacity() - entries.len();
    if additional <= spare {
        return Ok(());
    }
    entries.reserve_exact(additional)
}

/// Sets the value at a key with this index. Takes memory only for a new key without spare capacity;
/// an `Err` changes nothing.
pub(crate) fn put<K: Ord + Copy, V: Copy>(
    entries: &mut Vec<(K, V)>,
    at: usize,
    key: K,
    value: V,
) -> Result<(), AllocError>
    requires sorted { T (list.is_sorted K.cmp entries.old.items) }
    requires at { at ≡ key_index K.cmp key entries.old.items }
    ensures ok { OnOk result (entries.new.items ≡ list.put K.cmp key value entries.old.items) }
    ensures err { OnErr result (entries.new.items ≡ entries.old.items) }
    ensures succeeds { vec_len entries.old < vec_capacity entries.old → IsOk result }
    ensures reserved { vec_len entries.old < vec_capacity entries.old →
        vec_capacity entries.new ≡ vec_capacity entries.old }
    ensures known { IsTrue (is_some (list.find K.cmp key entries.old.items)) → IsOk result }
    ensures in_place { IsTrue (is_some (list.find K.cmp key entries.old.items)) →
        vec_capacity entries.new ≡ vec_capacity entries.old }
    ensures capacity { vec_capacity entries.old ≤ vec_capacity entries.new }
    ensures len { vec_len entries.new ≤ vec_len entries.old + 1 }
    ensures err_len { OnErr result (vec_len entries.new ≡ vec_len entries.old) }
    ensures err_capacity { OnErr result (vec_capacity entries.new ≡ vec_capacity entries.old) }
{
    if at < entries.len() {
        match key.cmp(&entries[at].0) {
            Ordering::Equal => {
                entries[at].1 = value;
                return Ok(());
            }
            _ => {}
        }
    }
    reserve(entries, 1)?;
    insert_reserved(entries, at, (key, value));
    Ok(())
}

/// Inserts an entry at an index, in reserved capacity, and moves the entries from there on. At the
/// end nothing moves.
fn insert_reserved<K: Copy, V: Copy>(entries: &mut Vec<(K, V)>, at: usize, entry: (K, V))
    requires at { at ≤ length entries.old.items }
    requires spare { vec_len entries.old < vec_capacity entries.old }
    ensures items { entries.new.items ≡ insert entries.old.items at entry }
    ensures len { vec_len entries.new ≡ vec_len entries.old + 1 }
    ensures capacity { vec_capacity entries.new ≡ vec_capacity entries.old }
{
    if at == entries.len() {
        entries.push_reserved(entry);
        return;
    }
    match entries.insert(at, entry) {
        Ok(()) => {}
        Err(_) => unreachable!(),
    }
}

/// Sets the value at a known key with this index; an unknown key changes nothing. Takes no memory.
pub(crate) fn replace<K: Ord + Copy, V: Copy>(
    entries: &mut Vec<(K, V)>,
    at: usize,
    key: &K,
    value: V,
)
    requires sorted { T (list.is_sorted K.cmp entries.old.items) }
    requires at { at ≡ key_index K.cmp key.now entries.old.items }
    ensures after { entries.new.items
        ≡ (if is_some (list.find K.cmp key.now entries.old.items)
        then list.put K.cmp key.now value entries.old.items else entries.old.items) }
    ensures capacity { vec_capacity entries.new ≡ vec_capacity entries.old }
    ensures len { vec_len entries.new ≡ vec_len entries.old }
{
    if at < entries.len() {
        match key.cmp(&entries[at].0) {
            Ordering::Equal => entries[at].1 = value,
            _ => {}
        }
    }
}
