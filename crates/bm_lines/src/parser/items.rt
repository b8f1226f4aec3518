// The items of a line's lists: storages, remaining bytes, and the entries of a report.
ghost use Rattle.std.specs.Prelude.{◌≡◌, Option, map};
ghost use Rattle.serde_json.specs.Data.{Data};
ghost use Rattle.serde_json.specs.View.{view};
ghost use Rattle.bm_lines.specs.Parser.Fields.{small_number, entry_from, entry_among, entry_in, remaining_from, remaining_among, remaining_in};

use super::fields::{small_number, stamp_from};
use bm_base::{BlockId, Entry, Remaining, Stamp, StorageId};
use serde_json::Value;

/// What a list of a line's object holds.
pub trait Item: Drop + Sized {
    /// The item that a value represents, if it represents one.
    ghost item_in: { Data → Option Self };

    fn from_value(value: &Value) -> Option<Self>
        ensures { result ≡ item_in (view value.now) };
}

/// A whole number below 2^32.
impl Item for StorageId {
    ghost item_in = { small_number };

    fn from_value(value: &Value) -> Option<StorageId> {
        Some(StorageId(small_number(value)?))
    }
}

/// Two numbers: a storage, and the bytes remaining there.
impl Item for Remaining {
    ghost item_in = { remaining_in };

    fn from_value(value: &Value) -> Option<Remaining> {
        match value.as_array() {
            Some(items) => remaining_among(items.as_slice()),
            None => None,
        }
    }
}

/// Three numbers: a block, its generation and its length. Or four: the first and the last block of
/// a run, their generation and their length.
impl Item for Entry {
    ghost item_in = { entry_in };

    fn from_value(value: &Value) -> Option<Entry> {
        match value.as_array() {
            Some(items) => entry_among(items.as_slice()),
            None => None,
        }
    }
}

fn remaining_among(items: &[Value]) -> Option<Remaining>
    ensures { result ≡ remaining_among (map view items.now) }
{
    match items {
        [storage, remaining] => remaining_from(small_number(storage), remaining.as_u64()),
        _ => None,
    }
}

fn entry_among(items: &[Value]) -> Option<Entry>
    ensures { result ≡ entry_among (map view items.now) }
{
    match items {
        [id, generation, len] => entry_from(
            id.as_u64(),
            id.as_u64(),
            stamp_from(generation.as_u64(), len.as_u64()),
        ),
        [from, to, generation, len] => entry_from(
            from.as_u64(),
            to.as_u64(),
            stamp_from(generation.as_u64(), len.as_u64()),
        ),
        _ => None,
    }
}

fn remaining_from(storage: Option<u32>, remaining: Option<u64>) -> Option<Remaining>
    ensures { result ≡ remaining_from storage remaining }
{
    match (storage, remaining) {
        (Some(storage), Some(remaining)) => Some(Remaining {
            storage: StorageId(storage),
            remaining,
        }),
        _ => None,
    }
}

fn entry_from(from: Option<u64>, to: Option<u64>, stamp: Option<Stamp>) -> Option<Entry>
    ensures { result ≡ entry_from from to stamp }
{
    match (from, to, stamp) {
        (Some(from), Some(to), Some(stamp)) => Some(Entry {
            from: BlockId(from),
            to: BlockId(to),
            stamp,
        }),
        _ => None,
    }
}
