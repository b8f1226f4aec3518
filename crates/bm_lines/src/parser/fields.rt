// The numbers in a line's object. `None` if the field is missing, or is no such number.
ghost use Rattle.std.specs.Prelude.{◌≡◌, option_and_then, codes};
ghost use Rattle.serde_json.specs.View.{view};
ghost use Rattle.bm_lines.specs.Parser.Fields.{number_field, below_32, small_number, small_field, stamp_from};
ghost use Rattle.bm_lines.specs.Parser.CallOf.{stamp_fields};

use bm_base::{BlockId, Gen, NodeId, Rack, Stamp, StorageId};
use serde_json::Value;

pub fn node_field(value: &Value) -> Option<NodeId>
    ensures { result ≡ small_field (codes "node") (view value.now) }
{
    Some(NodeId(small_field(value, "node")?))
}

pub fn rack_field(value: &Value) -> Option<Rack>
    ensures { result ≡ small_field (codes "rack") (view value.now) }
{
    Some(Rack(small_field(value, "rack")?))
}

pub fn storage_field(value: &Value) -> Option<StorageId>
    ensures { result ≡ small_field (codes "storage") (view value.now) }
{
    Some(StorageId(small_field(value, "storage")?))
}

pub fn block_field(value: &Value) -> Option<BlockId>
    ensures { result ≡ number_field (codes "id") (view value.now) }
{
    Some(BlockId(number_field(value, "id")?))
}

/// The requested number of replicas.
pub fn repl_field(value: &Value) -> Option<u32>
    ensures { result ≡ small_field (codes "repl") (view value.now) }
{
    small_field(value, "repl")
}

pub fn stamp_field(value: &Value) -> Option<Stamp>
    ensures { result ≡ stamp_fields (view value.now) }
{
    stamp_from(number_field(value, "gen"), number_field(value, "len"))
}

/// A whole number below 2^64.
fn number_field(value: &Value, name: &str) -> Option<u64>
    ensures { result ≡ number_field name.now (view value.now) }
{
    value.get(name).and_then(Value::as_u64)
}

/// A whole number below 2^32.
fn small_field(value: &Value, name: &str) -> Option<u32>
    ensures { result ≡ small_field name.now (view value.now) }
{
    small(number_field(value, name))
}

/// The value as a whole number below 2^32.
pub fn small_number(value: &Value) -> Option<u32>
    ensures { result ≡ small_number (view value.now) }
{
    small(value.as_u64())
}

/// The number, if it is below 2^32.
fn small(number: Option<u64>) -> Option<u32>
    ensures { result ≡ option_and_then below_32 number }
{
    u32::try_from(number?).ok()
}

/// A stamp of its generation and length.
pub fn stamp_from(generation: Option<u64>, len: Option<u64>) -> Option<Stamp>
    ensures { result ≡ stamp_from generation len }
{
    match (generation, len) {
        (Some(generation), Some(len)) => Some(Stamp {
            generation: Gen(generation),
            len,
        }),
        _ => None,
    }
}
