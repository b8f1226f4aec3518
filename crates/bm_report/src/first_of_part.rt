// The numbers of an entry that are of a part.
ghost use Rattle.std.specs.Prelude.{◌≡◌, ◌<◌, ◌≤◌, ◌+◌};
ghost use Rattle.bm_base.specs.Words.{shard_of};

use bm_base::{BlockId, Part, shard_of};

/// The first number of the part from a number on.
pub(crate) fn first_of_part(from: BlockId, part: Part) -> u128
    requires shards { 0 < part.shards }
    requires index { part.index < part.shards }
    ensures of_part { shard_of result part.shards ≡ part.index }
    ensures from { from ≤ result }
    ensures near { result < from + part.shards }
{
    if part.shards == 1 {
        return u128::from(from.0);
    }
    let shards = u64::from(part.shards);
    let here = u64::from(shard_of(from, part.shards));
    let index = u64::from(part.index);
    let gap = if here <= index {
        index - here
    } else {
        index + shards - here
    };
    u128::from(from.0) + u128::from(gap)
}
