// Releases what the shards reserved for an event or a round.
ghost use Rattle.std.specs.Prelude.{All};
ghost use Rattle.bm_base.specs.Words.{AllZip};
ghost use Rattle.bm_shard.specs.UpToDate.{IsSameButCapacity};
ghost use Rattle.bm_shards.specs.ShardWork.{IsSame, HasGivenUp};

use bm_shard::Shard;

/// Has each shard release what it reserved for an event or a round.
pub(crate) fn abort_all(shards: &mut Vec<(u32, Shard)>)
    ensures each { AllZip IsSame shards.old.items shards.new.items }
    ensures given_up { All (λ s. HasGivenUp s.1) shards.new.items }
{
    for one in shards.iter_mut() {
        abort_shard(&mut one.1);
    }
}

/// Has a shard release what it reserved for an event or a round.
fn abort_shard(shard: &mut Shard)
    ensures same { IsSameButCapacity shard.old shard.new }
    ensures given_up { HasGivenUp shard.new }
{
    shard.abort();
    shard.round_abort();
}
