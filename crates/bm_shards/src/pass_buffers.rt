// The memory of one pass of the workers over all shards.
ghost use Rattle.std.specs.Prelude.{◌≡◌, ◌<◌, ◌≤◌, [], IfOk, IfErr, vec_capacity};
ghost use Rattle.bm_base.specs.declared.refusal.Refusal.TheVariants.{Memory};

use bm_base::Refusal;
use bm_crew::{Crew, Ready};
use bm_shard::Shard;
use std::alloc::Global;

/// The memory of a pass, and an empty list with capacity to take the shards back.
pub(crate) type PassBuffers<U> = (Ready<Shard, U>, Vec<(u32, Shard)>);

/// The memory of one pass over `count` shards by `workers` threads, the calling one among them.
pub(crate) fn reserve_pass<U: Drop>(
    alloc: Global,
    count: usize,
    workers: usize,
) -> Result<PassBuffers<U>, Refusal>
    requires { 0 < workers }
    ensures ready { IfOk result (λ r. r.0.capacity ≡ count) }
    ensures back { IfOk result (λ r. (r.1.items ≡ []) × (count ≤ vec_capacity r.1)) }
    ensures refused { IfErr result (λ e. e ≡ Memory) }
{
    let back = Vec::with_capacity(alloc, count)?;
    let ready = Crew::ready::<Shard, U>(alloc, count, workers)?;
    Ok((ready, back))
}
