// The source and the target of one more copy of a block.
ghost use Rattle.std.specs.Prelude.{◌≡◌, [], IfOk, IfErr};
ghost use Rattle.bm_base.specs.declared.refusal.Refusal.TheVariants.{Memory};
ghost use Rattle.bm_place.specs.ChoiceResults.{senders_with, targets_with};
ghost use Rattle.callers.specs.FirstCopy.{first_copy, FitsOnTarget, GoesToAnotherNode};

use bm_base::{BlockId, Level, Refusal, Stamp, StorageId, Transfer};
use bm_place::{Scheduled, Streams, least_source, least_target};
use bm_topo::Topology;
use std::alloc::Global;

/// The first copy of a round for a block with these live replicas at this level. `None` if there is
/// no source or no target.
pub fn first_copy(
    alloc: Global,
    topology: &Topology,
    live: &[StorageId],
    level: Level,
    block: BlockId,
    stamp: Stamp,
) -> Result<Option<Transfer>, Refusal>
    ensures copy { IfOk result (λ copy. copy
        ≡ first_copy topology.now.cluster live.now level block stamp) }
    ensures fits { IfOk result (FitsOnTarget topology.now.cluster stamp.len) }
    ensures node { IfOk result (GoesToAnotherNode topology.now.cluster live.now) }
    ensures refused { IfErr result (λ e. e ≡ Memory) }
{
    let streams = Streams::new(alloc, topology)?;
    let scheduled = Scheduled::new(alloc, topology)?;
    Ok(copy_by(live, level, block, stamp, topology, &streams, &scheduled))
}

/// As [`first_copy`], with tables to which no transfer has been added.
fn copy_by(
    live: &[StorageId],
    level: Level,
    block: BlockId,
    stamp: Stamp,
    topology: &Topology,
    streams: &Streams<'_>,
    scheduled: &Scheduled<'_>,
) -> Option<Transfer>
    requires streams { streams.now ≡ senders_with topology.now.cluster [] }
    requires scheduled { scheduled.now ≡ targets_with topology.now.cluster [] }
    ensures copy { result ≡ first_copy topology.now.cluster live.now level block stamp }
    ensures fits { FitsOnTarget topology.now.cluster stamp.len result }
    ensures node { GoesToAnotherNode topology.now.cluster live.now result }
{
    let source = least_source(live, level, topology, streams)?;
    let target = least_target(live, live, stamp.len, level, topology, scheduled)?;
    Some(Transfer {
        block,
        stamp,
        source,
        target,
    })
}
