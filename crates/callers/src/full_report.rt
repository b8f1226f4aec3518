// A full report, applied as a whole or not at all.
ghost use Rattle.std.specs.Prelude.{◌≡◌, ◌<◌, ◌+◌, None, length, IfOk, IfErr, OnOk, OnErr};
ghost use Rattle.bm_base.specs.Words.{report};
ghost use Rattle.bm_base.specs.declared.refusal.Refusal.TheVariants.{Memory};
ghost use Rattle.bm_arena.specs.Contents.{marks_at};
ghost use Rattle.bm_arena.specs.HeldMaps.{replicas_of, blocks_of, holdings_of};
ghost use Rattle.bm_report.specs.ReportedBlocks.{reported_to_part};
ghost use Rattle.bm_report.specs.DuringReport.{IsOncePerNode};
ghost use Rattle.bm_report.specs.Ready.{HasGoodExcess};

use bm_arena::Arena;
use bm_base::{Entry, Part, Refusal, StorageId};
use bm_report::{Applied, Report};
use bm_topo::Topology;

/// Applies a storage's full report to the arena of a shard's numbers. When out of memory, the
/// blocks and replicas of the arena are unchanged.
pub fn take_report(
    kept: &mut Report,
    arena: &mut Arena,
    topology: &Topology,
    storage: StorageId,
    entries: &[Entry],
    part: Part,
) -> Result<Applied, Refusal>
    requires part { part.index < part.shards }
    requires once { IsOncePerNode topology.now.cluster (replicas_of arena.old) }
    requires good { HasGoodExcess (replicas_of arena.old) }
    requires free { marks_at arena.old arena.old.delimiter storage ≡ None }
    ensures replicas { OnOk result (replicas_of arena.new ≡ (report topology.now.cluster
        (holdings_of arena.old) storage (reported_to_part part entries.now)).replicas) }
    ensures steps { IfOk result (λ applied. applied.steps
        ≡ length (reported_to_part part entries.now) + applied.removed + 2) }
    ensures once { IsOncePerNode topology.now.cluster (replicas_of arena.new) }
    ensures good { HasGoodExcess (replicas_of arena.new) }
    ensures free { marks_at arena.new arena.new.delimiter storage ≡ None }
    ensures blocks { blocks_of arena.new ≡ blocks_of arena.old }
    ensures unchanged { OnErr result (replicas_of arena.new ≡ replicas_of arena.old) }
    ensures refused { IfErr result (λ e. e ≡ Memory) }
{
    arena.show_invariant();
    if let Err(refusal) = kept.ready(arena, storage, entries, part) {
        kept.abort(arena);
        return Err(refusal);
    }
    Ok(kept.apply_full(arena, topology, storage))
}
