// The findings of a round in the blocks of a shard.
ghost use Rattle.std.specs.Prelude.{◌≡◌, IsSome, IsTrue, IfOk, IfErr};
ghost use Rattle.bm_base.specs.Words.{get, contains_key};
ghost use Rattle.bm_base.specs.declared.refusal.Refusal.TheVariants.{Memory};
ghost use Rattle.bm_base.specs.declared.replica.ReplicaId.{ReplicaId};
ghost use Rattle.bm_base.specs.RoundParts.{round_part};
ghost use Rattle.bm_parts.specs.BoundedWishes.{part_before};
ghost use Rattle.bm_arena.specs.HeldMaps.{replicas_of};
ghost use Rattle.bm_levels.specs.LeveledBlocks.{AreLevels};
ghost use Rattle.bm_levels.specs.SlotHoldings.{holdings_with};

use crate::order::{sort_deletes, sort_excess, sort_wishes};
use crate::scan::RoundScan;
use crate::scanned_slots::{slots_to_scan, sort_slots};
use bm_base::{Items, Refusal, RoundPart};
use bm_levels::LeveledBlocks;
use bm_parts::sort_key::Key;
use bm_pending::PendingTransfers;
use bm_topo::Topology;
use std::alloc::Global;

/// Finds a shard's part as round `round` begins. Transfers expire that were commanded `pend` rounds
/// ago or earlier. The stored levels are those of the cluster, which knows each replica's storage.
/// If there is a bound, only the wishes before it are returned. An `Err` is out of memory.
///
/// It iterates over the pending transfers once, and scans two kinds of blocks: the unsettled ones,
/// and settled ones before the bound at a level at which copies are wanted. Any other block at such
/// a level costs a read of its number and a comparison; all other blocks cost nothing. Without a
/// bound, the slots of a level are copied and sorted first if they are many.
///
/// A settled block with a pending transfer is left out if its live replicas and its pending
/// transfers reach the wanted number; its live replicas are counted for that. A scanned block with
/// n replicas costs O(n log n) steps: they are sorted, and each is searched for among those in
/// excess. The result is sorted.
pub fn find_round(
    alloc: Global,
    blocks: &LeveledBlocks,
    pending: &PendingTransfers,
    topology: &Topology,
    pend: u32,
    round: u64,
    bound: Option<Key>,
) -> Result<RoundPart, Refusal>
    requires levels { AreLevels topology.now.cluster blocks.now }
    requires stored { (q : ReplicaId) → IsSome (get (replicas_of blocks.now.arena) q)
        → IsTrue (contains_key topology.now.cluster.storages q.storage) }
    ensures part { IfOk result
        (λ p. p ≡ part_before bound
        (round_part topology.now.cluster pend round
        (holdings_with blocks.now.arena pending.now.map))) }
    ensures refused { IfErr result (λ e. e ≡ Memory) }
{
    blocks.show_invariant();
    blocks.arena().show_invariant();
    blocks.level_index().show_invariant();
    let start = RoundScan {
        arena: blocks.arena(),
        level_index: blocks.level_index(),
        pending,
        topology,
        pend,
        round,
        bound,
    };
    let mut slots = slots_to_scan(alloc, &start)?;
    sort_slots(&mut slots);
    let mut found = start.scan_all(alloc, &slots)?;
    sort_excess(&mut found.excess)?;
    sort_wishes(&mut found.wishes)?;
    sort_deletes(&mut found.deletes)?;
    let expired = pending.expired_transfers(alloc, pend, round)?;
    Ok(RoundPart {
        expired: Items::from_vec(expired),
        excess: Items::from_vec(found.excess),
        wishes: Items::from_vec(found.wishes),
        deletes: Items::from_vec(found.deletes),
    })
}
