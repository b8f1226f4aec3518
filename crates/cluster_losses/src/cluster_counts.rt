// The counts of a cluster before or after a loss: blocks by level, missing blocks, lacking bytes
// and free bytes.
ghost use Rattle.std.specs.Prelude.{◌≡◌, ◌+◌, ◌≤◌, ◌^◌, ◌-◌, IfOk, if◌then◌else◌};
ghost use Rattle.cluster_report.specs.Sessions.{IsInStep};
ghost use Rattle.cluster_losses.specs.LackingBytes.{free_on, free_for_copies};
ghost use Rattle.cluster_losses.specs.Outcomes.{AreClusterCounts, levels_by};

use crate::block_tallies::tally_blocks;
use bm_base::{BlockId, Items, Refusal, StorageId};
use bm_maps::NumberMap;
use bm_topo::Topology;
use cluster_lost::tally::Tally;
use cluster_report::levels::LevelCounts;
use cluster_report::nodes::all_storages;
use cluster_report::session::Session;
use std::alloc::{AllocError, Global};

/// The counts of a cluster.
#[derive(Drop)]
pub struct ClusterCounts {
    pub levels: LevelCounts,
    /// The missing blocks, ascending.
    pub missing: Items<BlockId>,
    /// The bytes of all copies that blocks with a source lack; at most 2^128 - 1.
    pub lacking: u128,
    /// The free bytes on nodes that do not drain.
    pub free: u128,
}

/// Counts the state of a cluster. Asks the manager for all replicas at once, for those in excess,
/// and for the missing blocks.
pub fn count_cluster(alloc: Global, session: &Session) -> Result<ClusterCounts, Refusal>
    requires { IsInStep session.now }
    ensures { IfOk result (AreClusterCounts session.now.manager) }
{
    session.manager.show_invariant();
    let replicas = session.manager.replicas()?;
    let excess = session.manager.excess()?;
    let missing = session.manager.missing()?;
    let free = free_bytes(alloc, &session.book.topology)?;
    let rows = NumberMap::new(alloc);
    let pass = tally_blocks(
        alloc,
        session,
        &rows,
        0,
        replicas.as_slice(),
        excess.as_slice(),
    )?;
    let is_multi = session.book.topology.multi_rack();
    Ok(ClusterCounts {
        levels: levels_by(&pass.all, is_multi, missing.len()),
        lacking: pass.all.lacking,
        free,
        missing,
    })
}

/// The blocks of a tally by level. On one rack no block is badly distributed.
pub(crate) fn levels_by(tally: &Tally, is_multi: bool, missing: usize) -> LevelCounts
    requires { tally.now.none + tally.now.badly_distributed ≤ 2 ^ 64 - 1 }
    ensures { result ≡ levels_by tally.now is_multi missing }
{
    let on_one_rack = if is_multi { 0 } else { tally.badly_distributed };
    LevelCounts {
        highest: tally.highest,
        very_under_replicated: tally.very_under_replicated,
        under_replicated: tally.under_replicated,
        badly_distributed: tally.badly_distributed - on_one_rack,
        missing,
        none: tally.none + on_one_rack,
    }
}

/// The free bytes on all nodes that do not drain, as their last heartbeats reported them.
fn free_bytes(alloc: Global, topology: &Topology) -> Result<u128, AllocError>
    ensures { IfOk result (λ n. n ≡ free_for_copies topology.now.cluster) }
{
    let storages = all_storages(alloc, topology)?;
    let mut free = 0u128;
    for storage in &storages {
        free += u128::from(free_on(topology, *storage));
    }
    Ok(free)
}

/// The free bytes of a storage; 0 if its node drains.
#[tactic(auto, unfolding(bm_base::specs::Machine::Replicas::remaining))]
pub(crate) fn free_on(topology: &Topology, storage: StorageId) -> u64
    ensures { result ≡ free_on topology.now.cluster storage }
{
    if topology.is_draining(storage) {
        return 0;
    }
    topology.remaining(storage).unwrap_or(0)
}
