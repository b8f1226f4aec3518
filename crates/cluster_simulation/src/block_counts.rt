// Counts of blocks and replicas, from the manager's answers.
ghost use Rattle.std.specs.Prelude.{◌≡◌, length, IfOk, OnOk};
ghost use Rattle.bm_base.specs.Words.{excess_replicas, corrupt_replicas};
ghost use Rattle.laws_of_repairs.specs.Repairs.{Covers};
ghost use Rattle.cluster_simulation.specs.RoundCounts.{IsCounted};

use crate::counts::Counts;
use bm_base::Refusal;
use bm_manager::Manager;
use cluster_repair::watch::Watch;
use std::alloc::Global;

/// Counts the known blocks at each level, and the excess and corrupt replicas. Each watched block
/// that has no level is watched no longer.
#[tactic(auto, using(crate::proofs::RoundLemmas::leveled_cover))]
pub fn count_blocks(
    alloc: Global,
    manager: &Manager,
    watch: &mut Watch,
    counts: &mut Counts,
) -> Result<(), Refusal>
    requires { Covers manager.now watch.old.blocks.items }
    ensures counts { OnOk result (IsCounted manager.now counts.new) }
    ensures covers { OnOk result (Covers manager.now watch.new.blocks.items) }
{
    let levels = watch.count(alloc, manager)?;
    counts.highest = levels.highest as u64;
    counts.very_under_replicated = levels.very_under_replicated as u64;
    counts.under_replicated = levels.under_replicated as u64;
    counts.badly_distributed = levels.badly_distributed as u64;
    counts.missing = levels.missing as u64;
    counts.excess = count_excess(manager)?;
    counts.corrupt = count_corrupt(manager)?;
    Ok(())
}

fn count_excess(manager: &Manager) -> Result<u64, Refusal>
    ensures { IfOk result (λ n. n ≡ length (excess_replicas manager.now.holdings)) }
{
    let listed = manager.excess()?;
    Ok(listed.as_slice().len() as u64)
}

fn count_corrupt(manager: &Manager) -> Result<u64, Refusal>
    ensures { IfOk result (λ n. n ≡ length (corrupt_replicas manager.now.holdings)) }
{
    let listed = manager.corrupt()?;
    Ok(listed.as_slice().len() as u64)
}
