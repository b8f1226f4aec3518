// The cluster after losses, before any round.
ghost use Rattle.std.specs.Prelude.{◌≡◌, true, IfOk, OnOk};
ghost use Rattle.bm_base.specs.Words.{missing_blocks};
ghost use Rattle.cluster_lost.specs.Losses.{are_losses, after_losses};
ghost use Rattle.cluster_report.specs.Sessions.{IsInStep};
ghost use Rattle.cluster_losses.specs.Outcomes.{IsOutcome};

use crate::cluster_counts::{ClusterCounts, count_cluster};
use crate::events::apply_all;
use bm_base::{BlockId, Event, Items, Refusal};
use cluster_lost::lost_blocks;
use cluster_report::session::Session;
use std::alloc::Global;
use std::sync::Wait;
use std::thread::Threads;

/// The cluster after losses, before any round.
#[derive(Drop)]
pub struct Outcome {
    pub after: ClusterCounts,
    /// The blocks that are missing after the losses and were not before, ascending.
    pub lost: Items<BlockId>,
}

/// Makes these losses, one after another, and then counts the cluster. `missing` are the missing
/// blocks before.
pub fn apply_losses<H: Threads + Wait + Sync>(
    rt: &H,
    alloc: Global,
    session: &mut Session,
    missing: &[BlockId],
    losses: &[Event],
) -> Result<Outcome, Refusal>
    requires in_step { IsInStep session.old }
    requires losses { are_losses losses.now ≡ true }
    requires missing { let M = session.old.manager in
        missing.now ≡ missing_blocks M.cluster M.holdings }
    // The lost blocks are those whose usable replicas were all on lost storages.
    ensures outcome { IfOk result (IsOutcome session.old.manager losses.now) }
    ensures state { OnOk result (session.new.manager
        ≡ after_losses session.old.manager losses.now) }
    ensures in_step { OnOk result (IsInStep session.new) }
{
    session.manager.show_invariant();
    apply_all(rt, session, losses)?;
    let after = count_cluster(alloc, session)?;
    let lost = lost_blocks(alloc, missing, after.missing.as_slice())?;
    Ok(Outcome { after, lost })
}
