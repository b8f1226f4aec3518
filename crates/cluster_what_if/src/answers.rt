// The answer about losses that happen together.
ghost use Rattle.std.specs.Prelude.{◌≡◌, true, IfOk, OnOk};
ghost use Rattle.cluster_lost.specs.Losses.{are_losses, after_losses};
ghost use Rattle.cluster_report.specs.Sessions.{IsInStep};
ghost use Rattle.cluster_what_if.specs.Answers.{IsAnswer};

use bm_base::{Event, Refusal};
use cluster_losses::applied_losses::{Outcome, apply_losses};
use cluster_losses::cluster_counts::{ClusterCounts, count_cluster};
use cluster_names::Files;
use cluster_pages::files_at_risk::{AtRisk, files_at_risk};
use cluster_report::session::Session;
use std::alloc::Global;
use std::sync::Wait;
use std::thread::Threads;

/// The counts of the cluster before losses and after them, with no round between.
#[derive(Drop)]
pub struct Answer {
    pub before: ClusterCounts,
    pub without: Outcome,
    /// The files of the lost blocks.
    pub risk: AtRisk,
}

/// Makes these losses, one after another. The manager is asked twice for all replicas, those in
/// excess, the missing blocks, and the level of each block that has a replica.
#[tactic(auto, using(crate::proofs::WholeAnswers::answered))]
pub fn answer_to_losses<H: Threads + Wait + Sync>(
    rt: &H,
    alloc: Global,
    session: &mut Session,
    files: &Files,
    losses: &[Event],
) -> Result<Answer, Refusal>
    requires in_step { IsInStep session.old }
    requires losses { are_losses losses.now ≡ true }
    ensures answer { IfOk result (IsAnswer files.now session.old.manager losses.now) }
    ensures state { OnOk result (session.new.manager
        ≡ after_losses session.old.manager losses.now) }
    ensures in_step { OnOk result (IsInStep session.new) }
{
    let before = count_cluster(alloc, session)?;
    let found = apply_losses(rt, alloc, session, before.missing.as_slice(), losses)?;
    let risk = files_at_risk(alloc, files, found.lost.as_slice(), &[])?;
    Ok(Answer {
        before,
        without: found,
        risk,
    })
}
