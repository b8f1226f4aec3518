// All rounds of a simulation.
ghost use Rattle.std.specs.Prelude.{OnOk};
ghost use Rattle.cluster_report.specs.Sessions.{IsInStep};
ghost use Rattle.laws_of_repairs.specs.Repairs.{Covers};

use crate::counts::Counts;
use crate::dice::Dice;
use crate::options::Options;
use crate::plan::Plan;
use crate::simulation::Simulation;
use bm_base::Refusal;
use cluster_progress::Progress;
use cluster_repair::datanodes::DataNodes;
use std::sync::Wait;
use std::thread::Threads;

/// Makes up the cluster, takes all rounds, and adds the counts of each.
pub fn take_all_rounds<R: Eprint + Threads + Wait + Sync>(
    rt: &R,
    simulation: &mut Simulation,
    options: &Options,
    plan: &Plan,
    rows: &mut Vec<Counts>,
    progress: &mut Progress,
) -> Result<(), Refusal>
    requires { IsInStep simulation.old.cluster.session }
{
    let mut dice = Dice::new(options.seed);
    simulation.begin(rt, options, &mut dice)?;
    take_quiet_rounds(rt, simulation, options, plan, rows, progress)?;
    let mut datanodes = simulation.go_wrong(rt, options, plan, &mut dice)?;
    take_rounds(
        rt,
        simulation,
        &mut datanodes,
        options,
        plan,
        rows,
        progress,
    )
}

/// The rounds before the incidents.
fn take_quiet_rounds<R: Eprint + Threads + Wait + Sync>(
    rt: &R,
    simulation: &mut Simulation,
    options: &Options,
    plan: &Plan,
    rows: &mut Vec<Counts>,
    progress: &mut Progress,
) -> Result<(), Refusal>
    requires in_step { IsInStep simulation.old.cluster.session }
    requires covers { Covers simulation.old.cluster.session.manager
        simulation.old.watch.blocks.items }
    ensures { OnOk result (IsInStep simulation.new.cluster.session) }
{
    for round in 1..plan.round {
        progress.show_rounds(rt, round.saturating_sub(1), options.rounds);
        let counts = simulation.take_quiet_round(rt, round)?;
        rows.push(counts)?;
    }
    Ok(())
}

/// The rounds from that of the incidents on, which is at time 0. Each later one comes at the first
/// tick at which fewer copies are on their way than a round may command.
fn take_rounds<R: Eprint + Threads + Wait + Sync>(
    rt: &R,
    simulation: &mut Simulation,
    datanodes: &mut DataNodes,
    options: &Options,
    plan: &Plan,
    rows: &mut Vec<Counts>,
    progress: &mut Progress,
) -> Result<(), Refusal>
    requires { Covers simulation.old.cluster.session.manager simulation.old.watch.blocks.items }
{
    let ticks = simulation.ticks(options.pace);
    let mut now = 0;
    let rounds = options.rounds.saturating_sub(plan.round).saturating_add(1);
    for past in 0..rounds {
        let round = plan.round.saturating_add(past);
        progress.show_rounds(rt, round.saturating_sub(1), options.rounds);
        if past > 0 {
            now = ticks.next(now, datanodes.on_way.sent.as_slice());
        }
        let counts = simulation.take_round(rt, datanodes, round, now)?;
        rows.push(counts)?;
    }
    Ok(())
}
