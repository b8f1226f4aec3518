// A round of all shards: taken in all of them, or in none.
ghost use Rattle.std.specs.Prelude.{◌≡◌, ◌<◌, ◌+◌, ◌^◌, None, length, IfOk, IfErr, OnOk, OnErr, vec_len, All};
ghost use Rattle.bm_base.specs.Words.{AllZip, limits_of, config_refusal};
ghost use Rattle.bm_base.specs.declared.refusal.Refusal.TheVariants.{Memory};
ghost use Rattle.bm_shards.specs.Whole.{IsUpToDate, HasTaken, AreShards, AreUpToDate, HaveTaken, held_by};
ghost use Rattle.bm_shards.specs.Answers.{EachBecame};
ghost use Rattle.bm_shards.specs.ShardWork.{IsSame, HasGivenUp};
ghost use Rattle.bm_shards.specs.Rounds.{commands_in, left_by_round};
ghost use Rattle.bm_shards.specs.RoundWork.{HasPart, CanCommitRound, HasTakenRound};

use crate::abort::abort_all;
use crate::all_shards::AllShards;
use crate::answers::{ShardResult, gather_prepared};
use crate::pass_buffers::reserve_pass;
use crate::round_parts::{find_round, lacks_transfers};
use crate::workers::Workers;
use bm_base::{Chosen, Commands, Config, Refusal, RoundPart};
use bm_crew::{Crew, Ready};
use bm_shard::Shard;
use bm_topo::Topology;
use std::alloc::Global;
use std::mem;

impl AllShards {
    /// Takes the round after `last` in all shards, or in none, and returns the commands of each
    /// DataNode. The workers find each shard's part; transfers and deletes are chosen from all
    /// parts; then each shard is prepared, and changed. `Memory`, and then a contract sees no
    /// change but of capacity.
    #[tactic(auto, unfolding(crate::specs::Whole::IsUpToDate, crate::specs::Whole::HasTaken))]
    pub fn round<W: Workers>(
        &mut self,
        workers: &W,
        config: &Config,
        last: u64,
        topology: &Topology,
    ) -> Result<Commands, Refusal>
        requires config { config_refusal config.now ≡ None }
        requires counted { last + 1 < 2 ^ 64 }
        requires up_to_date { IsUpToDate topology.now.cluster self.old }
        requires rounds { HasTaken last config.now.pend self.old }
        ensures commands { IfOk result
            (λ k. k ≡ commands_in (limits_of config.now) topology.now.cluster (last + 1)
            self.old.holdings) }
        ensures changed { OnOk result (self.new.holdings
            ≡ left_by_round (limits_of config.now) topology.now.cluster (last + 1)
            self.old.holdings) }
        ensures up_to_date { IsUpToDate topology.now.cluster self.new }
        ensures rounds { OnOk result (HasTaken (last + 1) config.now.pend self.new) }
        ensures unchanged { OnErr result (self.new.holdings ≡ self.old.holdings) }
        ensures kept { OnErr result (HasTaken last config.now.pend self.new) }
        ensures refused { IfErr result (λ e. e ≡ Memory) }
    {
        take_round_in_all(
            workers,
            &mut self.shards,
            config,
            last,
            topology,
            &mut self.is_scarce,
        )
    }
}

/// Takes the round after `last` in all shards, or in none, and returns its commands. `is_scarce` is
/// a hint: whether to ask for all wishes at once. If the search for the parts is refused, the hint
/// is false after that, so that the next round needs less memory.
fn take_round_in_all<W: Workers>(
    workers: &W,
    shards: &mut Vec<(u32, Shard)>,
    config: &Config,
    last: u64,
    topology: &Topology,
    is_scarce: &mut bool,
) -> Result<Commands, Refusal>
    requires config { config_refusal config.now ≡ None }
    requires counted { last + 1 < 2 ^ 64 }
    requires shards { AreShards (length shards.old.items) shards.old.items }
    requires up_to_date { AreUpToDate topology.now.cluster shards.old.items }
    requires rounds { HaveTaken last config.now.pend shards.old.items }
    ensures commands { IfOk result
        (λ k. k ≡ commands_in (limits_of config.now) topology.now.cluster (last + 1)
        (held_by shards.old.items)) }
    ensures changed { OnOk result (held_by shards.new.items
        ≡ left_by_round (limits_of config.now) topology.now.cluster (last + 1)
        (held_by shards.old.items)) }
    ensures shards { AreShards (length shards.new.items) shards.new.items }
    ensures up_to_date { AreUpToDate topology.now.cluster shards.new.items }
    ensures rounds { OnOk result (HaveTaken (last + 1) config.now.pend shards.new.items) }
    ensures unchanged { OnErr result (held_by shards.new.items ≡ held_by shards.old.items) }
    ensures kept { OnErr result (HaveTaken last config.now.pend shards.new.items) }
    ensures refused { IfErr result (λ e. e ≡ Memory) }
{
    let alloc = *shards.allocator();
    let asks_for_all = mem::replace(is_scarce, false);
    let found = find_round(workers, shards, config, last + 1, topology, asks_for_all)?;
    *is_scarce = lacks_transfers(&found, config, topology);
    take_round(
        alloc,
        workers,
        shards,
        found.parts.as_slice(),
        &found.choice.chosen,
        topology,
    )?;
    let choice = found.choice;
    Ok(choice.commands)
}

/// Takes the next round in all these shards, or in none of them.
fn take_round<W: Workers>(
    alloc: Global,
    workers: &W,
    shards: &mut Vec<(u32, Shard)>,
    parts: &[RoundPart],
    chosen: &Chosen,
    topology: &Topology,
) -> Result<(), Refusal>
    requires parts { All (HasPart topology.now.cluster parts.now) shards.old.items }
    requires up_to_date { AreUpToDate topology.now.cluster shards.old.items }
    requires counted { All (λ s. s.1.round + 1 < 2 ^ 64) shards.old.items }
    ensures taken { OnOk result
        (EachBecame (HasTakenRound topology.now.cluster chosen.now) shards.old.items
        shards.new.items) }
    ensures same { OnErr result (AllZip IsSame shards.old.items shards.new.items) }
    ensures given_up { OnErr result (All (λ s. HasGivenUp s.1) shards.new.items) }
    ensures refused { IfErr result (λ e. e ≡ Memory) }
{
    match prepare_for_round(alloc, workers, shards, parts, chosen, topology) {
        Ok(committing) => {
            let items = mem::replace(shards, Vec::new(alloc));
            *shards = workers.commit_round_all(committing, items, parts, chosen, topology);
            Ok(())
        }
        Err(refusal) => {
            abort_all(shards);
            Err(refusal)
        }
    }
}

/// Prepares all shards for their next round, and takes the memory of the pass in which they take
/// it. After a refusal, those that were prepared stay prepared.
fn prepare_for_round<W: Workers>(
    alloc: Global,
    workers: &W,
    shards: &mut Vec<(u32, Shard)>,
    parts: &[RoundPart],
    chosen: &Chosen,
    topology: &Topology,
) -> Result<Ready<Shard, Shard>, Refusal>
    requires parts { All (HasPart topology.now.cluster parts.now) shards.old.items }
    requires up_to_date { AreUpToDate topology.now.cluster shards.old.items }
    requires counted { All (λ s. s.1.round + 1 < 2 ^ 64) shards.old.items }
    ensures same { AllZip IsSame shards.old.items shards.new.items }
    ensures ready { OnOk result
        (All (CanCommitRound topology.now.cluster parts.now chosen.now) shards.new.items) }
    ensures capacity { IfOk result (λ r. r.capacity ≡ vec_len shards.new) }
    ensures refused { IfErr result (λ e. e ≡ Memory) }
{
    let (preparing, back) = reserve_pass::<ShardResult<()>>(alloc, shards.len(), workers.count())?;
    let items = mem::replace(shards, back);
    let made = workers.prepare_round_all(preparing, items, parts, chosen, topology);
    match gather_prepared(made, shards) {
        Ok(()) => Crew::ready::<Shard, Shard>(alloc, shards.len(), workers.count()),
        Err(refusal) => Err(refusal),
    }
}
