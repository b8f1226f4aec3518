// The commands of a round, from what the shards found.
ghost use Rattle.std.specs.Prelude.{◌≡◌, map, false, IfOk, IfErr, All};
ghost use Rattle.bm_base.specs.Words.{limits_of, has_repeats, commands_of};
ghost use Rattle.bm_base.specs.declared.refusal.Refusal.TheVariants.{Memory};
ghost use Rattle.bm_base.specs.Choices.{merged_wishes, chosen_transfers, chosen_deletes};
ghost use Rattle.bm_parts.specs.SortedLists.{AreSorted};
ghost use Rattle.bm_round.specs.RoundCommands.{SendsItsOwn, DeletesItsOwn};
ghost use Rattle.bm_round.specs.KeyedParts.{keyed_wishes, keyed_deletes};

use bm_base::{Commands, Config, Refusal, RoundPart};
use bm_round::{choose, commands};
use bm_topo::Topology;
use std::alloc::Global;

/// The commands of a round for all DataNodes. Each part is in order, as a shard finds it, and no
/// block is requested twice.
pub fn commands_of_parts(
    alloc: Global,
    round: u64,
    parts: &[RoundPart],
    topology: &Topology,
    config: &Config,
) -> Result<Commands, Refusal>
    requires wishes { AreSorted (map keyed_wishes parts.now) }
    requires deletes { AreSorted (map keyed_deletes parts.now) }
    requires one_wish { has_repeats (map (λ w. w.block) (merged_wishes parts.now)) ≡ false }
    ensures commands { IfOk result (λ made. made ≡ commands_of topology.now.cluster round
        (chosen_transfers (limits_of config.now) topology.now.cluster parts.now)
        (chosen_deletes (limits_of config.now) topology.now.cluster parts.now)) }
    ensures sends { IfOk result (λ made. All (SendsItsOwn topology.now.cluster) made.nodes) }
    ensures deletes { IfOk result (λ made. All (DeletesItsOwn topology.now.cluster) made.nodes) }
    ensures refused { IfErr result (λ e. e ≡ Memory) }
{
    let chosen = choose(alloc, parts, topology, config)?;
    commands(alloc, round, &chosen, topology)
}
