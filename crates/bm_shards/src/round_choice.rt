// The choice of a round from the parts of all shards, and its commands.
ghost use Rattle.std.specs.Prelude.{◌≡◌, map, false, IfOk, IfErr};
ghost use Rattle.bm_base.specs.Words.{limits_of, has_repeats, commands_of};
ghost use Rattle.bm_base.specs.declared.refusal.Refusal.TheVariants.{Memory};
ghost use Rattle.bm_parts.specs.SortedLists.{AreSorted};
ghost use Rattle.bm_round.specs.KeyedParts.{keyed_wishes, keyed_deletes};
ghost use Rattle.bm_base.specs.Choices as choices;

use bm_base::{Chosen, Commands, Config, Refusal, RoundPart};
use bm_round::{choose, commands};
use bm_topo::Topology;
use std::alloc::Global;

/// The choice of a round, and its commands.
#[derive(Drop)]
pub(crate) struct ChosenCommands {
    pub chosen: Chosen,
    pub commands: Commands,
}

/// Chooses from these parts for a round, and makes the commands.
pub(crate) fn choose_commands(
    alloc: Global,
    parts: &[RoundPart],
    config: &Config,
    round: u64,
    topology: &Topology,
) -> Result<ChosenCommands, Refusal>
    requires wishes { AreSorted (map keyed_wishes parts.now) }
    requires deletes { AreSorted (map keyed_deletes parts.now) }
    requires one_wish { has_repeats (map (λ w. w.block) (choices.merged_wishes parts.now)) ≡ false }
    ensures transfers { IfOk result
        (λ c. c.chosen.transfers
        ≡ choices.chosen_transfers (limits_of config.now) topology.now.cluster parts.now) }
    ensures deletes { IfOk result
        (λ c. c.chosen.deletes
        ≡ choices.chosen_deletes (limits_of config.now) topology.now.cluster parts.now) }
    ensures commands { IfOk result
        (λ c. c.commands ≡ commands_of topology.now.cluster round c.chosen.transfers
        c.chosen.deletes) }
    ensures refused { IfErr result (λ e. e ≡ Memory) }
{
    let chosen = choose(alloc, parts, topology, config)?;
    let commands = commands(alloc, round, &chosen, topology)?;
    Ok(ChosenCommands { chosen, commands })
}
