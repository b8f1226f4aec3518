// The choices of a round.
ghost use Rattle.std.specs.Prelude.{◌≡◌, ◌≤◌, ◌*◌, ℕ, nat_le, List, Some, map, length, false, true, IfOk, IfErr, All};
ghost use Rattle.bm_base.specs.Words.{limits_of, has_repeats, len};
ghost use Rattle.bm_base.specs.declared.refusal.Refusal.TheVariants.{Memory};
ghost use Rattle.bm_base.specs.declared.round.RoundPart.{RoundPart};
ghost use Rattle.bm_parts.specs.BoundedWishes.{part_before};
ghost use Rattle.bm_parts.specs.SortedLists.{AreSorted};
ghost use Rattle.bm_round.specs.Copies.{IsCopyOf};
ghost use Rattle.bm_round.specs.RoundCommands.{IsChosenOf, HasFewDeletes, first_by_node, deletes_of_all};
ghost use Rattle.bm_base.specs.Choices as choices;
ghost use Rattle.bm_round.specs.KeyedParts as merging;

use crate::chosen_so_far::is_full_count;
use crate::groups::Groups;
use crate::merge::{merge_deletes, merge_wishes, references_to};
use crate::transfers::choose_transfers;
use bm_base::{Chosen, Config, Delete, Items, NodeCommands, Refusal, RoundPart, Transfer};
use bm_topo::Topology;
use std::alloc::{AllocError, Global};

/// Chooses what a round commands from what the shards found.
///
/// Transfers: wish by wish, by level and then by block, each once for each missing copy. Each goes
/// from the least source to the least target where both exist. There are at most `work` times the
/// number of alive nodes. Deletes: for each node the first `invalidate` on its storages, by storage
/// and then by block. Deletes on storages outside the cluster are ignored.
///
/// Each part is sorted, and no block has two wishes in all parts together. `Memory` where a list
/// cannot grow; nothing else is refused.
///
/// Merging n wishes or deletes of k parts compares each about log k times. Each missing copy
/// costs a scan of the block's live and drained replicas and, if one may be the source, of one
/// storage of each node. It costs nothing once the round is full. Each delete is scanned once, with
/// two binary searches where the one before it was on another storage. Without wishes, or without
/// deletes, no table of nodes or storages is made for them.
pub fn choose(
    alloc: Global,
    parts: &[RoundPart],
    topology: &Topology,
    config: &Config,
) -> Result<Chosen, Refusal>
    requires wishes { AreSorted (map merging.keyed_wishes parts.now) }
    requires deletes { AreSorted (map merging.keyed_deletes parts.now) }
    requires one_wish { has_repeats (map (λ w. w.block) (choices.merged_wishes parts.now)) ≡ false }
    ensures transfers { IfOk result (λ c. c.transfers
        ≡ choices.chosen_transfers (limits_of config.now) topology.now.cluster parts.now) }
    ensures deletes { IfOk result (λ c. c.deletes
        ≡ choices.chosen_deletes (limits_of config.now) topology.now.cluster parts.now) }
    ensures few_transfers { IfOk result
        (λ c. length c.transfers ≤ config.now.work * len topology.now.cluster.nodes) }
    ensures copies { IfOk result
        (λ c. All (IsCopyOf (choices.merged_wishes parts.now)) c.transfers) }
    ensures few_deletes { IfOk result
        (λ c. HasFewDeletes topology.now.cluster config.now.invalidate c.deletes) }
    ensures refused { IfErr result (λ e. e ≡ Memory) }
{
    let transfers = choose_from_parts(alloc, parts, topology, config)?;
    let deletes = choose_deletes(alloc, parts, topology, config)?;
    Ok(Chosen {
        transfers: Items::from_vec(transfers),
        deletes: Items::from_vec(deletes),
    })
}

/// Whether a round has reached its limit of transfers. Then later wishes cannot change it.
pub fn is_full(chosen: &Chosen, topology: &Topology, config: &Config) -> bool
    ensures exact { result
        ≡ nat_le (config.now.work * len topology.now.cluster.nodes) (length chosen.now.transfers) }
    ensures first { (bound : ℕ × ℕ) (whole : List RoundPart) → result ≡ true
        → IsChosenOf (limits_of config.now) topology.now.cluster
        (map (part_before (Some bound)) whole)
        chosen.now.transfers
        → IsChosenOf (limits_of config.now) topology.now.cluster whole chosen.now.transfers }
{
    is_full_count(chosen.transfers.as_slice().len(), config, topology)
}

/// Returns the chosen transfers. The wishes of a single part are sorted already.
#[tactic(auto, unfolding(bm_base::specs::Choices::chosen_transfers))]
fn choose_from_parts(
    alloc: Global,
    parts: &[RoundPart],
    topology: &Topology,
    config: &Config,
) -> Result<Vec<Transfer>, Refusal>
    requires wishes { AreSorted (map merging.keyed_wishes parts.now) }
    requires one_wish { has_repeats (map (λ w. w.block) (choices.merged_wishes parts.now)) ≡ false }
    ensures transfers { IfOk result
        (λ v. v.items ≡ choices.chosen_transfers (limits_of config.now)
        topology.now.cluster parts.now) }
    ensures refused { IfErr result (λ e. e ≡ Memory) }
{
    if parts.len() == 1 {
        let wishes = references_to(alloc, parts[0].wishes.as_slice())?;
        return choose_transfers(alloc, wishes.as_slice(), topology, config);
    }
    let wishes = merge_wishes(alloc, parts)?;
    choose_transfers(alloc, wishes.as_slice(), topology, config)
}

/// Returns the chosen deletes. Those of a single part are sorted already, and are not copied.
#[tactic(auto, unfolding(bm_base::specs::Choices::chosen_deletes))]
fn choose_deletes(
    alloc: Global,
    parts: &[RoundPart],
    topology: &Topology,
    config: &Config,
) -> Result<Vec<Delete>, Refusal>
    requires deletes { AreSorted (map merging.keyed_deletes parts.now) }
    ensures deletes { IfOk result
        (λ v. v.items ≡ choices.chosen_deletes (limits_of config.now)
        topology.now.cluster parts.now) }
    ensures refused { IfErr result (λ e. e ≡ Memory) }
{
    if parts.len() == 1 {
        let deletes = parts[0].deletes.as_slice();
        return Ok(first_of_each_node(alloc, deletes, topology, config)?);
    }
    let deletes = merge_deletes(alloc, parts)?;
    Ok(first_of_each_node(alloc, deletes.as_slice(), topology, config)?)
}

/// For each node, the first `invalidate` deletes on its storages; sorted by node.
fn first_of_each_node(
    alloc: Global,
    deletes: &[Delete],
    topology: &Topology,
    config: &Config,
) -> Result<Vec<Delete>, AllocError>
    ensures { IfOk result
        (λ v. v.items ≡ choices.first_of_each_node (limits_of config.now) topology.now.cluster
        deletes.now) }
{
    if deletes.is_empty() {
        return Ok(Vec::new(alloc));
    }
    let groups = first_by_node(alloc, deletes, topology, config.invalidate as usize)?;
    all_deletes(alloc, groups.as_slice())
}

/// Groups the deletes by alive node, and keeps the first `most` of each node.
fn first_by_node(
    alloc: Global,
    deletes: &[Delete],
    topology: &Topology,
    most: usize,
) -> Result<Vec<NodeCommands>, AllocError>
    ensures { IfOk result
        (λ v. v.items ≡ first_by_node most topology.now.cluster deletes.now) }
{
    let mut groups = Groups::new(alloc, topology)?;
    for delete in deletes {
        groups.add_first_delete(topology, *delete, most)?;
    }
    let Groups { nodes, .. } = groups;
    Ok(nodes)
}

/// The deletes of all nodes, one node after another.
fn all_deletes(alloc: Global, groups: &[NodeCommands]) -> Result<Vec<Delete>, AllocError>
    ensures { IfOk result (λ v. v.items ≡ deletes_of_all groups.now) }
{
    let mut all = Vec::new(alloc);
    for commands in groups {
        all.extend_from_slice(commands.deletes.as_slice())?;
    }
    Ok(all)
}
