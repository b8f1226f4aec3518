// The parts of all shards for a round: with their first wishes, or with all.
ghost use Rattle.std.specs.Prelude.{◌≡◌, None, List, map, true, false, IfOk, IfErr, All};
ghost use Rattle.bm_base.specs.Words.{limits_of, has_repeats, config_refusal, commands_of};
ghost use Rattle.bm_base.specs.declared.refusal.Refusal.TheVariants.{Memory};
ghost use Rattle.bm_base.specs.declared.round.RoundPart.{RoundPart};
ghost use Rattle.bm_parts.specs.BoundedWishes.{part_before};
ghost use Rattle.bm_shards.specs.RoundWork.{CanFind};
ghost use Rattle.bm_shards.specs.RoundChoice.{next_parts, next_parts_before, HasExcess, IsChosen};
ghost use Rattle.bm_base.specs.Choices as choices;

use crate::answers::{ShardResult, gather_answers};
use crate::pass_buffers::reserve_pass;
use crate::round_choice::{ChosenCommands, choose_commands};
use crate::workers::Workers;
use bm_base::{Chosen, Config, Refusal, RoundPart};
use bm_parts::sort_key::Key;
use bm_round::is_full;
use bm_shard::Shard;
use bm_topo::Topology;
use std::alloc::Global;
use std::mem;

/// The parts of the shards for their next round, perhaps only with the first wishes, and the choice
/// from them.
#[derive(Drop)]
pub(crate) struct FoundRound {
    pub parts: Vec<RoundPart>,
    pub choice: ChosenCommands,
}

/// Collects each shard's part and chooses from them. Asks first for the wishes up to a bound. While
/// the round is not full after that, asks for those up to a later bound, and at last for all.
/// `asks_for_all` leaves the bounds out; the answer is the same. No shard changes.
pub(crate) fn find_round<W: Workers>(
    workers: &W,
    shards: &mut Vec<(u32, Shard)>,
    config: &Config,
    round: u64,
    topology: &Topology,
    asks_for_all: bool,
) -> Result<FoundRound, Refusal>
    requires config { config_refusal config.now ≡ None }
    requires shards { All (λ s. CanFind topology.now.cluster round s.1) shards.old.items }
    requires one_wish { has_repeats (map
        (λ w. w.block) (choices.merged_wishes (next_parts topology.now.cluster shards.old.items)))
        ≡ false }
    ensures shards { shards.new.items ≡ shards.old.items }
    ensures excess { IfOk result
        (λ f. HasExcess topology.now.cluster shards.old.items f.parts.items) }
    ensures chosen { IfOk result
        (λ f. IsChosen (limits_of config.now) topology.now.cluster round shards.old.items
        f.choice) }
    ensures refused { IfErr result (λ e. e ≡ Memory) }
{
    for wishes in &WISHES_PER_TRANSFER {
        if asks_for_all {
            break;
        }
        let bound = bound_of_shards(shards.as_slice(), config, topology, *wishes)?;
        let found = find_before(workers, shards, config, round, topology, bound)?;
        if is_of_all(&found.choice.chosen, bound, topology, config) {
            return Ok(found);
        }
    }
    find_before(workers, shards, config, round, topology, None)
}

/// Collects each shard's part, with the wishes before a bound, and chooses from them. No shard
/// changes.
fn find_before<W: Workers>(
    workers: &W,
    shards: &mut Vec<(u32, Shard)>,
    config: &Config,
    round: u64,
    topology: &Topology,
    bound: Option<Key>,
) -> Result<FoundRound, Refusal>
    requires shards { All (λ s. CanFind topology.now.cluster round s.1) shards.old.items }
    requires one_wish { has_repeats (map
        (λ w. w.block) (choices.merged_wishes (next_parts topology.now.cluster shards.old.items)))
        ≡ false }
    ensures shards { shards.new.items ≡ shards.old.items }
    ensures excess { IfOk result
        (λ f. HasExcess topology.now.cluster shards.old.items f.parts.items) }
    ensures transfers { IfOk result
        (λ f. f.choice.chosen.transfers
        ≡ choices.chosen_transfers (limits_of config.now) topology.now.cluster
        (map (part_before bound) (next_parts topology.now.cluster shards.old.items))) }
    ensures deletes { IfOk result
        (λ f. f.choice.chosen.deletes
        ≡ choices.chosen_deletes (limits_of config.now) topology.now.cluster
        (next_parts topology.now.cluster shards.old.items)) }
    ensures commands { IfOk result
        (λ f. f.choice.commands ≡ commands_of topology.now.cluster round
        f.choice.chosen.transfers f.choice.chosen.deletes) }
    ensures refused { IfErr result (λ e. e ≡ Memory) }
{
    let alloc = *shards.allocator();
    let parts = find_parts(alloc, workers, shards, round, topology, bound)?;
    let choice = choose_commands(alloc, parts.as_slice(), config, round, topology)?;
    Ok(FoundRound { parts, choice })
}

/// Whether a round is not full, although it found more wishes than the first bound asks for. Then
/// the next round is likely to need all wishes too.
pub(crate) fn lacks_transfers(found: &FoundRound, config: &Config, topology: &Topology) -> bool {
    if is_full(&found.choice.chosen, topology, config) {
        return false;
    }
    let mut wishes = 0;
    for part in found.parts.as_slice() {
        wishes = part.wishes.as_slice().len().saturating_add(wishes);
    }
    let transfers = u64::from(config.work).saturating_mul(u64::from(topology.alive_nodes()));
    wishes as u64 > transfers.saturating_mul(WISHES_PER_TRANSFER[0])
}

/// Whether the choice from the wishes before a bound is sure to be the choice from all wishes.
fn is_of_all(chosen: &Chosen, bound: Option<Key>, topology: &Topology, config: &Config) -> bool
    ensures { (whole : List RoundPart) → result ≡ true
        → chosen.now.transfers ≡ choices.chosen_transfers (limits_of config.now)
        topology.now.cluster (map (part_before bound) whole)
        → chosen.now.transfers ≡ choices.chosen_transfers (limits_of config.now)
        topology.now.cluster whole }
{
    match bound {
        Some(_) => is_full(chosen, topology, config),
        None => true,
    }
}

/// Collects each shard's part, with the wishes before a bound. No shard changes.
fn find_parts<W: Workers>(
    alloc: Global,
    workers: &W,
    shards: &mut Vec<(u32, Shard)>,
    round: u64,
    topology: &Topology,
    bound: Option<Key>,
) -> Result<Vec<RoundPart>, Refusal>
    requires shards { All (λ s. CanFind topology.now.cluster round s.1) shards.old.items }
    ensures shards { shards.new.items ≡ shards.old.items }
    ensures parts { IfOk result
        (λ v. v.items ≡ next_parts_before bound topology.now.cluster shards.old.items) }
    ensures refused { IfErr result (λ e. e ≡ Memory) }
{
    let answers = Vec::with_capacity(alloc, shards.len())?;
    let (asking, back) = reserve_pass::<ShardResult<RoundPart>>(
        alloc,
        shards.len(),
        workers.count(),
    )?;
    let items = mem::replace(shards, back);
    let found = workers.find_all(asking, items, round, topology, bound);
    gather_answers(found, shards, answers)
}

/// The numbers of wishes asked for in turn, for each transfer that a round may have. Some find no
/// source, since in the end few nodes may still send a copy. With uniform nodes, a round uses 3 to
/// 5 wishes for each of its last transfers. More are used if the most urgent blocks are on few
/// nodes.
const WISHES_PER_TRANSFER: [u64; 3] = [7, 56, 448];

/// The number of blocks, of all shards together, that are sampled to guess the bound.
const SAMPLES: usize = 1_024;

/// A bound before which the shards are likely to have this number of wishes for each transfer that
/// a round may have.
fn bound_of_shards(
    shards: &[(u32, Shard)],
    config: &Config,
    topology: &Topology,
    wishes: u64,
) -> Result<Option<Key>, Refusal>
    ensures refused { IfErr result (λ e. e ≡ Memory) }
{
    let transfers = u64::from(config.work).saturating_mul(u64::from(topology.alive_nodes()));
    let shard_count = shards.len().max(1);
    let of_each = transfers.saturating_mul(wishes) / shard_count as u64;
    let samples = SAMPLES / shard_count;
    let mut bound = None;
    for shard in shards {
        bound = later_bound(bound, shard.1.likely_bound(of_each as usize, samples)?);
    }
    Ok(bound)
}

/// The later of two bounds.
fn later_bound(bound: Option<Key>, other: Option<Key>) -> Option<Key> {
    match (bound, other) {
        (Some(bound), Some(other)) => {
            if bound.0.cmp(&other.0).then(bound.1.cmp(&other.1)).is_lt() {
                Some(other)
            } else {
                Some(bound)
            }
        }
        (Some(bound), None) => Some(bound),
        (None, other) => other,
    }
}
