// Which blocks are copied, from where and to where.
ghost use Rattle.std.specs.Prelude.{◌≡◌, [], map, false, None, IfOk, IfErr, OnOk, IfSome};
ghost use Rattle.bm_base.specs.Words.{RoundLimits, limits_of, has_repeats, targets_of};
ghost use Rattle.bm_base.specs.declared.refusal.Refusal.TheVariants.{Memory};
ghost use Rattle.bm_place.specs.ChoiceResults.{IsCountable, HasFreeBytesFor};
ghost use Rattle.bm_round.specs.RoundCommands.{with_copies};
ghost use Rattle.bm_round.specs.TransferCounts.{IsCounted};
ghost use Rattle.bm_round.specs.KeyedParts.{referenced_wishes};
ghost use Rattle.bm_base.specs.Choices as choices;

use crate::chosen_so_far::ChosenSoFar;
use bm_base::{Config, Refusal, Transfer, Wish};
use bm_place::{least_source, least_target};
use bm_topo::Topology;
use std::alloc::Global;

/// Chooses the transfers, wish by wish, once for each missing copy. Ends as soon as the round
/// is full; makes no table of the cluster where there is no wish.
pub(crate) fn choose_transfers(
    alloc: Global,
    wishes: &[&Wish],
    topology: &Topology,
    config: &Config,
) -> Result<Vec<Transfer>, Refusal>
    requires apart { has_repeats (map (λ w. w.block) (referenced_wishes wishes.now)) ≡ false }
    ensures transfers { IfOk result (λ v. v.items
        ≡ choices.transfers_over (limits_of config.now) topology.now.cluster []
        (choices.one_by_one (referenced_wishes wishes.now))) }
    ensures refused { IfErr result (λ e. e ≡ Memory) }
{
    if wishes.is_empty() {
        return Ok(Vec::new(alloc));
    }
    let mut choice = ChosenSoFar::new(alloc, topology)?;
    for wish in wishes {
        if choice.is_full(config, topology) {
            break;
        }
        choose_copies(wish, topology, config, &mut choice)?;
    }
    let ChosenSoFar { transfers, .. } = choice;
    Ok(transfers)
}

/// Chooses the transfers for one wish, for whose block nothing has been chosen yet. Where one
/// copy has no source or no target, no later one does. Late in a round most wishes have no source,
/// and then nothing else of them is read.
fn choose_copies(
    wish: &Wish,
    topology: &Topology,
    config: &Config,
    choice: &mut ChosenSoFar<'_>,
) -> Result<(), Refusal>
    requires counted { IsCounted topology.now.cluster choice.old }
    requires fresh { targets_of choice.old.transfers.items wish.now.block ≡ [] }
    ensures transfers { OnOk result (choice.new.transfers.items
        ≡ with_copies (limits_of config.now) topology.now.cluster
        choice.old.transfers.items wish.now) }
    ensures counted { OnOk result (IsCounted topology.now.cluster choice.new) }
    ensures refused { IfErr result (λ e. e ≡ Memory) }
{
    choice.begin_sources(wish)?;
    if !has_source(wish, topology, choice) {
        return Ok(());
    }
    choice.begin_targets(wish)?;
    for _copy in 0..wish.count {
        let Some(transfer) = next_copy(wish, topology, config, choice) else {
            return Ok(());
        };
        choice.add(transfer)?;
    }
    Ok(())
}

/// Whether one of the sources may send one more copy.
#[tactic(auto, unfolding(bm_base::specs::Choices::transfer_by))]
fn has_source(wish: &Wish, topology: &Topology, choice: &ChosenSoFar<'_>) -> bool
    requires counted { IsCounted topology.now.cluster choice.now }
    requires sources { choice.now.sources.items ≡ choices.sources_by wish.now }
    ensures { (limits : RoundLimits) → result ≡ false
        → choices.transfer_by limits topology.now.cluster choice.now.transfers.items wish.now
        ≡ None }
{
    let sources = choice.sources.as_slice();
    least_source(sources, wish.level, topology, &choice.streams).is_some()
}

/// The transfer for one more copy. A target is searched for only where there is a source.
#[tactic(auto, unfolding(bm_base::specs::Choices::transfer_by))]
fn next_copy(
    wish: &Wish,
    topology: &Topology,
    config: &Config,
    choice: &ChosenSoFar<'_>,
) -> Option<Transfer>
    requires counted { IsCounted topology.now.cluster choice.now }
    requires sources { choice.now.sources.items ≡ choices.sources_by wish.now }
    requires held { choice.now.held.items ≡ choices.holders_by choice.now.transfers.items wish.now }
    requires excluded { choice.now.excluded.items
        ≡ choices.excluded_by choice.now.transfers.items wish.now }
    ensures transfer { result
        ≡ choices.transfer_by (limits_of config.now) topology.now.cluster
        choice.now.transfers.items wish.now }
    ensures block { IfSome result (λ t. t.block ≡ wish.now.block) }
    ensures countable { IfSome result (λ t. IsCountable choice.now.streams t.source) }
    ensures fits { IfSome result (λ t. HasFreeBytesFor choice.now.scheduled t.stamp.len t.target) }
{
    if choice.is_full(config, topology) {
        return None;
    }
    let sources = choice.sources.as_slice();
    let Some(source) = least_source(sources, wish.level, topology, &choice.streams) else {
        return None;
    };
    let held = choice.held.as_slice();
    let excluded = choice.excluded.as_slice();
    let len = wish.stamp.len;
    let Some(target) = least_target(held, excluded, len, wish.level, topology, &choice.scheduled)
    else {
        return None;
    };
    Some(Transfer {
        block: wish.block,
        stamp: wish.stamp,
        source,
        target,
    })
}
