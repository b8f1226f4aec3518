// The transfers chosen so far in a round, with the tables from which the next one is chosen.
ghost use Rattle.std.specs.Prelude.{◌≡◌, ◌*◌, ◌++◌, ◌∷◌, [], nat_le, length, IfOk, IfErr, OnOk};
ghost use Rattle.bm_base.specs.Words.{Cluster};
ghost use Rattle.bm_base.specs.declared.refusal.Refusal.TheVariants.{Memory};
ghost use Rattle.bm_place.specs.ChoiceResults.{IsCountable, HasFreeBytesFor};
ghost use Rattle.bm_round.specs.TransferCounts.{IsCounted};
ghost use Rattle.bm_base.specs.Maps.Map as map;
ghost use Rattle.bm_base.specs.Choices as choices;

use bm_base::{Config, Refusal, StorageId, Transfer, Wish};
use bm_place::{Scheduled, Streams};
use bm_topo::Topology;
use std::alloc::Global;

/// The transfers chosen so far, and the streams and bytes that they add up to.
#[derive(Drop)]
pub(crate) struct ChosenSoFar<'a> {
    pub transfers: Vec<Transfer>,
    pub streams: Streams<'a>,
    pub scheduled: Scheduled<'a>,
    /// For the current wish: the storages that may be the source. This list and the next two are
    /// filled again for each wish, so they allocate only if one grows past its capacity.
    pub sources: Vec<StorageId>,
    /// The storages that hold a live replica of the wish's block, or will hold one.
    pub held: Vec<StorageId>,
    /// The storages on whose nodes no copy of the block may be put.
    pub excluded: Vec<StorageId>,
}

impl<'a> ChosenSoFar<'a> {
    /// Nothing is chosen yet.
    pub fn new(alloc: Global, topology: &'a Topology) -> Result<ChosenSoFar<'a>, Refusal>
        ensures nothing { IfOk result (λ c. c.transfers.items ≡ []) }
        ensures counted { IfOk result (IsCounted topology.now.cluster) }
        ensures refused { IfErr result (λ e. e ≡ Memory) }
    {
        let streams = Streams::new(alloc, topology)?;
        let scheduled = Scheduled::new(alloc, topology)?;
        Ok(ChosenSoFar {
            transfers: Vec::new(alloc),
            streams,
            scheduled,
            sources: Vec::new(alloc),
            held: Vec::new(alloc),
            excluded: Vec::new(alloc),
        })
    }

    /// Whether the round has reached its limit of transfers.
    pub fn is_full(&self, config: &Config, topology: &Topology) -> bool
        ensures { result ≡ nat_le (config.now.work * map.len topology.now.cluster.nodes)
            (length self.now.transfers.items) }
    {
        is_full_count(self.transfers.len(), config, topology)
    }

    /// Begins a wish: the storages that may be the source.
    pub fn begin_sources(&mut self, wish: &Wish) -> Result<(), Refusal>
        ensures sources { OnOk result (self.new.sources.items ≡ choices.sources_by wish.now) }
        ensures transfers { self.new.transfers ≡ self.old.transfers }
        ensures streams { self.new.streams ≡ self.old.streams }
        ensures scheduled { self.new.scheduled ≡ self.old.scheduled }
        ensures refused { IfErr result (λ e. e ≡ Memory) }
    {
        let live = wish.live.as_slice();
        refill(&mut self.sources, live, wish.drained.as_slice())
    }

    /// Fills `held` and `excluded` for a wish whose block has no chosen transfer yet.
    pub fn begin_targets(&mut self, wish: &Wish) -> Result<(), Refusal>
        ensures held { OnOk result (self.new.held.items ≡ wish.now.live ++ wish.now.pending) }
        ensures excluded { OnOk result (self.new.excluded.items ≡ wish.now.pairs ++ wish.now.pending) }
        ensures sources { self.new.sources ≡ self.old.sources }
        ensures transfers { self.new.transfers ≡ self.old.transfers }
        ensures streams { self.new.streams ≡ self.old.streams }
        ensures scheduled { self.new.scheduled ≡ self.old.scheduled }
        ensures refused { IfErr result (λ e. e ≡ Memory) }
    {
        let pending = wish.pending.as_slice();
        refill(&mut self.held, wish.live.as_slice(), pending)?;
        refill(&mut self.excluded, wish.pairs.as_slice(), pending)
    }

    /// Adds a transfer for the current wish. Its node may send one more, and its length fits.
    pub fn add(&mut self, transfer: Transfer) -> Result<(), Refusal>
        requires countable { IsCountable self.old.streams transfer.source }
        requires fits { HasFreeBytesFor self.old.scheduled transfer.stamp.len transfer.target }
        ensures transfers { OnOk result (self.new.transfers.items ≡ self.old.transfers.items
            ++ transfer ∷ []) }
        ensures sources { self.new.sources ≡ self.old.sources }
        ensures held { OnOk result (self.new.held.items ≡ self.old.held.items
            ++ transfer.target ∷ []) }
        ensures excluded { OnOk result (self.new.excluded.items ≡ self.old.excluded.items
            ++ transfer.target ∷ []) }
        ensures counted { (C : Cluster) → IsCounted C self.old
            → OnOk result (IsCounted C self.new) }
        ensures refused { IfErr result (λ e. e ≡ Memory) }
    {
        let target = transfer.target;
        let source = transfer.source;
        let len = transfer.stamp.len;
        self.transfers.push(transfer)?;
        self.held.push(target)?;
        self.excluded.push(target)?;
        self.streams.add(source);
        self.scheduled.add(target, len);
        Ok(())
    }
}

/// Replaces the elements of a list by those of two others. Its capacity stays.
fn refill(
    list: &mut Vec<StorageId>,
    first: &[StorageId],
    second: &[StorageId],
) -> Result<(), Refusal>
    ensures items { OnOk result (list.new.items ≡ first.now ++ second.now) }
    ensures refused { IfErr result (λ e. e ≡ Memory) }
{
    list.clear();
    list.extend_from_slice(first)?;
    list.extend_from_slice(second)?;
    Ok(())
}

/// Whether a round with `count` transfers is full.
pub(crate) fn is_full_count(count: usize, config: &Config, topology: &Topology) -> bool
    ensures { result ≡ nat_le (config.now.work * map.len topology.now.cluster.nodes) count }
{
    let most = u64::from(config.work) * u64::from(topology.alive_nodes());
    most <= count as u64
}
