// Rounds on a shard: its part is found and prepared, then committed or given up.
ghost use Rattle.std.specs.Prelude.{◌≡◌, ◌<◌, ◌+◌, ◌^◌, IfOk, IfErr, OnOk};
ghost use Rattle.bm_base.specs.declared.refusal.Refusal.TheVariants.{Memory};
ghost use Rattle.bm_base.specs.RoundParts.{round_on_part};
ghost use Rattle.bm_parts.specs.BoundedWishes.{part_before};
ghost use Rattle.bm_shard.specs.ShardView.{IsReadyForRound};
ghost use Rattle.bm_shard.specs.UnusedEntries.{HasNoUnused, HasNoUnusedCapacity};
ghost use Rattle.bm_shard.specs.UpToDate.{IsUpToDate, IsSameButCapacity, next_part};

use crate::own_transfers::insert_own;
use crate::shard::{PreparedEvent, Shard};
use bm_base::{Chosen, Refusal, RoundPart};
use bm_parts::sort_key::Key;
use bm_round_scan::{find_round, likely_bound};
use bm_topo::Topology;

impl Shard {
    /// Finds the shard's part as its next round begins: expired transfers, surplus replicas,
    /// wishes, and the replicas to be deleted, each list sorted. Scans the transfers, the blocks of
    /// levels 0 to 3 and the unsettled ones, and no others; blocks that wait for an ordered delete
    /// are scanned until it is reported. `Memory`.
    pub fn round_part(&self, round: u64, topology: &Topology) -> Result<RoundPart, Refusal>
        requires next { round ≡ self.now.round + 1 }
        requires up_to_date { IsUpToDate topology.now.cluster self.now }
        ensures part { IfOk result (λ p. p ≡ next_part topology.now.cluster self.now) }
        ensures refused { IfErr result (λ e. e ≡ Memory) }
    {
        self.round_part_before(round, topology, None)
    }

    /// As [`Shard::round_part`], but only with the wishes before a bound, if there is one, by level
    /// and block. Other settled blocks are not scanned.
    pub fn round_part_before(
        &self,
        round: u64,
        topology: &Topology,
        bound: Option<Key>,
    ) -> Result<RoundPart, Refusal>
        requires next { round ≡ self.now.round + 1 }
        requires up_to_date { IsUpToDate topology.now.cluster self.now }
        ensures part { IfOk result
            (λ p. p ≡ part_before bound (next_part topology.now.cluster self.now)) }
        ensures refused { IfErr result (λ e. e ≡ Memory) }
    {
        self.blocks.show_invariant();
        self.blocks.arena().show_invariant();
        find_round(
            self.alloc,
            &self.blocks,
            &self.pending,
            topology,
            self.pend,
            round,
            bound,
        )
    }

    /// A bound before which about `most` blocks have wishes; `None` if fewer do. Only a guess, from
    /// about `samples` samples: nothing but the time of a round may depend on it. `Memory`.
    pub fn likely_bound(&self, most: usize, samples: usize) -> Result<Option<Key>, Refusal>
        ensures refused { IfErr result (λ e. e ≡ Memory) }
    {
        let bound = likely_bound(self.alloc, &self.blocks, &self.pending, most, samples)?;
        Ok(bound)
    }

    /// Takes the memory that [`Shard::round_commit`] needs. A contract sees no other change, if the
    /// shard is up to date in some cluster. `Memory`.
    pub fn round_ready(
        &mut self,
        part: &RoundPart,
        chosen: &Chosen,
        topology: &Topology,
    ) -> Result<(), Refusal>
        ensures ready { OnOk result (IsReadyForRound chosen.now self.new) }
        ensures same { IsSameButCapacity self.old self.new }
        ensures entries { self.new.reserved.entries ≡ self.old.reserved.entries }
        ensures refused { IfErr result (λ e. e ≡ Memory) }
    {
        let _ = part;
        let _ = topology;
        self.pending
            .reserve_own(chosen.transfers.as_slice(), self.part)
    }

    /// Takes the shard's next round; `chosen` is the choice from the parts of all shards. Expired
    /// transfers leave, excess is marked again from scratch, the shard's own chosen deletes are
    /// ordered and its own chosen transfers become pending. Every shard takes every round, also one
    /// in which nothing was chosen. Reservations for an event are dropped. Takes no memory.
    pub fn round_commit(&mut self, part: &RoundPart, chosen: &Chosen, topology: &Topology)
        requires up_to_date { IsUpToDate topology.now.cluster self.old }
        requires part { part.now.excess ≡ (next_part topology.now.cluster self.old).excess }
        requires ready { IsReadyForRound chosen.now self.old }
        requires counted { self.old.round + 1 < 2 ^ 64 }
        ensures holdings { self.new.holdings
            ≡ round_on_part topology.now.cluster self.old.pend (self.old.round + 1)
            self.old.holdings self.old.part.index self.old.part.shards chosen.now.transfers
            chosen.now.deletes }
        ensures up_to_date { IsUpToDate topology.now.cluster self.new }
        ensures part { self.new.part ≡ self.old.part }
        ensures rounds { (self.new.round ≡ self.old.round + 1) × (self.new.pend ≡ self.old.pend) }
        ensures unused { HasNoUnused self.new }
    {
        self.abort();
        self.take_round(part, chosen, topology);
    }

    /// Takes the shard's next round, with nothing prepared.
    fn take_round(&mut self, part: &RoundPart, chosen: &Chosen, topology: &Topology)
        requires up_to_date { IsUpToDate topology.now.cluster self.old }
        requires part { part.now.excess ≡ (next_part topology.now.cluster self.old).excess }
        requires ready { IsReadyForRound chosen.now self.old }
        requires counted { self.old.round + 1 < 2 ^ 64 }
        requires none { HasNoUnused self.old }
        ensures holdings { self.new.holdings
            ≡ round_on_part topology.now.cluster self.old.pend (self.old.round + 1)
            self.old.holdings self.old.part.index self.old.part.shards chosen.now.transfers
            chosen.now.deletes }
        ensures up_to_date { IsUpToDate topology.now.cluster self.new }
        ensures part { self.new.part ≡ self.old.part }
        ensures rounds { (self.new.round ≡ self.old.round + 1) × (self.new.pend ≡ self.old.pend) }
        ensures unused { HasNoUnused self.new }
    {
        let round = self.round + 1;
        self.prepared = PreparedEvent::Nothing;
        self.blocks.show_invariant();
        self.blocks.arena().show_invariant();
        self.pending.drop_expired(self.pend, round);
        self.blocks.remark_excess(topology, part.excess.as_slice());
        self.blocks
            .mark_ordered(topology, chosen.deletes.as_slice(), self.part);
        self.blocks.arena().show_invariant();
        insert_own(
            &mut self.pending,
            chosen.transfers.as_slice(),
            self.part,
            round,
        );
        self.pending.release_unused();
        self.round = round;
    }

    /// Releases what was reserved for a round. A contract sees no change but of capacity, if the
    /// shard is up to date in some cluster. Takes no memory.
    pub fn round_abort(&mut self)
        ensures same { IsSameButCapacity self.old self.new }
        ensures entries { self.new.reserved.entries ≡ self.old.reserved.entries }
        ensures freed { HasNoUnusedCapacity self.new }
    {
        self.pending.release_unused();
    }
}
