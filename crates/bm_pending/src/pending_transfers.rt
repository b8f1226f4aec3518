// The pending transfers: the fields, what a contract sees of them, and the calls.
ghost use Rattle.std.specs.Prelude.{◌≡◌, ◌≢◌, ◌≤◌, ◌<◌, ◌+◌, ◌++◌, [], length, ℕ, not, ◌==◌, if◌then◌else◌, OnOk, OnErr, IfOk, IfErr, IsOk, IsSome, true, nat_eq, slice_get, vec_len, vec_capacity};
ghost use Rattle.bm_base.specs.Words.{IsDistinct, replica_at, has, is_expired};
ghost use Rattle.bm_base.specs.declared.refusal.Refusal.TheVariants.{Memory};
ghost use Rattle.bm_base.specs.declared.replica.ReplicaId.{ReplicaId};
ghost use Rattle.bm_pending.specs.PendingMap.{capacity, blocks_in, targets_of, expired_of};
ghost use Rattle.bm_base.specs.Maps.Map as map;
ghost use Rattle.bm_pending.specs.RemainingTargets as remaining;

use crate::by_block::{
    Blocks, drop_block, drop_expired_targets, drop_pending, drop_targets_on, find_target,
    list_targets, put_target, release_unused, reserve_targets,
};
use crate::remaining_targets::{count_remaining_among, remaining_among};
use crate::transfer_lists::{list_expired, push_storages};
use bm_base::{BlockId, HashSecret, Refusal, ReplicaId, StorageId, StorageIds};
use indexmap::IndexMap;
use std::alloc::Global;
use std::marker::Model;

/// The pending transfers, by block.
///
/// A contract sees a map from block and target storage to the round of the command, and for each
/// block how many more of its transfers need no memory. Only `reserve`, `reserve_own` and the calls
/// that return a list take memory. A call on one block costs one hash and a scan of its few
/// targets; `reserve` of a new block may cost more. A block whose last transfer is removed keeps
/// its capacity until `release_unused`, which is to be called at the end of each round.
#[derive(Drop)]
pub struct PendingTransfers {
    pub(crate) by_block: Blocks,
    pub(crate) alloc: Global,
}

impl Model for PendingTransfers {
    ghost use Rattle.bm_pending.specs.PendingMap.{PendingMap};
    ghost use Rattle.bm_pending.specs.Inside.{map_of, capacities_of, IsPending};

    ghost Value = { PendingMap };

    ghost view = { λ p. record {
      map = map_of p.by_block.entries;
      capacities = capacities_of p.by_block.entries;
    } };

    ghost invariant = { λ p. IsPending p.by_block.entries };
}

impl PendingTransfers {
    /// No transfer, and no capacity, in a table that hashes by this secret. Takes no memory.
    pub fn new(alloc: Global, secret: HashSecret) -> Self
        ensures map { result.map ≡ map.empty }
        ensures capacity { (block : ℕ) → capacity result block ≡ 0 }
    {
        PendingTransfers {
            by_block: IndexMap::with_hasher(alloc, secret),
            alloc,
        }
    }

    /// Reserves capacity for `additional` more transfers of a block. May answer `Memory`, but not
    /// if `additional` is positive and there is capacity already.
    pub fn reserve(&mut self, block: BlockId, additional: usize) -> Result<(), Refusal>
        ensures map { self.new.map ≡ self.old.map }
        ensures capacity { OnOk result (additional ≤ capacity self.new block) }
        ensures capacities { (other : ℕ) → capacity self.old other ≤ capacity self.new other }
        ensures succeeds { 0 < additional → additional ≤ capacity self.old block → IsOk result }
        ensures refused { IfErr result (λ e. e ≡ Memory) }
    {
        reserve_targets(&mut self.by_block, self.alloc, block.0, additional)
    }

    /// Sets the round of a transfer. Takes no memory.
    pub fn insert_reserved(&mut self, block: BlockId, storage: StorageId, round: u64)
        requires { 0 < capacity self.old block }
        ensures map { self.new.map ≡ map.insert self.old.map (replica_at block storage) round }
        ensures capacities { (other : ℕ)
            → capacity self.old other
            ≤ capacity self.new other + (if other == block then 1 else 0) }
    {
        put_target(&mut self.by_block, block.0, storage.0, round);
    }

    /// Removes a transfer, if it exists. Takes no memory.
    pub fn remove(&mut self, block: BlockId, storage: StorageId)
        ensures map { self.new.map ≡ map.remove self.old.map (replica_at block storage) }
        ensures places { blocks_in self.new ≡ blocks_in self.old }
        ensures capacities { (other : ℕ) → capacity self.old other ≤ capacity self.new other }
    {
        drop_pending(&mut self.by_block, block.0, storage.0);
    }

    /// Removes the transfers of a block, and releases its capacity. Takes no memory.
    pub fn remove_block(&mut self, block: BlockId)
        ensures map { self.new.map ≡ map.keep self.old.map (λ q _. not (q.block == block)) }
        ensures capacities { (other : ℕ)
            → capacity self.new other ≡ (if other == block then 0 else capacity self.old other) }
    {
        drop_block(&mut self.by_block, block.0);
    }

    /// Removes the transfers that were commanded `pend` rounds ago or earlier, in one pass over the
    /// blocks. Takes no memory.
    pub fn drop_expired(&mut self, pend: u32, round: u64)
        ensures map { self.new.map ≡ map.keep self.old.map (λ _ t. not (is_expired pend round t)) }
        ensures capacities { (other : ℕ) → capacity self.old other ≤ capacity self.new other }
    {
        drop_expired_targets(&mut self.by_block, pend, round);
    }

    /// Removes the transfers to these storages, in one pass over the blocks, each target compared
    /// with each storage. Takes no memory.
    pub fn drop_storages(&mut self, storages: &[StorageId])
        ensures map { self.new.map
            ≡ map.keep self.old.map (λ q _. not (has storages.now q.storage)) }
        ensures capacities { (other : ℕ) → capacity self.old other ≤ capacity self.new other }
    {
        drop_targets_on(&mut self.by_block, storages);
    }

    /// Releases the capacity of the blocks without a transfer, in one pass over the blocks. Takes
    /// no memory.
    pub fn release_unused(&mut self)
        ensures map { self.new.map ≡ self.old.map }
        ensures kept { (block : ℕ) → targets_of self.old block ≢ []
            → capacity self.new block ≡ capacity self.old block }
        ensures freed { (block : ℕ) → targets_of self.old block ≡ [] → capacity self.new block ≡ 0 }
    {
        release_unused(&mut self.by_block);
    }

    /// Whether a transfer is on its way.
    pub fn contains(&self, block: BlockId, storage: StorageId) -> bool
        ensures { result ≡ map.contains_key self.now.map (replica_at block storage) }
    {
        find_target(&self.by_block, block.0, storage.0).is_some()
    }

    /// How many transfers of a block are on their way.
    pub fn count_of(&self, block: BlockId) -> usize
        ensures { result ≡ length (targets_of self.now block) }
    {
        list_targets(&self.by_block, block.0).len()
    }

    /// The number of blocks with capacity or a transfer: `block_at` has one at each index below.
    pub fn count(&self) -> usize
        ensures { result ≡ length (blocks_in self.now) }
    {
        self.by_block.len()
    }

    /// The block at an index, from 0 on; `None` from `count()` on. `remove` changes no index, so a
    /// caller can remove transfers while it iterates.
    pub fn block_at(&self, index: usize) -> Option<BlockId>
        ensures { result ≡ slice_get (blocks_in self.now) index }
    {
        match self.by_block.get_index(index) {
            Some((block, _)) => Some(BlockId(*block)),
            None => None,
        }
    }

    /// For proofs alone: the block of each transfer has an index, and no block has two. Does
    /// nothing.
    pub fn show_invariant(&self)
        ensures listed { (q : ReplicaId) → IsSome (map.get self.now.map q)
            → has (blocks_in self.now) q.block ≡ true }
        ensures once { IsDistinct nat_eq (blocks_in self.now) }
    {
        // For proofs alone: each block occurs once.
        let _ = self.by_block.len();
    }

    /// Appends the targets of a block's transfers, ascending. On `Memory` nothing is appended.
    pub fn push_targets(&self, block: BlockId, into: &mut Vec<StorageId>) -> Result<(), Refusal>
        ensures items { OnOk result (into.new.items ≡ into.old.items ++ targets_of self.now block) }
        ensures succeeds { vec_len into.old + length (targets_of self.now block) ≤ vec_capacity
            into.old → IsOk result }
        ensures unchanged { OnErr result (into.new.items ≡ into.old.items) }
        ensures refused { IfErr result (λ e. e ≡ Memory) }
    {
        push_storages(list_targets(&self.by_block, block.0), into)
    }

    /// The targets of the transfers of a block that `drop_expired` keeps, ascending. May answer
    /// `Memory`, but not for up to four.
    pub fn remaining_targets(
        &self,
        alloc: Global,
        block: BlockId,
        pend: u32,
        round: u64,
    ) -> Result<StorageIds, Refusal>
        ensures targets { IfOk result (λ v. v ≡ remaining.remaining_targets pend round self.now block) }
        ensures refused { IfErr result (λ e. e ≡ Memory) }
    {
        let left = remaining_among(alloc, list_targets(&self.by_block, block.0), pend, round)?;
        Ok(left)
    }

    /// The number of transfers of a block that `drop_expired` keeps. Takes no memory.
    pub fn count_remaining(&self, block: BlockId, pend: u32, round: u64) -> usize
        ensures { result ≡ length (remaining.remaining_targets pend round self.now block) }
    {
        count_remaining_among(list_targets(&self.by_block, block.0), pend, round)
    }

    /// The transfers that `drop_expired` removes, by block and then by target. May answer `Memory`.
    pub fn expired_transfers(
        &self,
        alloc: Global,
        pend: u32,
        round: u64,
    ) -> Result<Vec<ReplicaId>, Refusal>
        ensures items { IfOk result (λ v. v.items ≡ expired_of pend round self.now.map) }
        ensures refused { IfErr result (λ e. e ≡ Memory) }
    {
        list_expired(&self.by_block, alloc, pend, round)
    }
}
