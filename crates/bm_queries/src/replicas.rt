// Lists of replicas.
ghost use Rattle.std.specs.Prelude.{◌≡◌, ◌++◌, ℕ, IsSome, IfOk, IfErr, OnOk, map};
ghost use Rattle.bm_base.specs.Words.{Map, by_replica};
ghost use Rattle.bm_base.specs.declared.refusal.Refusal.TheVariants.{Memory};
ghost use Rattle.bm_arena.specs.Contents.{block_at};
ghost use Rattle.bm_parts.specs.QueryLaws.{replica_key};
ghost use Rattle.bm_levels.specs.SlotHoldings.{holdings_with};
ghost use Rattle.bm_queries.specs.ListedElements.{wants, listed_at, replicas_passing};

use bm_arena::{Arena, Slot};
use bm_base::{Marks, Refusal, Replica, ReplicaId};
use bm_levels::LeveledBlocks;
use std::alloc::{AllocError, Global};

/// The replicas that a query lists.
#[derive(Clone, Copy, Debug)]
pub enum ReplicaFilter {
    All,
    /// Stale and bad replicas.
    Corrupt,
    /// Replicas in excess.
    Excess,
}

fn wants(wanted: ReplicaFilter, marks: Marks) -> bool
    ensures { result ≡ wants wanted marks }
{
    match wanted {
        ReplicaFilter::All => true,
        ReplicaFilter::Corrupt => marks.tag.is_corrupt(),
        ReplicaFilter::Excess => marks.excess,
    }
}

/// Appends the replicas at a slot that are of the given kind.
fn push_replicas(
    arena: &Arena,
    slot: Slot,
    wanted: ReplicaFilter,
    into: &mut Vec<Replica>,
) -> Result<(), Refusal>
    requires { IsSome (block_at arena.now slot) }
    ensures items { OnOk result (into.new.items ≡ into.old.items
        ++ listed_at (wants wanted) (block_at arena.now slot)) }
    ensures refused { IfErr result (λ e. e ≡ Memory) }
{
    let block = arena.id_of(slot);
    for index in 0..arena.triplet_count(slot) {
        if let Some((storage, marks)) = arena.triplet_at(slot, index) {
            if wants(wanted, marks) {
                into.push(Replica {
                    block,
                    storage,
                    tag: marks.tag,
                })?;
            }
        }
    }
    Ok(())
}

/// The block and the storage of a replica.
pub fn replica_key(replica: &Replica) -> ReplicaId
    ensures { result ≡ replica_key replica.now }
{
    ReplicaId {
        block: replica.block,
        storage: replica.storage,
    }
}

/// The blocks and storages of these replicas.
pub fn replica_keys(alloc: Global, replicas: &[Replica]) -> Result<Vec<ReplicaId>, AllocError>
    ensures { IfOk result (λ v. v.items ≡ map replica_key replicas.now) }
{
    let mut keys = Vec::with_capacity(alloc, replicas.len())?;
    for replica in replicas {
        keys.push(replica_key(replica))?;
    }
    Ok(keys)
}

/// The replicas of the given kind, by block and storage. May answer `Memory`.
#[tactic(auto, unfolding(bm_levels::specs::SlotHoldings::holdings_with))]
pub fn list_replicas(
    alloc: Global,
    blocks: &LeveledBlocks,
    wanted: ReplicaFilter,
) -> Result<Vec<Replica>, Refusal>
    ensures items { (pending : Map by_replica ℕ) → IfOk result
        (λ v. v.items
        ≡ replicas_passing (wants wanted) (holdings_with blocks.now.arena pending).replicas) }
    ensures refused { IfErr result (λ e. e ≡ Memory) }
{
    let arena = blocks.arena();
    arena.show_invariant();
    let mut all = Vec::new(alloc);
    for index in 0..arena.count() {
        if let Some(slot) = arena.slot_at(index) {
            push_replicas(arena, slot, wanted, &mut all)?;
        }
    }
    all.sort_by_key(|replica| replica_key(replica))?;
    Ok(all)
}
