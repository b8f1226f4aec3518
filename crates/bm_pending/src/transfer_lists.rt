// Transfers as lists: those of a block, and all that are expired, in order.
ghost use Rattle.std.specs.Prelude.{◌≡◌, ◌≤◌, ◌+◌, ℕ, [], false, nat_eq, map, length, ◌++◌, OnOk, OnErr, IfOk, IfErr, IsOk, T, vec_len, vec_capacity};
ghost use Rattle.bm_base.specs.Words.{nat_cmp, list_any, IsDistinct, IsNonDecreasing, replica_at, is_expired};
ghost use Rattle.bm_base.specs.declared.refusal.Refusal.TheVariants.{Memory};
ghost use Rattle.bm_pending.specs.PendingMap.{expired_of};
ghost use Rattle.bm_pending.specs.Inside.{targets_at, expired_among, map_of};
ghost use Rattle.std.specs.FinMap as list;

use crate::by_block::{Blocks, is_expired, list_targets};
use bm_base::{BlockId, Refusal, ReplicaId, StorageId};
use std::alloc::Global;

/// Appends the storages. An `Err` changes nothing.
pub(crate) fn push_storages(
    targets: &[(u32, u64)],
    into: &mut Vec<StorageId>,
) -> Result<(), Refusal>
    ensures items { OnOk result (into.new.items ≡ into.old.items ++ map (λ t. t.0) targets.now) }
    ensures succeeds { vec_len into.old + length targets.now ≤ vec_capacity into.old → IsOk result }
    ensures unchanged { OnErr result (into.new.items ≡ into.old.items) }
    ensures refused { IfErr result (λ e. e ≡ Memory) }
{
    into.reserve(targets.len())?;
    for target in targets {
        into.push_reserved(StorageId(target.0));
    }
    Ok(())
}

fn replica_id(block: u64, storage: u32) -> ReplicaId
    ensures { result ≡ replica_at block storage }
{
    ReplicaId {
        block: BlockId(block),
        storage: StorageId(storage),
    }
}

/// Whether some transfer of a block is expired.
fn has_expired(targets: &[(u32, u64)], pend: u32, round: u64) -> bool
    ensures { result ≡ list_any (λ t. is_expired pend round t.1) targets.now }
{
    targets
        .iter()
        .any(|target| is_expired(target.1, pend, round))
}

/// The numbers of the blocks with an expired transfer, ascending.
fn list_expiring_blocks(
    blocks: &Blocks,
    alloc: Global,
    pend: u32,
    round: u64,
) -> Result<Vec<u64>, Refusal>
    ensures ascending { IfOk result (λ v. IsNonDecreasing v.items) }
    ensures distinct { IfOk result (λ v. IsDistinct nat_eq v.items) }
    ensures absent { IfOk result (λ v. (b : ℕ) → list_any (nat_eq b) v.items ≡ false
        → expired_among pend round (targets_at blocks.now.entries b) ≡ []) }
    ensures refused { IfErr result (λ e. e ≡ Memory) }
{
    let mut numbers = Vec::new(alloc);
    for (block, targets) in blocks.iter() {
        if has_expired(targets.as_slice(), pend, round) {
            numbers.push(*block)?;
        }
    }
    numbers.sort()?;
    Ok(numbers)
}

/// Appends the expired transfers of a block.
fn push_expired(
    targets: &[(u32, u64)],
    block: u64,
    pend: u32,
    round: u64,
    into: &mut Vec<ReplicaId>,
) -> Result<(), Refusal>
    ensures items { OnOk result (into.new.items ≡ into.old.items
        ++ map (λ t. replica_at block t.0) (expired_among pend round targets.now)) }
    ensures refused { IfErr result (λ e. e ≡ Memory) }
{
    for target in targets {
        if is_expired(target.1, pend, round) {
            into.push(replica_id(block, target.0))?;
        }
    }
    Ok(())
}

/// All expired transfers, by block and then by storage.
pub(crate) fn list_expired(
    blocks: &Blocks,
    alloc: Global,
    pend: u32,
    round: u64,
) -> Result<Vec<ReplicaId>, Refusal>
    requires { (q : ℕ) → T (list.is_sorted nat_cmp (targets_at blocks.now.entries q)) }
    ensures items { IfOk result (λ v. v.items ≡ expired_of pend round (map_of blocks.now.entries)) }
    ensures refused { IfErr result (λ e. e ≡ Memory) }
{
    let numbers = list_expiring_blocks(blocks, alloc, pend, round)?;
    let mut all = Vec::new(alloc);
    for block in &numbers {
        push_expired(list_targets(blocks, *block), *block, pend, round, &mut all)?;
    }
    Ok(all)
}
