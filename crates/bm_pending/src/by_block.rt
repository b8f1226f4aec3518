// The map of blocks to their targets: changes and look-ups. The targets of a block are strictly
// ascending storages, each with the round of its command.
ghost use Rattle.std.specs.Prelude.{◌≡◌, ◌≢◌, ◌≤◌, ◌<◌, ◌+◌, ℕ, [], not, ◌==◌, nat_eq, filter, cond, OnOk, IfErr, IsOk, T};
ghost use Rattle.bm_base.specs.Words.{nat_cmp, keys_of, has, is_expired};
ghost use Rattle.bm_base.specs.declared.refusal.Refusal.TheVariants.{Memory};
ghost use Rattle.bm_pending.specs.Inside.{targets_at, capacity_at};
ghost use Rattle.smallvec.specs.SmallVec.{HasRoomFor};
ghost use Rattle.std.specs.FinMap as list;

use bm_base::{HashSecret, Refusal, StorageId};
use bm_maps::sorted_entries::{find, key_index};
use indexmap::IndexMap;
use smallvec::SmallVec;
use std::alloc::Global;
use std::cmp::Ordering;

/// Each block with its targets, strictly ascending, and the rounds of their commands.
pub(crate) type Blocks = IndexMap<u64, PendingTargets, HashSecret>;

/// Reserves capacity for `additional` more targets of a block.
pub(crate) fn reserve_targets(
    blocks: &mut Blocks,
    alloc: Global,
    block: u64,
    additional: usize,
) -> Result<(), Refusal>
    ensures targets { (q : ℕ) → targets_at blocks.new.entries q ≡ targets_at blocks.old.entries q }
    ensures capacity { OnOk result (additional ≤ capacity_at blocks.new.entries block) }
    ensures capacities { (q : ℕ)
        → capacity_at blocks.old.entries q ≤ capacity_at blocks.new.entries q }
    ensures succeeds { 0 < additional → additional ≤ capacity_at blocks.old.entries block
        → IsOk result }
    ensures refused { IfErr result (λ e. e ≡ Memory) }
{
    match blocks.get_mut(&block) {
        Some(targets) => targets.reserve(additional)?,
        None => {
            let mut targets = SmallVec::new(alloc);
            targets.reserve(additional)?;
            blocks.insert(block, targets)?;
        }
    }
    Ok(())
}

/// Sets the round of a target of a block.
pub(crate) fn put_target(blocks: &mut Blocks, block: u64, storage: u32, round: u64)
    requires sorted { (q : ℕ) → T (list.is_sorted nat_cmp (targets_at blocks.old.entries q)) }
    requires capacity { 0 < capacity_at blocks.old.entries block }
    ensures targets { (q : ℕ)
        → targets_at blocks.new.entries q
        ≡ cond (nat_eq block q) (list.put nat_cmp storage round (targets_at blocks.old.entries q))
        (targets_at blocks.old.entries q) }
    ensures capacities { (q : ℕ)
        → capacity_at blocks.old.entries q
        ≤ capacity_at blocks.new.entries q + cond (nat_eq block q) 1 0 }
{
    if let Some(targets) = blocks.get_mut(&block) {
        put(targets, storage, round);
    }
}

/// Removes a target of a block.
pub(crate) fn drop_pending(blocks: &mut Blocks, block: u64, storage: u32)
    ensures keys { keys_of blocks.new.entries ≡ keys_of blocks.old.entries }
    ensures targets { (q : ℕ)
        → targets_at blocks.new.entries q
        ≡ cond (nat_eq block q) (filter
        (λ t. not (t.0 == storage)) (targets_at blocks.old.entries q))
        (targets_at blocks.old.entries q) }
    ensures capacities { (q : ℕ)
        → capacity_at blocks.old.entries q ≤ capacity_at blocks.new.entries q }
{
    if let Some(targets) = blocks.get_mut(&block) {
        drop_target(targets, storage);
    }
}

/// Removes a block.
pub(crate) fn drop_block(blocks: &mut Blocks, block: u64)
    ensures targets { (q : ℕ)
        → targets_at blocks.new.entries q
        ≡ cond (nat_eq block q) [] (targets_at blocks.old.entries q) }
    ensures capacities { (q : ℕ)
        → capacity_at blocks.new.entries q
        ≡ cond (nat_eq block q) 0 (capacity_at blocks.old.entries q) }
{
    blocks.swap_remove(&block);
}

/// Removes the expired transfers of all blocks.
pub(crate) fn drop_expired_targets(blocks: &mut Blocks, pend: u32, round: u64)
    ensures targets { (q : ℕ)
        → targets_at blocks.new.entries q
        ≡ filter (λ t. not (is_expired pend round t.1)) (targets_at blocks.old.entries q) }
    ensures capacities { (q : ℕ)
        → capacity_at blocks.old.entries q ≤ capacity_at blocks.new.entries q }
{
    blocks.retain(|_, targets| {
        drop_expired(targets, pend, round);
        true
    });
}

/// Removes the transfers to these storages.
pub(crate) fn drop_targets_on(blocks: &mut Blocks, storages: &[StorageId])
    ensures targets { (q : ℕ)
        → targets_at blocks.new.entries q
        ≡ filter (λ t. not (has storages.now t.0)) (targets_at blocks.old.entries q) }
    ensures capacities { (q : ℕ)
        → capacity_at blocks.old.entries q ≤ capacity_at blocks.new.entries q }
{
    blocks.retain(|_, targets| {
        drop_storages(targets, storages);
        true
    });
}

/// Removes the blocks without a target.
pub(crate) fn release_unused(blocks: &mut Blocks)
    ensures targets { (q : ℕ) → targets_at blocks.new.entries q ≡ targets_at blocks.old.entries q }
    ensures kept { (q : ℕ) → targets_at blocks.old.entries q ≢ []
        → capacity_at blocks.new.entries q ≡ capacity_at blocks.old.entries q }
    ensures freed { (q : ℕ) → targets_at blocks.old.entries q ≡ []
        → capacity_at blocks.new.entries q ≡ 0 }
{
    // For proofs alone: each block occurs once.
    let _ = blocks.iter();
    blocks.retain(|_, targets| !targets.is_empty());
}

/// The targets of a block.
pub(crate) fn list_targets(blocks: &Blocks, block: u64) -> &[(u32, u64)]
    ensures { result.now ≡ targets_at blocks.now.entries block }
{
    match blocks.get(&block) {
        Some(targets) => targets.as_slice(),
        None => &[],
    }
}

/// The round of a target of a block.
pub(crate) fn find_target(blocks: &Blocks, block: u64, storage: u32) -> Option<u64>
    requires { (q : ℕ) → T (list.is_sorted nat_cmp (targets_at blocks.now.entries q)) }
    ensures { result ≡ list.find nat_cmp storage (targets_at blocks.now.entries block) }
{
    find(list_targets(blocks, block), &storage)
}

/// Two targets are stored inline, as most blocks have no more; a third takes an allocation.
type PendingTargets = SmallVec<(u32, u64), 2>;

/// Sets the round of a storage. Takes no memory.
fn put(targets: &mut PendingTargets, storage: u32, round: u64)
    requires sorted { T (list.is_sorted nat_cmp targets.old.items) }
    requires capacity { HasRoomFor targets.old 1 }
    ensures items { targets.new.items ≡ list.put nat_cmp storage round targets.old.items }
    ensures capacity { targets.new.capacity ≡ targets.old.capacity }
{
    let at = key_index(targets.as_slice(), &storage);
    if at < targets.len() {
        match storage.cmp(&targets.as_slice()[at].0) {
            Ordering::Equal => {
                targets.as_mut_slice()[at].1 = round;
                return;
            }
            _ => {}
        }
    }
    match targets.insert(at, (storage, round)) {
        Ok(()) => {}
        Err(_) => unreachable!(),
    }
}

/// Removes the transfer to a storage.
fn drop_target(targets: &mut PendingTargets, storage: u32)
    ensures items { targets.new.items ≡ filter (λ t. not (t.0 == storage)) targets.old.items }
    ensures capacity { targets.new.capacity ≡ targets.old.capacity }
{
    targets.retain(|target| target.0 != storage);
}

/// Whether a transfer that was commanded in round `commanded` is expired in this round.
pub(crate) fn is_expired(commanded: u64, pend: u32, round: u64) -> bool
    ensures { result ≡ is_expired pend round commanded }
{
    u64::from(pend) <= round.saturating_sub(commanded)
}

/// Removes the expired transfers.
fn drop_expired(targets: &mut PendingTargets, pend: u32, round: u64)
    ensures { targets.new
        ≡ record targets.old {
          items = filter
              (λ t. not (is_expired pend round t.1)) targets.old.items;
        } }
{
    targets.retain(|target| !is_expired(target.1, pend, round));
}

/// Removes the transfers to these storages.
fn drop_storages(targets: &mut PendingTargets, storages: &[StorageId])
    ensures { targets.new
        ≡ record targets.old {
          items = filter
              (λ t. not (has storages.now t.0)) targets.old.items;
        } }
{
    targets.retain(|target| !storages.contains(&StorageId(target.0)));
}
