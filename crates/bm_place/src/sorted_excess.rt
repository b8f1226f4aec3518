// The choice of excess: the live replicas are sorted, and then one pass chooses.
ghost use Rattle.std.specs.Prelude.{◌≡◌, ◌+◌, ◌-◌, ◌++◌, ◌&&◌, if◌then◌else◌, false, nat_lt, take, ℕ, List, OnOk, IfOk};
ghost use Rattle.bm_base.specs.Words.{option_map_or, IsPermutation, IsSorted, Cluster};
ghost use Rattle.bm_place.specs.ReplicaSpread.{is_rack};
ghost use Rattle.bm_base.specs.Machine.RoundStart as round_start;
ghost use Rattle.bm_base.specs.Maps.Map as map;
ghost use Rattle.bm_place.specs.Holders as looked_up;
ghost use Rattle.bm_place.specs.SortedExcess as pass;
ghost use Rattle.bm_place.specs.Tables as tables;

use crate::holders::Holder;
use bm_base::{Rack, StorageId};
use bm_maps::NumberMap;
use std::alloc::AllocError;

/// Sorts the live replicas by the order of choice within a class: first one on whose storage fewer
/// bytes remain, then the greater storage. Takes no memory.
pub(crate) fn sort_holders(holders: &mut Vec<Holder>)
    ensures moved { IsPermutation holders.old.items holders.new.items }
    ensures in_order { IsSorted pass.cmp_in_class holders.new.items }
{
    holders.sort_unstable_by(|one, other| {
        one.remaining
            .cmp(&other.remaining)
            .then(other.storage.cmp(&one.storage))
    });
}

/// Counts the live replicas on each rack. The old counts are dropped.
pub(crate) fn count_racks(
    counts: &mut NumberMap<usize>,
    holders: &[Holder],
) -> Result<(), AllocError>
    ensures { OnOk result ((r : ℕ) →
        tables.count_at counts.new.map r ≡ looked_up.count_among holders.now r) }
{
    clear(counts);
    for holder in holders {
        let Some(rack) = holder.rack else {
            continue;
        };
        let count = count_on(counts, rack);
        counts.insert(u64::from(rack.0), count + 1)?;
    }
    Ok(())
}

/// Takes all counts out, and keeps the memory.
fn clear(counts: &mut NumberMap<usize>)
    ensures { counts.new.map ≡ map.empty }
{
    counts.retain(|_| false);
}

#[tactic(auto, unfolding(crate::specs::Tables::count_at))]
fn count_on(counts: &NumberMap<usize>, rack: Rack) -> usize
    ensures { result ≡ tables.count_at counts.now.map rack }
{
    match counts.get(u64::from(rack.0)) {
        Some(count) => count,
        None => 0,
    }
}

/// Appends `surplus` of these storages, which are sorted with their racks counted, in the order of
/// choice. Iterates once. `kept` is scratch space.
pub(crate) fn push_in_order(
    into: &mut Vec<StorageId>,
    kept: &mut Vec<StorageId>,
    racks: &mut NumberMap<usize>,
    holders: &[Holder],
    surplus: usize,
) -> Result<(), AllocError>
    ensures { OnOk result ((C : Cluster) (ss : List ℕ) →
        pass.AreReady C ss holders.now racks.old.map
        → into.new.items ≡ into.old.items ++ round_start.excess_among C surplus ss) }
{
    let more = push_from_shared_racks(into, kept, racks, holders, surplus)?;
    kept.truncate(more);
    into.extend_from_slice(kept)
}

/// Iterates over these storages in order. One whose rack counts more than one is chosen, and the
/// rack then counts one fewer; each other is kept. Ends as soon as enough are chosen. Returns how
/// many are still to be chosen: these are the first kept ones, since a rack that counts one never
/// counts more later.
fn push_from_shared_racks(
    into: &mut Vec<StorageId>,
    kept: &mut Vec<StorageId>,
    racks: &mut NumberMap<usize>,
    holders: &[Holder],
    surplus: usize,
) -> Result<usize, AllocError>
    ensures { IfOk result (λ more. (C : Cluster) (ss : List ℕ) →
        pass.AreReady C ss holders.now racks.old.map
        → into.new.items ++ take more kept.new.items
        ≡ into.old.items ++ round_start.excess_among C surplus ss) }
{
    kept.clear();
    let mut more = surplus;
    for holder in holders {
        if more == 0 {
            return Ok(0);
        }
        if take_one_if_shared(racks, holder.rack) {
            into.push(holder.storage)?;
            more -= 1;
        } else {
            kept.push(holder.storage)?;
        }
    }
    Ok(more)
}

/// Whether a rack counts more than one; false without a rack. If so, its count falls by one.
fn take_one_if_shared(racks: &mut NumberMap<usize>, rack: Option<Rack>) -> bool
    ensures more { result
        ≡ option_map_or (λ r. nat_lt 1 (tables.count_at racks.old.map r)) rack false }
    ensures lowered { (r : ℕ) → tables.count_at racks.new.map r
        + (if result && is_rack r rack then 1 else 0) ≡ tables.count_at racks.old.map r }
{
    match rack {
        Some(rack) if count_on(racks, rack) > 1 => {
            reduce_count(racks, rack, 1);
            true
        }
        _ => false,
    }
}

/// Counts `gone` fewer on a rack.
fn reduce_count(counts: &mut NumberMap<usize>, rack: Rack, gone: usize)
    ensures { counts.new.map ≡ map.revise_at counts.old.map rack (λ n. n - gone) }
{
    if let Some(count) = counts.get(u64::from(rack.0)) {
        counts.replace(u64::from(rack.0), count.saturating_sub(gone));
    }
}
