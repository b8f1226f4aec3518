// Which replicas of a block are in excess.
ghost use Rattle.std.specs.Prelude.{◌≡◌, ◌++◌, ◌≤◌, false, length, IsOk, IfOk, IfErr, OnOk};
ghost use Rattle.bm_base.specs.Words.{has_repeats};
ghost use Rattle.bm_base.specs.declared.refusal.Refusal.TheVariants.{Memory};
ghost use Rattle.bm_base.specs.Machine.RoundStart as round_start;

use crate::holders::{Holder, fill_holders};
use crate::sorted_excess::{count_racks, push_in_order, sort_holders};
use bm_base::{Refusal, StorageId};
use bm_maps::NumberMap;
use bm_topo::Topology;
use std::alloc::{AllocError, Global};

/// Scratch buffers for the choice of excess, used again from block to block.
#[derive(Drop)]
pub struct ExcessScratch {
    /// The live replicas, looked up, in order.
    holders: Vec<Holder>,
    /// The replicas that were alone on their rack when the pass reached them.
    kept: Vec<StorageId>,
    /// For each rack, the number of its replicas that are not chosen yet.
    racks: NumberMap<usize>,
}

impl ExcessScratch {
    /// Empty buffers. Takes no memory.
    pub fn new(alloc: Global) -> ExcessScratch {
        ExcessScratch {
            holders: Vec::new(alloc),
            kept: Vec::new(alloc),
            racks: NumberMap::new(alloc),
        }
    }
}

/// The storages of a block's live replicas that are in excess if `repl` are wanted, in the order of
/// choice. They are chosen one after another: first one whose rack holds another remaining one,
/// then one on whose storage fewer bytes remain, then the greater storage. An unknown storage has
/// no rack and no remaining bytes. `live` names each storage once.
///
/// Each replica is looked up once. They are sorted, their racks are counted, and one pass chooses:
/// O(n log n) steps for n of them. If none is in excess it takes no memory; else `Memory` if a list
/// cannot grow.
pub fn excess_of(
    alloc: Global,
    live: &[StorageId],
    repl: u32,
    topology: &Topology,
) -> Result<Vec<StorageId>, Refusal>
    ensures chosen { IfOk result (λ v. has_repeats live.now ≡ false
        → v.items ≡ round_start.excess_of topology.now.cluster live.now repl) }
    ensures enough { length live.now ≤ repl → IsOk result }
    ensures refused { IfErr result (λ e. e ≡ Memory) }
{
    let mut chosen = Vec::new(alloc);
    let mut scratch = ExcessScratch::new(alloc);
    fill_excess(&mut chosen, &mut scratch, live, repl, topology)?;
    Ok(chosen)
}

/// Replaces the contents of `into` by what [`excess_of`] returns, in the same steps. `scratch` may
/// have been used for any block before.
///
/// It takes memory only if some are in excess, and then only if `into` or a list of `scratch` grows
/// past its capacity. `Memory` if such a growth is refused; then the contents of `into` are
/// unspecified.
pub fn fill_excess(
    into: &mut Vec<StorageId>,
    scratch: &mut ExcessScratch,
    live: &[StorageId],
    repl: u32,
    topology: &Topology,
) -> Result<(), Refusal>
    ensures chosen { OnOk result (has_repeats live.now ≡ false
        → into.new.items ≡ round_start.excess_of topology.now.cluster live.now repl) }
    ensures enough { length live.now ≤ repl → IsOk result }
    ensures refused { IfErr result (λ e. e ≡ Memory) }
{
    into.clear();
    let surplus = live.len().saturating_sub(repl as usize);
    if surplus == 0 {
        return Ok(());
    }
    Ok(push_by_sorting(into, scratch, live, surplus, topology)?)
}

/// Appends the `surplus` first of these storages in the order of choice: sorts them and iterates
/// once.
fn push_by_sorting(
    into: &mut Vec<StorageId>,
    scratch: &mut ExcessScratch,
    live: &[StorageId],
    surplus: usize,
    topology: &Topology,
) -> Result<(), AllocError>
    ensures { OnOk result (has_repeats live.now ≡ false → into.new.items ≡ into.old.items
        ++ round_start.excess_among topology.now.cluster surplus live.now) }
{
    fill_holders(&mut scratch.holders, live, topology)?;
    sort_holders(&mut scratch.holders);
    count_racks(&mut scratch.racks, &scratch.holders)?;
    push_in_order(
        into,
        &mut scratch.kept,
        &mut scratch.racks,
        &scratch.holders,
        surplus,
    )
}
