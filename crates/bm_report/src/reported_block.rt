// One block that a report or a notice names: capacity for it, its marks, and entering it. A node
// keeps one replica of a block, so a new replica replaces the one on a sibling storage.
ghost use Rattle.std.specs.Prelude.{◌≡◌, ◌≢◌, ◌+◌, ◌∷◌, [], ℕ, if◌then◌else◌, true, false, None, Some, IsSome, IfSome, IfNone, IfErr, IsOk, OnOk};
ghost use Rattle.bm_base.specs.Words.{insert, len, replica_at};
ghost use Rattle.bm_base.specs.declared.refusal.Refusal.TheVariants.{Memory};
ghost use Rattle.bm_maps.specs.SlotLists.{without};
ghost use Rattle.bm_arena.specs.Contents.{block_at, slot_of, marks_at, saturating_next, HasHead, HasCapacity};
ghost use Rattle.bm_arena.specs.HeldMaps.{replicas_of};
ghost use Rattle.bm_report.specs.DuringReport.{behind, entered_at, KeepsRest, IsOncePerNode, saturating_sum, IsEntered, IsCounted, FitsCounters, IsAlreadyThere};
ghost use Rattle.bm_report.specs.ReportedBlocks.{IsPrepared};
ghost use Rattle.bm_report.specs.DuringReport as during_report;
ghost use Rattle.bm_base.specs.Machine.Replicas as replicas;

use crate::report_counts::ReportCounts;
use crate::types::ReportedSlot;
use bm_arena::{Arena, Slot};
use bm_base::{BlockInfo, Marks, NodeId, Refusal, Stamp, StorageId, Tag};
use bm_topo::Topology;

/// Adds or moves one reported block, given its present marks there. Returns whether its replicas or
/// marks changed.
pub(crate) fn add_reported(
    arena: &mut Arena,
    topology: &Topology,
    storage: StorageId,
    named: &ReportedSlot,
    was: Option<Marks>,
    tally: &mut ReportCounts,
) -> bool
    requires here { slot_of arena.old named.now.id ≡ Some named.now.slot }
    requires was { was ≡ marks_at arena.old named.now.slot storage }
    requires head { HasHead arena.old storage }
    requires capacity { marks_at arena.old named.now.slot storage ≡ None
        → HasCapacity arena.old named.now.slot }
    requires once { IsOncePerNode topology.now.cluster (replicas_of arena.old) }
    requires small { FitsCounters tally.old 1 }
    ensures entered { IsEntered topology.now.cluster storage (named.now ∷ []) arena.old arena.new }
    ensures counted { IsCounted topology.now.cluster storage (named.now ∷ []) arena.old arena.new
        tally.old tally.new }
    ensures same { result ≡ false → arena.new.blocks ≡ arena.old.blocks }
    ensures no_change { IsAlreadyThere arena.old storage named.now → result ≡ false }
    ensures others { (slot : ℕ) → slot ≢ named.now.slot
        → block_at arena.new slot ≡ block_at arena.old slot }
{
    let marks = marks_during_report(arena.info(named.slot), was, &named.stamp);
    let is_excess_good = is_excess_good(marks);
    match was {
        Some(was) => {
            tally.count_move(is_excess_good);
            move_known(arena, named, storage, was, marks)
        }
        None => {
            let left_sibling = link_new(arena, topology, named, storage, marks);
            tally.count_link(left_sibling, is_excess_good);
            true
        }
    }
}

/// Moves a block that is on the storage to the head of its list and sets its marks. Returns whether
/// they changed.
fn move_known(
    arena: &mut Arena,
    named: &ReportedSlot,
    storage: StorageId,
    was: Marks,
    marks: Marks,
) -> bool
    requires here { slot_of arena.old named.now.id ≡ Some named.now.slot }
    requires was { marks_at arena.old named.now.slot storage ≡ Some was }
    ensures replicas { replicas_of arena.new
        ≡ insert (replicas_of arena.old) (replica_at named.now.id storage) marks }
    ensures behind { behind arena.new storage ≡ without named.now.slot (behind arena.old storage) }
    ensures frame { KeepsRest storage arena.old arena.new }
    ensures same { result ≡ false → arena.new.blocks ≡ arena.old.blocks }
    ensures no_change { marks ≡ was → result ≡ false }
    ensures others { (slot : ℕ) → slot ≢ named.now.slot
        → block_at arena.new slot ≡ block_at arena.old slot }
    ensures steps { arena.new.steps ≡ saturating_next arena.old.steps }
{
    arena.show_invariant();
    arena.move_front(named.slot, storage);
    if marks.is_same(was) {
        return false;
    }
    arena.set_marks(named.slot, storage, marks);
    true
}

/// Links a new block at the head of the storage's list, and unlinks it from another storage of the
/// node. Returns whether it was on one.
pub(crate) fn link_new(
    arena: &mut Arena,
    topology: &Topology,
    named: &ReportedSlot,
    storage: StorageId,
    marks: Marks,
) -> bool
    requires here { slot_of arena.old named.now.id ≡ Some named.now.slot }
    requires absent { marks_at arena.old named.now.slot storage ≡ None }
    requires head { HasHead arena.old storage }
    requires capacity { HasCapacity arena.old named.now.slot }
    requires once { IsOncePerNode topology.now.cluster (replicas_of arena.old) }
    ensures replicas { replicas_of arena.new ≡ entered_at topology.now.cluster
        (replicas_of arena.old) (replica_at named.now.id storage) marks }
    ensures behind { behind arena.new storage ≡ without named.now.slot (behind arena.old storage) }
    ensures frame { KeepsRest storage arena.old arena.new }
    ensures others { (slot : ℕ) → slot ≢ named.now.slot
        → block_at arena.new slot ≡ block_at arena.old slot }
    ensures removed { (if result then 1 else 0) + len (replicas_of arena.new)
        ≡ len (replicas_of arena.old) + 1 }
    ensures steps { arena.new.steps ≡ saturating_sum (if result then 2 else 1) arena.old.steps }
{
    arena.show_invariant();
    let sibling = sibling_of(arena, topology, named.slot, storage);
    arena.link_front(named.slot, storage, marks);
    match sibling {
        Some(sibling) => {
            arena.unlink(named.slot, sibling);
            true
        }
        None => false,
    }
}

/// The marks of a reported replica while the report runs: `excess` means that it was in excess
/// before.
pub(crate) fn marks_during_report(
    info: Option<BlockInfo>,
    was: Option<Marks>,
    stamp: &Stamp,
) -> Marks
    ensures { result ≡ during_report.marks_during_report info was stamp.now }
{
    let (was_bad, was_excess) = match was {
        Some(marks) => (marks.tag.is_bad(), marks.excess),
        None => (false, false),
    };
    Marks {
        tag: reported_tag(info, was_bad, stamp),
        excess: was_excess,
        ordered: false,
    }
}

fn reported_tag(info: Option<BlockInfo>, was_bad: bool, stamp: &Stamp) -> Tag
    ensures { result ≡ during_report.reported_tag info was_bad stamp.now }
{
    match info {
        None => Tag::Stray,
        Some(info) => {
            if was_bad {
                Tag::Bad
            } else if *stamp == info.stamp {
                Tag::Good
            } else {
                Tag::Stale
            }
        }
    }
}

/// False for the marks of a replica that is in excess although it is not good.
pub(crate) fn is_excess_good(marks: Marks) -> bool
    ensures { result ≡ during_report.is_excess_good marks }
{
    !(marks.excess && !marks.tag.is_good())
}

/// The marks after the report: only a good replica stays in excess.
pub(crate) fn without_invalid_excess(marks: Marks) -> Marks
    ensures { result ≡ during_report.without_invalid_excess marks }
{
    Marks {
        tag: marks.tag,
        excess: marks.tag.is_good() && marks.excess,
        ordered: marks.ordered,
    }
}

/// Whether `other` is another storage of the node that `storage` is on.
#[inline]
#[tactic(auto, unfolding(bm_base::specs::Machine::Replicas::are_siblings))]
fn is_sibling(topology: &Topology, node: NodeId, storage: StorageId, other: StorageId) -> bool
    requires { replicas.node_of topology.now.cluster storage ≡ Some node }
    ensures { result ≡ replicas.are_siblings topology.now.cluster storage other }
{
    other != storage && topology.has_storage(node, other)
}

/// Another storage of the node on which the block in `slot` has a replica.
fn sibling_of(
    arena: &Arena,
    topology: &Topology,
    slot: Slot,
    storage: StorageId,
) -> Option<StorageId>
    ensures found { IfSome result (λ t. IsSome (marks_at arena.now slot t)
        × (replicas.are_siblings topology.now.cluster storage t ≡ true)) }
    ensures none { IfNone result ((t : ℕ)
        → replicas.are_siblings topology.now.cluster storage t ≡ true
        → marks_at arena.now slot t ≡ None) }
{
    let Some((_, triplets)) = arena.block(slot) else {
        return None;
    };
    if triplets.is_empty() {
        return None;
    }
    let Some(node) = topology.node_of(storage) else {
        return None;
    };
    for triplet in triplets {
        let other = triplet.replica().0;
        if is_sibling(topology, node, storage, other) {
            return Some(other);
        }
    }
    None
}

/// Reserves capacity for a replica on the storage, unless the block has one there.
pub(crate) fn reserve_replica(
    arena: &mut Arena,
    slot: Slot,
    storage: StorageId,
) -> Result<(), Refusal>
    requires held { IsSome (block_at arena.old slot) }
    ensures kept { IsPrepared arena.old arena.new }
    ensures capacity { OnOk result (marks_at arena.new slot storage ≡ None
        → HasCapacity arena.new slot) }
    ensures there { IsSome (marks_at arena.old slot storage)
        → IsOk result × (arena.new ≡ arena.old) }
    ensures numbers { (b : ℕ) → slot_of arena.new b ≡ slot_of arena.old b }
    ensures refused { IfErr result (λ e. e ≡ Memory) }
{
    if arena.has_capacity(slot) {
        return Ok(());
    }
    if arena.marks(slot, storage).is_some() {
        return Ok(());
    }
    arena.reserve_triplet(slot)
}
