// The classification of one block: its replicas are counted one after another, on the cluster as it
// is after an event.
ghost use Rattle.std.specs.Prelude.{◌≡◌, length, map, true, ◌<◌, ◌-◌, ◌^◌, None, false, option_map};
ghost use Rattle.bm_base.specs.Words.{option_map_or};
ghost use Rattle.bm_arena.specs.Contents.{block_at};
ghost use Rattle.bm_arena.specs.Triplets.{triplet_view};
ghost use Rattle.bm_levels.specs.ReplicaCounts.{IsCountOf};
ghost use Rattle.bm_levels.specs.ClusterAfter.{rack_after, drains_after, level_after};
ghost use Rattle.bm_levels.specs.Status as status;
ghost use Rattle.bm_levels.specs.ReplicaCounts as counted;
ghost use Rattle.bm_base.specs.Machine.Replicas as replicas;

use bm_arena::{Arena, Slot, Triplet};
use bm_base::{Level, Marks, NodeId, Rack, StorageId, level_of};
use bm_topo::{Spot, Topology};

/// The status of a block: what is stored with its slot.
#[derive(Clone, Copy, Debug, PartialEq, Eq)]
pub(crate) struct BlockStatus {
    /// How urgently it needs replicas.
    pub level: Option<Level>,
    /// Whether a round need not scan it for marks or deletes.
    pub is_settled: bool,
}

/// Whether two statuses are equal.
pub(crate) fn are_equal(a: BlockStatus, b: BlockStatus) -> bool
    ensures { result ≡ true → a ≡ b }
{
    a == b
}

/// Classifies the block at a slot, given the number of its replicas. Scans each replica once, or
/// only the first ones if they decide.
pub(crate) fn classify(
    arena: &Arena,
    slot: Slot,
    replicas: usize,
    cluster_after: &ClusterAfter<'_>,
) -> BlockStatus
    requires { replicas ≡ option_map_or (λ b. length b.replicas) (block_at arena.now slot) 0 }
    ensures level { result.level ≡ level_after cluster_after.now (block_at arena.now slot) }
    ensures settled { result.is_settled ≡ status.is_settled_at (block_at arena.now slot) }
{
    let Some((info, triplets)) = arena.block(slot) else {
        return BlockStatus {
            level: None,
            is_settled: true,
        };
    };
    let Some(info) = info else {
        return BlockStatus {
            level: None,
            is_settled: count(cluster_after, triplets, triplets.len()).is_good_and_unmarked,
        };
    };
    let wanted = info.repl as usize;
    let count = count(cluster_after, triplets, wanted);
    BlockStatus {
        level: level_of(
            count.live,
            count.drained,
            info.repl,
            count.racks(),
            cluster_after.multi,
        ),
        is_settled: count.is_good_and_unmarked && replicas <= wanted,
    }
}

/// Counts the replicas of a block. If it has more than are wanted, it stops when the wanted number
/// is live on two racks. The block has no level then and is unsettled, whatever the other replicas
/// are.
fn count(cluster_after: &ClusterAfter<'_>, triplets: &[Triplet], wanted: usize) -> ReplicaCount
    ensures { IsCountOf (rack_after cluster_after.now) (drains_after cluster_after.now) wanted
        (map triplet_view triplets.now) result }
{
    let may_stop = triplets.len() > wanted;
    let mut count = ReplicaCount::none();
    for triplet in triplets {
        let (storage, marks) = triplet.replica();
        count.add(cluster_after, storage, marks);
        if may_stop && count.live >= wanted && count.is_spread {
            return count;
        }
    }
    count
}

/// The counts of a block's replicas, as far as they were scanned.
#[derive(Clone, Copy)]
struct ReplicaCount {
    pub live: usize,
    pub drained: usize,
    /// The rack of the first live replica that has one.
    pub first: Option<Rack>,
    /// Whether another rack came after it.
    pub is_spread: bool,
    /// All are good, not in excess and not ordered to be deleted.
    pub is_good_and_unmarked: bool,
}

impl ReplicaCount {
    fn none() -> ReplicaCount
        ensures { result ≡ counted.none }
    {
        ReplicaCount {
            live: 0,
            drained: 0,
            first: None,
            is_spread: false,
            is_good_and_unmarked: true,
        }
    }

    /// Counts one more replica.
    #[inline]
    #[tactic(auto, unfolding(crate::specs::ReplicaCounts::count_replica))]
    fn add(&mut self, cluster_after: &ClusterAfter<'_>, storage: StorageId, marks: Marks)
        requires live { self.old.live < 2 ^ 64 - 1 }
        requires drained { self.old.drained < 2 ^ 64 - 1 }
        ensures { self.new ≡ counted.count_replica (rack_after cluster_after.now) (drains_after cluster_after.now)
            self.old storage marks }
    {
        self.is_good_and_unmarked = self.is_good_and_unmarked && is_good_and_unmarked(marks);
        if !marks.is_usable() {
            return;
        }
        let Some(spot) = cluster_after.spot_of(storage) else {
            self.live += 1;
            return;
        };
        if spot.drains {
            self.drained += 1;
            return;
        }
        self.live += 1;
        self.add_rack(spot.rack);
    }

    /// Counts the rack of a live replica.
    #[tactic(auto, unfolding(crate::specs::ReplicaCounts::count_rack))]
    fn add_rack(&mut self, rack: Rack)
        ensures { self.new ≡ counted.count_rack self.old rack }
    {
        match self.first {
            None => self.first = Some(rack),
            Some(first) => self.is_spread = self.is_spread || rack != first,
        }
    }

    /// The number of racks of the live ones: none, one, or two for more.
    #[tactic(auto, unfolding(crate::specs::ReplicaCounts::racks_of))]
    fn racks(&self) -> usize
        ensures { result ≡ counted.racks_of self.now }
    {
        if self.is_spread {
            2
        } else {
            usize::from(self.first.is_some())
        }
    }
}

/// Whether a replica is good, not in excess and not ordered to be deleted.
pub(crate) fn is_good_and_unmarked(marks: Marks) -> bool
    ensures { result ≡ status.is_good_and_unmarked marks }
{
    marks.is_usable() && !marks.ordered
}

/// A node that begins or ceases to drain.
#[derive(Clone, Copy)]
pub(crate) struct DrainChange {
    pub node: NodeId,
    /// Whether it drains from now on.
    pub drains: bool,
}

/// The cluster after an event: the one before, with what the event changes for the remaining
/// replicas.
#[derive(Clone, Copy)]
pub(crate) struct ClusterAfter<'a> {
    /// The cluster before the event.
    pub topology: &'a Topology,
    /// The node whose draining the event changes.
    pub drain_change: Option<DrainChange>,
    /// Whether the alive nodes are on two racks or more after it.
    pub multi: bool,
}

impl<'a> ClusterAfter<'a> {
    /// The unchanged cluster.
    pub(crate) fn unchanged(topology: &'a Topology) -> ClusterAfter<'a>
        ensures topology { result.topology.now ≡ topology.now }
        ensures drain_change { result.drain_change ≡ None }
        ensures multi { result.multi ≡ replicas.is_multi_rack topology.now.cluster }
    {
        ClusterAfter {
            topology,
            drain_change: None,
            multi: topology.multi_rack(),
        }
    }

    /// The rack of a storage, and whether its node drains; `None` for an unknown storage.
    #[inline]
    #[tactic(auto, unfolding(crate::specs::Status::drains_after_change, bm_base::specs::Machine::Replicas::is_draining))]
    fn spot_of(&self, storage: StorageId) -> Option<Spot>
        ensures rack { option_map (λ p. p.rack) result ≡ rack_after self.now storage }
        ensures drains { option_map_or (λ p. p.drains) result false ≡ drains_after self.now storage }
    {
        let spot = self.topology.spot_of(storage);
        let Some(drain_change) = self.drain_change else {
            return spot;
        };
        match spot {
            Some(spot) if spot.node == drain_change.node => Some(Spot {
                drains: drain_change.drains,
                ..spot
            }),
            _ => spot,
        }
    }
}
