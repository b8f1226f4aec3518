// The checks of an event on the cluster, in their order.
ghost use Rattle.std.specs.Prelude.{◌≡◌, ◌+◌, ◌-◌, ◌||◌, not, nat_le, nat_lt, length, Some, None, OnOk, if◌then◌else◌};
ghost use Rattle.bm_base.specs.Words.{list_any, IsNonDecreasing, first_of, cluster_checks, knows_node, knows_storage, is_too_long, run_length, checked};
ghost use Rattle.bm_base.specs.Maps.Map as map;
ghost use Rattle.bm_base.specs.Maps.Lists as lists;
ghost use Rattle.bm_base.specs.Machine.Replicas as replicas;
ghost use Rattle.bm_base.specs.declared.event.Event.TheVariants as event;

use crate::topology::Topology;
use bm_base::{
    Entry, Event, MAX_ENTRIES, MAX_NUMBERS, NodeId, Rack, Refusal, Remaining, StorageId,
};

/// In a list up to this length each storage is compared with those after it.
const COMPARE_AT_MOST: usize = 256;

/// How many storages of a longer list are put in order at a time, on the stack.
const SORT_AT_MOST: usize = 32_768;

impl Topology {
    /// Whether a storage is named twice, or known.
    fn names_taken_storage(&self, storages: &[StorageId]) -> bool
        ensures { result ≡ (lists.has_repeats storages.now
            || list_any (knows_storage self.now.cluster) storages.now) }
    {
        if has_repeats(storages) {
            return true;
        }
        self.knows_any(storages)
    }

    fn knows_any(&self, storages: &[StorageId]) -> bool
        ensures { result ≡ list_any (knows_storage self.now.cluster) storages.now }
    {
        storages.iter().any(|s| self.knows_storage(*s))
    }

    /// Whether one more node with these storages would exceed the limits.
    fn is_full(&self, storages: &[StorageId]) -> bool
        ensures { result ≡ (nat_le self.now.cluster.limits.nodes (map.len self.now.cluster.nodes)
            || nat_lt self.now.cluster.limits.storages
            (map.len self.now.cluster.storages + length storages.now)) }
    {
        if self.nodes.len() >= self.limits.nodes as usize {
            return true;
        }
        self.storages.len() as u128 + storages.len() as u128 > self.limits.storages as u128
    }

    fn names_unknown_storage(&self, remaining: &[Remaining]) -> bool
        ensures { result ≡ list_any
            (λ r. not (knows_storage self.now.cluster r.storage)) remaining.now }
    {
        remaining.iter().any(|r| !self.knows_storage(r.storage))
    }

    /// Whether some listed storage is not the node's; an unknown storage is not.
    fn names_foreign_storage(&self, node: NodeId, remaining: &[Remaining]) -> bool
        ensures { result ≡ list_any
            (λ r. not (replicas.has_storage self.now.cluster node r.storage)) remaining.now }
    {
        remaining.iter().any(|r| !self.has_storage(node, r.storage))
    }

    #[tactic(auto, unfolding(bm_base::specs::Machine::Refusals::cluster_checks))]
    fn check_register(
        &self,
        node: NodeId,
        rack: Rack,
        storages: &[StorageId],
    ) -> Result<(), Refusal>
        ensures { result ≡ checked
            (first_of (cluster_checks self.now.cluster (event.Register node rack storages.now))) }
    {
        if self.knows_node(node) {
            return Err(Refusal::NodeKnown);
        }
        if self.names_taken_storage(storages) {
            return Err(Refusal::StorageKnown);
        }
        if self.is_full(storages) {
            return Err(Refusal::TooMany);
        }
        Ok(())
    }

    #[tactic(auto, unfolding(bm_base::specs::Machine::Refusals::cluster_checks))]
    fn check_heartbeat(&self, node: NodeId, remaining: &[Remaining]) -> Result<(), Refusal>
        ensures { result ≡ checked
            (first_of (cluster_checks self.now.cluster (event.Heartbeat node remaining.now))) }
    {
        if !self.knows_node(node) {
            return Err(Refusal::UnknownNode);
        }
        // An unknown storage is foreign too: if none is foreign, one pass over the list is enough.
        if !self.names_foreign_storage(node, remaining) {
            return Ok(());
        }
        if self.names_unknown_storage(remaining) {
            return Err(Refusal::UnknownStorage);
        }
        Err(Refusal::NotItsStorage)
    }

    fn check_node(&self, node: NodeId) -> Result<(), Refusal>
        ensures { result ≡ (if knows_node self.now.cluster node then Ok tt
            else Err Refusal.UnknownNode) }
    {
        let is_known = self.knows_node(node);
        if is_known {
            Ok(())
        } else {
            Err(Refusal::UnknownNode)
        }
    }

    fn check_storage(&self, storage: StorageId) -> Result<(), Refusal>
        ensures { result ≡ (if knows_storage self.now.cluster storage then Ok tt
            else Err Refusal.UnknownStorage) }
    {
        if self.knows_storage(storage) {
            Ok(())
        } else {
            Err(Refusal::UnknownStorage)
        }
    }

    /// The first check of an event on the cluster that fails: `UnknownNode`, `NodeKnown`,
    /// `UnknownStorage`, `StorageKnown`, `TooMany`, `NotItsStorage`, as the event's variant names
    /// them. Takes no memory.
    #[tactic(auto, unfolding(bm_base::specs::Machine::Refusals::cluster_checks))]
    pub fn check(&self, event: &Event) -> Result<(), Refusal>
        ensures refusal { result ≡ checked (first_of (cluster_checks self.now.cluster event.now)) }
        ensures accepted { OnOk result (first_of (cluster_checks self.now.cluster event.now)
            ≡ None) }
    {
        match event {
            Event::Register {
                node,
                rack,
                storages,
            } => self.check_register(*node, *rack, storages.as_slice()),
            Event::Heartbeat { node, remaining } => {
                self.check_heartbeat(*node, remaining.as_slice())
            }
            Event::Dead { node } => self.check_node(*node),
            Event::Drain { node } => self.check_node(*node),
            Event::Undrain { node } => self.check_node(*node),
            Event::StorageFailed { storage } => self.check_storage(*storage),
            Event::Received { storage, .. } => self.check_storage(*storage),
            Event::Deleted { storage, .. } => self.check_storage(*storage),
            Event::Corrupt { storage, .. } => self.check_storage(*storage),
            Event::FullReport { storage, entries } => {
                if !self.knows_storage(*storage) {
                    return Err(Refusal::UnknownStorage);
                }
                if is_too_long(entries.as_slice()) {
                    return Err(Refusal::TooMany);
                }
                Ok(())
            }
            Event::AddBlock { .. }
            | Event::DeleteBlock { .. }
            | Event::SetReplication { .. }
            | Event::Restamp { .. } => Ok(()),
        }
    }

    #[tactic(auto, unfolding(bm_base::specs::Machine::Refusals::knows_node))]
    fn knows_node(&self, node: NodeId) -> bool
        ensures { result ≡ knows_node self.now.cluster node }
    {
        self.rack_of_node(node).is_some()
    }
}

/// Whether a list has duplicates. A long list is not compared pairwise, which would take quadratic
/// time. Takes no memory.
fn has_repeats(storages: &[StorageId]) -> bool
    ensures { result ≡ lists.has_repeats storages.now }
{
    if storages.len() <= COMPARE_AT_MOST {
        has_repeats_among_few(storages)
    } else {
        has_repeats_among_many(storages)
    }
}

fn has_repeats_among_few(storages: &[StorageId]) -> bool
    ensures { result ≡ lists.has_repeats storages.now }
{
    let mut rest = storages;
    while let Some((first, others)) = rest.split_first() {
        if others.contains(first) {
            return true;
        }
        rest = others;
    }
    false
}

/// Sorts one part of the list after another, and searches each sorted part for the storages after
/// it. Not inlined: else each check of an event would touch this function's large stack frame.
#[inline(never)]
fn has_repeats_among_many(storages: &[StorageId]) -> bool
    ensures { result ≡ lists.has_repeats storages.now }
{
    let mut ordered = [StorageId(0); SORT_AT_MOST];
    let mut rest = storages;
    while !rest.is_empty() {
        let (part, others) = rest.split_at(rest.len().min(SORT_AT_MOST));
        if repeats_any(part, others, &mut ordered[..part.len()]) {
            return true;
        }
        rest = others;
    }
    false
}

/// Whether a storage occurs twice in `part`, or both in `part` and in `others`.
fn repeats_any(part: &[StorageId], others: &[StorageId], ordered: &mut [StorageId]) -> bool
    requires { length ordered.old ≡ length part.now }
    ensures { result ≡ (lists.has_repeats part.now || list_any (lists.has part.now) others.now) }
{
    ordered.copy_from_slice(part);
    ordered.sort_unstable();
    has_equal_neighbours(ordered) || shares_any(ordered, others)
}

fn has_equal_neighbours(ordered: &[StorageId]) -> bool
    requires { IsNonDecreasing ordered.now }
    ensures { result ≡ lists.has_repeats ordered.now }
{
    for later in 1..ordered.len() {
        if ordered[later - 1] == ordered[later] {
            return true;
        }
    }
    false
}

fn shares_any(ordered: &[StorageId], others: &[StorageId]) -> bool
    requires { IsNonDecreasing ordered.now }
    ensures { result ≡ list_any (lists.has ordered.now) others.now }
{
    others
        .iter()
        .any(|storage| contains_sorted(ordered, *storage))
}

fn contains_sorted(ordered: &[StorageId], storage: StorageId) -> bool
    requires { IsNonDecreasing ordered.now }
    ensures { result ≡ lists.has ordered.now storage }
{
    ordered.binary_search(&storage).is_ok()
}

/// How many of `left` block numbers a report may still name after an entry; `None` if the entry
/// itself names more than `left`.
fn numbers_left(entry: &Entry, left: u64) -> Option<u64>
    ensures { result ≡ (if nat_le (run_length entry.now) left then Some (left
        - run_length entry.now) else None) }
{
    if entry.from.0 > entry.to.0 {
        return Some(left);
    }
    match left.checked_sub(entry.to.0 - entry.from.0) {
        Some(rest) => rest.checked_sub(1),
        None => None,
    }
}

/// Whether a report has too many entries, or names too many numbers.
#[tactic(auto, unfolding(bm_base::specs::Machine::Refusals::is_too_long, bm_base::specs::Machine::Entries::numbers_in))]
fn is_too_long(entries: &[Entry]) -> bool
    ensures { result ≡ is_too_long entries.now }
{
    if entries.len() > MAX_ENTRIES {
        return true;
    }
    let mut left = MAX_NUMBERS;
    for entry in entries {
        match numbers_left(entry, left) {
            Some(rest) => left = rest,
            None => return true,
        }
    }
    false
}
