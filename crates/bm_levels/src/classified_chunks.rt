// Many blocks reclassified, a chunk at a time, so that cache misses overlap.
ghost use Rattle.std.specs.Prelude.{◌≡◌, ◌<◌, ◌≤◌, ℕ, length, slice_get, slice_index_or, Some, true};
ghost use Rattle.bm_base.specs.Words.{option_map_or};
ghost use Rattle.bm_arena.specs.Contents.{block_at};
ghost use Rattle.bm_levels.specs.IndexedLevels.{HasCapacityForEach, KeepsCapacity, HaveStatuses, IsSameOutside};
ghost use Rattle.bm_levels.specs.ClusterAfter.{AreStatusesAfter, AreClassifiedAfter};

use crate::classification::{BlockStatus, ClusterAfter, are_equal, classify};
use crate::level_index::LevelIndex;
use bm_arena::{Arena, Slot};

/// The number of blocks in a chunk.
pub(crate) const CHUNK: usize = 64;

/// Fills unused elements.
const NOT_CLASSIFIED: BlockStatus = BlockStatus {
    level: None,
    is_settled: true,
};

/// The numbers of replicas of the blocks of a chunk. A read is so short that many cache misses
/// overlap; a classification is too long for that, and then finds the blocks' entries in the cache.
fn read_counts_ahead(arena: &Arena, chunk: &[Slot]) -> [usize; CHUNK]
    requires { length chunk.now ≤ 64 }
    ensures { (i slot : ℕ) → slice_get chunk.now i ≡ Some slot
        → slice_index_or result i 0
        ≡ option_map_or (λ b. length b.replicas) (block_at arena.now slot) 0 }
{
    let mut counts = [0; CHUNK];
    for (index, slot) in chunk.iter().enumerate() {
        counts[index] = arena.triplet_count(*slot);
    }
    counts
}

/// Classifies the blocks at the slots of a chunk.
fn classify_chunk(
    arena: &Arena,
    chunk: &[Slot],
    cluster_after: &ClusterAfter<'_>,
) -> [BlockStatus; CHUNK]
    requires { length chunk.now ≤ 64 }
    ensures { AreStatusesAfter cluster_after.now arena.now chunk.now result }
{
    let counts = read_counts_ahead(arena, chunk);
    let mut status = [NOT_CLASSIFIED; CHUNK];
    for (index, slot) in chunk.iter().enumerate() {
        status[index] = classify(arena, *slot, counts[index], cluster_after);
    }
    status
}

impl LevelIndex {
    /// Reclassifies the blocks at these slots.
    pub(crate) fn classify_all(
        &mut self,
        arena: &Arena,
        slots: &[Slot],
        cluster_after: &ClusterAfter<'_>,
    )
        requires capacity { HasCapacityForEach self.old slots.now }
        ensures status { AreClassifiedAfter cluster_after.now arena.now slots.now self.new }
        ensures others { IsSameOutside slots.now self.old self.new }
        ensures capacity { KeepsCapacity self.old self.new }
    {
        for chunk in slots.chunks(CHUNK) {
            self.reclassify_chunk(arena, chunk, cluster_after);
        }
    }

    /// Reclassifies the blocks of a chunk. All are classified, and their old statuses read, before
    /// anything changes.
    fn reclassify_chunk(&mut self, arena: &Arena, chunk: &[Slot], cluster_after: &ClusterAfter<'_>)
        requires few { length chunk.now ≤ 64 }
        requires capacity { HasCapacityForEach self.old chunk.now }
        ensures status { AreClassifiedAfter cluster_after.now arena.now chunk.now self.new }
        ensures others { IsSameOutside chunk.now self.old self.new }
        ensures capacity { KeepsCapacity self.old self.new }
    {
        let status = classify_chunk(arena, chunk, cluster_after);
        if self.have_same_status(chunk, status.as_slice()) {
            return;
        }
        for (index, slot) in chunk.iter().enumerate() {
            self.set_status(*slot, status[index]);
        }
    }

    /// Whether all blocks of a chunk have the stored status. Compares all of them, even after a
    /// difference.
    fn have_same_status(&self, chunk: &[Slot], status: &[BlockStatus]) -> bool
        requires few { length chunk.now ≤ length status.now }
        requires capacity { HasCapacityForEach self.now chunk.now }
        ensures { result ≡ true → HaveStatuses self.now chunk.now status.now }
    {
        let mut are_kept = true;
        for (index, slot) in chunk.iter().enumerate() {
            are_kept &= are_equal(self.status_at(*slot), status[index]);
        }
        are_kept
    }
}
