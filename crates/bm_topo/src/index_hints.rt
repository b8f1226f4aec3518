// Hints for the indices of storages and nodes in the tables of the cluster: they make a look-up
// direct, whatever the numbers are. They are only guesses.
use bm_base::{Rack, StorageInfo};
use std::alloc::{AllocError, Global};

/// A number is hashed by one of these factors: 2^64 divided by the golden ratio, and the first odd
/// ones of the round constants of SHA-512.
const FACTORS: [u64; 16] = [
    0x9E37_79B9_7F4A_7C15,
    0x7137_4491_23EF_65CD,
    0xB5C0_FBCF_EC4D_3B2F,
    0x59F1_11F1_B605_D019,
    0x923F_82A4_AF19_4F9B,
    0x72BE_5D74_F27B_896F,
    0x80DE_B1FE_3B16_96B1,
    0x9BDC_06A7_25C7_1235,
    0xEFBE_4786_384F_25E3,
    0x0FC1_9DC6_8B8C_D5B5,
    0x240C_A1CC_77AC_9C65,
    0x2DE9_2C6F_592B_0275,
    0x4A74_84AA_6EA6_E483,
    0x76F9_88DA_8311_53B5,
    0x983E_5152_EE66_DFAB,
    0xB003_27C8_98FB_213F,
];

/// Gives each number an index among the hints: the first bits of its product with the factor.
#[derive(Clone, Copy)]
struct Hash {
    factor: u64,
    /// 64 less the number of these bits.
    shift: u32,
}

/// Hints for the indices of storages, of nodes, and of nodes that drain. Numbers with the same hash
/// share a hint. For a hash without a hint the guess is index 0.
#[derive(Drop)]
pub(crate) struct IndexHints {
    storage_hash: Hash,
    node_hash: Hash,
    storages: Vec<u32>,
    nodes: Vec<u32>,
    // For each alive node, the hint for its index among the nodes that drain.
    draining: Vec<u32>,
}

impl IndexHints {
    /// Hints for no storage and no node. Takes no memory.
    pub(crate) fn new(alloc: Global) -> IndexHints {
        IndexHints {
            storage_hash: hash_for(0, FACTORS[0]),
            node_hash: hash_for(0, FACTORS[0]),
            storages: Vec::new(alloc),
            nodes: Vec::new(alloc),
            draining: Vec::new(alloc),
        }
    }

    /// Makes hints for `count` storages.
    pub(crate) fn grow_storages(&mut self, count: usize) -> Result<(), AllocError> {
        grow(&mut self.storages, count)
    }

    /// Makes hints for `count` nodes.
    pub(crate) fn grow_nodes(&mut self, count: usize) -> Result<(), AllocError> {
        grow(&mut self.nodes, count)?;
        grow(&mut self.draining, count)
    }

    /// Fills the hints from the tables. Takes no memory.
    pub(crate) fn fill(
        &mut self,
        storages: &[(u64, StorageInfo)],
        nodes: &[(u64, Rack)],
        draining: &[(u64, ())],
    ) {
        self.storage_hash = fill_evenly(&mut self.storages, storages);
        self.node_hash = fill_evenly(&mut self.nodes, nodes);
        record_indices(&mut self.draining, self.node_hash, nodes, draining);
    }

    /// The hint for a storage's index.
    #[inline]
    pub(crate) fn of_storage(&self, number: u64) -> usize {
        hint_for(&self.storages, self.storage_hash, number)
    }

    /// The hint for a node's index.
    pub(crate) fn of_node(&self, number: u64) -> usize {
        hint_for(&self.nodes, self.node_hash, number)
    }

    /// The hint for a node's index among those that drain, also if it does not drain.
    pub(crate) fn of_draining(&self, number: u64) -> usize {
        hint_for(&self.draining, self.node_hash, number)
    }
}

/// Makes the hints that `hash_for` uses for `count` numbers. Those that there are stay.
fn grow(notes: &mut Vec<u32>, count: usize) -> Result<(), AllocError> {
    let slots = hash_for(count, FACTORS[0]).slots();
    if slots <= notes.len() {
        return Ok(());
    }
    notes.resize(slots, 0)
}

/// The hash for `count` numbers by this factor. It uses two to four hints per number, so that few
/// numbers touch few cache lines.
fn hash_for(count: usize, factor: u64) -> Hash {
    let above = (count as u64).wrapping_sub(1).leading_zeros();
    Hash {
        factor,
        shift: above.wrapping_sub(1),
    }
}

/// Fills the hints with the first factor under which at least three quarters of the numbers get a
/// right hint, or else with the best factor. Returns the hash.
fn fill_evenly<V: Copy>(notes: &mut [u32], entries: &[(u64, V)]) -> Hash {
    let mut best = hash_for(entries.len(), FACTORS[0]);
    let mut most = 0;
    for factor in FACTORS {
        let hash = hash_for(entries.len(), factor);
        record_indices(notes, hash, entries, entries);
        let count = count_hits(notes, hash, entries);
        if count >= entries.len() / 4 * 3 {
            return hash;
        }
        if count > most {
            most = count;
            best = hash;
        }
    }
    record_indices(notes, best, entries, entries);
    best
}

/// Records each number's index in `table`. Both are sorted, so one pass suffices. On a collision
/// the later number wins.
fn record_indices<V: Copy, W: Copy>(
    notes: &mut [u32],
    hash: Hash,
    numbers: &[(u64, V)],
    table: &[(u64, W)],
) {
    let mut index = 0u32;
    for (number, _) in numbers {
        if let Some((other, _)) = table.get(index as usize) {
            if *other < *number {
                index = index.wrapping_add(1);
            }
        }
        if let Some(note) = notes.get_mut(hash.hint_slot(*number)) {
            *note = index;
        }
    }
}

/// The number of entries whose hint is right.
fn count_hits<V: Copy>(notes: &[u32], hash: Hash, entries: &[(u64, V)]) -> usize {
    let mut count = 0usize;
    for (number, _) in entries {
        if let Some((other, _)) = entries.get(hint_for(notes, hash, *number)) {
            if *other == *number {
                count = count.wrapping_add(1);
            }
        }
    }
    count
}

/// The hint for a number.
#[inline]
fn hint_for(notes: &[u32], hash: Hash, number: u64) -> usize {
    match notes.get(hash.hint_slot(number)) {
        Some(index) => *index as usize,
        None => 0,
    }
}

impl Hash {
    /// How many hints it uses.
    fn slots(self) -> usize {
        1usize.wrapping_shl(64u32.wrapping_sub(self.shift))
    }

    /// The index of a number's hint.
    #[inline]
    fn hint_slot(self, number: u64) -> usize {
        number.wrapping_mul(self.factor).wrapping_shr(self.shift) as usize
    }
}
