// The blocks, in order.
ghost use Rattle.std.specs.Prelude.{◌≡◌, length, slice_get, not, IfOk, if◌then◌else◌, []};
ghost use Rattle.fsck_cluster.specs.Blocks.{has_block, with_block};

use bm_base::{BlockId, BlockInfo};
use indexmap::IndexMap;
use std::alloc::{AllocError, Global};
use std::marker::Model;

/// The blocks, with a hash table of their numbers.
#[derive(Drop)]
pub struct Blocks {
    map: IndexMap<u64, BlockInfo>,
}

impl Model for Blocks {
    ghost use Rattle.std.specs.Prelude.{ℕ, List};
    ghost use Rattle.bm_base.specs.declared.replica.BlockInfo.{BlockInfo};

    ghost Value = { List (ℕ × BlockInfo) };

    ghost view = { λ blocks. blocks.map.entries };
}

impl Blocks {
    /// Makes an empty map. Takes no memory.
    pub fn new(alloc: Global) -> Blocks
        ensures { result ≡ [] }
    {
        Blocks {
            map: IndexMap::new(alloc),
        }
    }

    /// Adds a block, and returns whether it is new. A known one stays unchanged.
    pub fn add(&mut self, id: BlockId, info: BlockInfo) -> Result<bool, AllocError>
        ensures new { IfOk result (λ added. added ≡ not (has_block self.old id)) }
        ensures blocks { IfOk result
            (λ added. self.new ≡ (if added then with_block self.old id info else self.old)) }
    {
        if self.map.contains_key(&id.0) {
            return Ok(false);
        }
        self.map.insert(id.0, info)?;
        Ok(true)
    }

    /// Returns the number of blocks.
    pub fn len(&self) -> usize
        ensures { result ≡ length self.now }
    {
        self.map.len()
    }

    /// The block at an index.
    pub fn get(&self, index: usize) -> Option<(BlockId, BlockInfo)>
        ensures { result ≡ slice_get self.now index }
    {
        let (id, info) = self.map.get_index(index)?;
        Some((BlockId(*id), *info))
    }
}
