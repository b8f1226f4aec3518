// The stamp and the wanted replicas of each known block. The manager has no query for them.
ghost use Rattle.std.specs.Prelude.{◌≡◌, ℕ, nat_eq, sum_by, Some, None, OnOk, if◌then◌else◌};
ghost use Rattle.bm_base.specs.Words.{Cluster, Holdings, change_holdings, set_replication, restamp};
ghost use Rattle.cluster_report.specs.Catalogues.{info_in, len_in, Lists};
ghost use Rattle.bm_base.specs.Maps.Map as map_of;

use bm_base::{BlockId, BlockInfo, Event, HashSecret, Stamp};
use std::alloc::{AllocError, Global};
use std::collections::HashMap;

/// The stamp and the wanted replicas of each block, found by hash.
#[derive(Drop)]
pub struct Catalogue {
    pub blocks: HashMap<u64, BlockInfo, HashSecret>,
}

impl Catalogue {
    /// An empty catalogue, which hashes by this secret. Takes no memory.
    pub fn new(alloc: Global, secret: HashSecret) -> Catalogue
        ensures { Lists result map_of.empty }
    {
        Catalogue {
            blocks: HashMap::with_hasher(alloc, secret),
        }
    }

    /// Returns the stamp and the wanted replicas of a block, if the block is known.
    pub fn get(&self, block: BlockId) -> Option<BlockInfo>
        ensures { result ≡ info_in self.now block }
    {
        self.blocks.get(&block.0).copied()
    }

    /// The length of a block in bytes; 0 of an unknown block.
    pub fn len_of(&self, block: BlockId) -> u64
        ensures { result ≡ len_in self.now block }
    {
        match self.get(block) {
            Some(info) => info.stamp.len,
            None => 0,
        }
    }

    /// The bytes of these blocks.
    pub fn bytes_of(&self, blocks: &[BlockId]) -> u128
        ensures { result ≡ sum_by (len_in self.now) blocks.now }
    {
        let mut total = 0u128;
        for block in blocks {
            total += u128::from(self.len_of(*block));
        }
        total
    }

    /// Notes the effect of an accepted event on blocks.
    #[tactic(auto, unfolding(bm_base::specs::Machine::Events::change_holdings, bm_base::specs::Machine::Events::without_storages, bm_base::specs::Machine::Events::add_block, bm_base::specs::Machine::Events::delete_block, bm_base::specs::Machine::Events::without_pending, bm_base::specs::Machine::Events::change_marks_of_block, bm_base::specs::Machine::Events::set_replication, bm_base::specs::Machine::Events::restamp, bm_base::specs::Machine::Events::enter, bm_base::specs::Machine::Events::remove_replica, bm_base::specs::Machine::Events::make_bad, bm_base::specs::Machine::Events::report), using(crate::proofs::CatalogueLemmas::lists_drained))]
    pub fn take_event(&mut self, event: &Event) -> Result<(), AllocError>
        ensures { OnOk result ((C : Cluster) (H : Holdings) → Lists self.old H.blocks
            → Lists self.new (change_holdings C H event.now).blocks) }
    {
        match event {
            Event::AddBlock { id, stamp, repl } => {
                let stamp = *stamp;
                let repl = *repl;
                self.put(*id, BlockInfo { stamp, repl })
            }
            Event::DeleteBlock { id } => {
                self.forget(*id);
                Ok(())
            }
            Event::SetReplication { id, repl } => self.set_replication(*id, *repl),
            Event::Restamp { id, stamp } => self.restamp(*id, *stamp),
            Event::Register { .. }
            | Event::Dead { .. }
            | Event::StorageFailed { .. }
            | Event::Heartbeat { .. }
            | Event::Drain { .. }
            | Event::Undrain { .. }
            | Event::Received { .. }
            | Event::Deleted { .. }
            | Event::Corrupt { .. }
            | Event::FullReport { .. } => Ok(()),
        }
    }

    #[tactic(auto, unfolding(bm_base::specs::Machine::Events::set_replication), using(crate::proofs::CatalogueLemmas::lists_revised, crate::proofs::CatalogueLemmas::lists_absent))]
    fn set_replication(&mut self, block: BlockId, repl: u32) -> Result<(), AllocError>
        ensures { OnOk result ((H : Holdings) → Lists self.old H.blocks
            → Lists self.new (set_replication H block repl).blocks) }
    {
        match self.get(block) {
            Some(info) => self.put(block, BlockInfo { repl, ..info }),
            None => Ok(()),
        }
    }

    #[tactic(auto, unfolding(bm_base::specs::Machine::Events::restamp, bm_base::specs::Machine::Events::without_pending, bm_base::specs::Machine::Events::change_marks_of_block), using(crate::proofs::CatalogueLemmas::lists_revised, crate::proofs::CatalogueLemmas::lists_absent))]
    fn restamp(&mut self, block: BlockId, stamp: Stamp) -> Result<(), AllocError>
        ensures { OnOk result ((H : Holdings) → Lists self.old H.blocks
            → Lists self.new (restamp H block stamp).blocks) }
    {
        match self.get(block) {
            Some(info) => self.put(block, BlockInfo { stamp, ..info }),
            None => Ok(()),
        }
    }

    fn forget(&mut self, block: BlockId)
        ensures { (b : ℕ) → info_in self.new b
            ≡ (if nat_eq block b then None else info_in self.old b) }
    {
        let _ = self.blocks.remove(&block.0);
    }

    fn put(&mut self, block: BlockId, info: BlockInfo) -> Result<(), AllocError>
        ensures { OnOk result ((b : ℕ) → info_in self.new b
            ≡ (if nat_eq block b then Some info else info_in self.old b)) }
    {
        match self.blocks.insert(block.0, info) {
            Ok(_) => Ok(()),
            Err(_) => Err(AllocError),
        }
    }
}
