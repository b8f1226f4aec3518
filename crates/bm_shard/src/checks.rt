// The checks of an event on the blocks.
ghost use Rattle.std.specs.Prelude.{◌≡◌, if◌then◌else◌};
ghost use Rattle.bm_base.specs.Words.{get, first_of, block_checks, knows_block, is_still_stored, is_bad_replication, is_old, checked};

use crate::shard::Shard;
use bm_base::{BlockId, BlockInfo, Event, MAX_REPLICATION, Refusal, Stamp};
use bm_queries::{is_still_stored, knows_block};

impl Shard {
    /// The first check on the blocks that refuses the event: `UnknownBlock`, `BlockKnown`,
    /// `StillStored`, `BadReplication`, `OldGeneration`. An event on one block is checked by the
    /// shard of its number; other events have no such check. Takes no memory.
    #[tactic(auto, unfolding(bm_base::specs::Machine::Refusals::block_checks))]
    pub fn check(&self, event: &Event) -> Result<(), Refusal>
        ensures { result ≡ checked (first_of (block_checks self.now.holdings event.now)) }
    {
        match event {
            Event::AddBlock { id, repl, .. } => {
                let (known, stored) = self.known_or_stored(*id);
                if known {
                    return Err(Refusal::BlockKnown);
                }
                if stored {
                    return Err(Refusal::StillStored);
                }
                check_replication(*repl)
            }
            Event::DeleteBlock { id } => self.check_block(*id),
            Event::SetReplication { id, repl } => {
                if !knows_block(&self.blocks, *id) {
                    return Err(Refusal::UnknownBlock);
                }
                check_replication(*repl)
            }
            Event::Restamp { id, stamp } => {
                if !knows_block(&self.blocks, *id) {
                    return Err(Refusal::UnknownBlock);
                }
                if self.is_old(*id, stamp) {
                    return Err(Refusal::OldGeneration);
                }
                Ok(())
            }
            Event::Corrupt { id, .. } => self.check_block(*id),
            Event::Register { .. }
            | Event::Dead { .. }
            | Event::StorageFailed { .. }
            | Event::Heartbeat { .. }
            | Event::Drain { .. }
            | Event::Undrain { .. }
            | Event::Received { .. }
            | Event::Deleted { .. }
            | Event::FullReport { .. } => Ok(()),
        }
    }

    /// Whether a block is known, and whether a stray replica of it is stored. A number without an
    /// entry, which is usual for a new block, is looked up once.
    fn known_or_stored(&self, id: BlockId) -> (bool, bool)
        ensures known { result.0 ≡ knows_block self.now.holdings id }
        ensures stored { result.1 ≡ is_still_stored self.now.holdings id }
    {
        let arena = self.blocks.arena();
        arena.show_invariant();
        match arena.find(id) {
            Some(_) => (
                knows_block(&self.blocks, id),
                is_still_stored(&self.blocks, id),
            ),
            None => (false, false),
        }
    }

    fn check_block(&self, id: BlockId) -> Result<(), Refusal>
        ensures { result ≡ (if knows_block self.now.holdings id then Ok tt
            else Err Refusal.UnknownBlock) }
    {
        if knows_block(&self.blocks, id) {
            Ok(())
        } else {
            Err(Refusal::UnknownBlock)
        }
    }

    /// The stamp and the wanted replicas of a block, if it is known.
    fn info_of(&self, id: BlockId) -> Option<BlockInfo>
        ensures { result ≡ get self.now.holdings.blocks id }
    {
        let arena = self.blocks.arena();
        match arena.find(id) {
            Some(slot) => arena.info(slot),
            None => None,
        }
    }

    /// Whether the generation of a stamp is not greater than the block's.
    #[tactic(auto, unfolding(bm_base::specs::Machine::Refusals::is_old))]
    fn is_old(&self, id: BlockId, stamp: &Stamp) -> bool
        ensures { result ≡ is_old self.now.holdings id stamp.now }
    {
        match self.info_of(id) {
            Some(info) => stamp.generation <= info.stamp.generation,
            None => false,
        }
    }
}

fn check_replication(repl: u32) -> Result<(), Refusal>
    ensures { result ≡ (if is_bad_replication repl then Err Refusal.BadReplication else Ok tt) }
{
    if repl == 0 || repl > MAX_REPLICATION {
        Err(Refusal::BadReplication)
    } else {
        Ok(())
    }
}
