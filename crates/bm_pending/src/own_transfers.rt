// Capacity for the chosen transfers of a part's own blocks.
ghost use Rattle.std.specs.Prelude.{◌≡◌, ◌≤◌, ◌<◌, ℕ, ◌==◌, length, filter, cond, nat_eq, OnOk, IfOk, IfErr, suc};
ghost use Rattle.bm_base.specs.Words.{own_transfers};
ghost use Rattle.bm_base.specs.declared.refusal.Refusal.TheVariants.{Memory};
ghost use Rattle.bm_pending.specs.PendingMap.{capacity};
ghost use Rattle.bm_pending.specs.TargetCounts.{count_at};

use crate::pending_transfers::PendingTransfers;
use bm_base::{BlockId, HashSecret, Part, Refusal, Transfer, shard_of};
use indexmap::IndexMap;

impl PendingTransfers {
    /// Reserves capacity for those of these transfers that are of the part's own blocks. A few
    /// hashes for each of them. `Memory`.
    pub fn reserve_own(&mut self, transfers: &[Transfer], part: Part) -> Result<(), Refusal>
        requires part { part.index < part.shards }
        ensures map { self.new.map ≡ self.old.map }
        ensures capacity { OnOk result ((b : ℕ)
            → length (filter (λ t. t.block == b)
            (own_transfers part.index part.shards transfers.now)) ≤ capacity self.new b) }
        ensures capacities { (b : ℕ) → capacity self.old b ≤ capacity self.new b }
        ensures refused { IfErr result (λ e. e ≡ Memory) }
    {
        let mut counts = IndexMap::with_hasher(self.alloc, *self.by_block.hasher());
        for transfer in transfers {
            if shard_of(transfer.block, part.shards) == part.index {
                let count = count_one(&mut counts, transfer.block)?;
                self.reserve(transfer.block, count)?;
            }
        }
        Ok(())
    }
}

/// Counts one more transfer of a block. Returns the count.
fn count_one(counts: &mut IndexMap<u64, usize, HashSecret>, id: BlockId) -> Result<usize, Refusal>
    requires { count_at counts.old.entries id < 18446744073709551615 }
    ensures counted { IfOk result (λ n. n ≡ suc (count_at counts.old.entries id)) }
    ensures counts { OnOk result ((q : ℕ)
        → count_at counts.new.entries q
        ≡ cond (nat_eq id q) (suc (count_at counts.old.entries q))
        (count_at counts.old.entries q)) }
    ensures refused { IfErr result (λ e. e ≡ Memory) }
{
    match counts.insert(id.0, 1)? {
        Some(count) => {
            counts.insert(id.0, count + 1)?;
            Ok(count + 1)
        }
        None => Ok(1),
    }
}
