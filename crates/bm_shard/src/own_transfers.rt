// The chosen transfers of a shard's own blocks, among those of all shards.
ghost use Rattle.std.specs.Prelude.{◌≡◌, ◌<◌, ◌≤◌, ℕ, ◌==◌, length, filter, map};
ghost use Rattle.bm_base.specs.Words.{insert_all, replica_at, own_transfers};
ghost use Rattle.bm_pending.specs.PendingMap.{capacity};

use bm_base::{Part, Transfer, shard_of};
use bm_pending::PendingTransfers;

/// Makes the chosen transfers of the part's own blocks pending since this round. Takes no memory.
pub(crate) fn insert_own(
    pending: &mut PendingTransfers,
    transfers: &[Transfer],
    part: Part,
    round: u64,
)
    requires part { part.index < part.shards }
    requires capacity { (b : ℕ)
        → length (filter (λ t. t.block == b) (own_transfers part.index part.shards transfers.now))
        ≤ capacity pending.old b }
    ensures { pending.new.map
        ≡ insert_all pending.old.map (map
        (λ t. (replica_at t.block t.target, round))
        (own_transfers part.index part.shards transfers.now)) }
{
    for transfer in transfers {
        if shard_of(transfer.block, part.shards) == part.index {
            pending.insert_reserved(transfer.block, transfer.target, round);
        }
    }
}
