// The sorts of the findings.
ghost use Rattle.std.specs.Prelude.{OnOk};
ghost use Rattle.bm_base.specs.Words.{by_replica, by_pair};
ghost use Rattle.bm_base.specs.declared.replica.ReplicaId.{ReplicaId};
ghost use Rattle.bm_round_scan.specs.BlockFindings.{IsInOrder};
ghost use Rattle.bm_base.specs.RoundParts as parts;

use bm_base::{Delete, ReplicaId, Wish};
use std::alloc::AllocError;

/// By block and storage.
pub(crate) fn sort_excess(excess: &mut Vec<ReplicaId>) -> Result<(), AllocError>
    ensures { OnOk result (IsInOrder by_replica
        (λ (q : ReplicaId). q) excess.old.items excess.new.items) }
{
    excess.sort()
}

/// By level and block.
pub(crate) fn sort_wishes(wishes: &mut Vec<Wish>) -> Result<(), AllocError>
    ensures { OnOk result (IsInOrder by_pair parts.wish_key wishes.old.items wishes.new.items) }
{
    wishes.sort_by_key(|wish| (wish.level.number(), wish.block))
}

/// By storage and block. The deletes are found block by block. So they are sorted by blocks first,
/// which is mostly their order, and then by storages with a stable sort, which has few runs.
pub(crate) fn sort_deletes(deletes: &mut Vec<Delete>) -> Result<(), AllocError>
    ensures { OnOk result (IsInOrder by_pair parts.delete_key deletes.old.items deletes.new.items) }
{
    deletes.sort_by_key(|delete| delete.block)?;
    deletes.sort_by_key(|delete| delete.storage)
}
