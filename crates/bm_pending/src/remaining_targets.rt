// The targets of a block that remain pending after a round.
ghost use Rattle.std.specs.Prelude.{◌≡◌, count_by, not, IfOk};
ghost use Rattle.bm_base.specs.Words.{is_expired};
ghost use Rattle.bm_pending.specs.Inside.{remaining_storages};

use crate::by_block::is_expired;
use bm_base::{StorageId, StorageIds};
use std::alloc::{AllocError, Global};

/// The targets whose transfers have not expired, ascending.
pub(crate) fn remaining_among(
    alloc: Global,
    targets: &[(u32, u64)],
    pend: u32,
    round: u64,
) -> Result<StorageIds, AllocError>
    ensures { IfOk result (λ v. v ≡ remaining_storages pend round targets.now) }
{
    let mut left = StorageIds::new(alloc);
    for target in targets {
        if !is_expired(target.1, pend, round) {
            left.push(StorageId(target.0))?;
        }
    }
    Ok(left)
}

/// The number of targets whose transfers have not expired.
pub(crate) fn count_remaining_among(targets: &[(u32, u64)], pend: u32, round: u64) -> usize
    ensures { result ≡ count_by (λ t. not (is_expired pend round t.1)) targets.now }
{
    targets
        .iter()
        .filter(|target| !is_expired(target.1, pend, round))
        .count()
}
