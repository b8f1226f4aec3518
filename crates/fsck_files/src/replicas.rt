// The replicas of a block that is added.
ghost use Rattle.std.specs.Prelude.{◌≡◌};
ghost use Rattle.fsck_files.specs.Replicas.{is_corrupt, is_draining, claims_live, is_maintained, claims, is_marked, are_unmarked, maintained};

use bm_base::{BlockId, Items, Stamp};
use fsck_text::{ListedReplica, Mark};

/// A block that is added.
#[derive(Drop)]
pub struct Block<'a> {
    pub id: BlockId,
    pub stamp: Stamp,
    /// The number of wanted replicas, 1 to 16.
    pub wanted: u32,
    /// Whether fsck reports each known replica as corrupt.
    pub is_corrupt: bool,
    /// The replicas in the order of the list.
    pub replicas: Items<ListedReplica<'a>>,
}

/// Whether a replica with a mark is corrupt. If fsck reports its block as corrupt, so is one
/// without a mark, and one whose mark only reports that its node is decommissioned or in
/// maintenance.
pub fn is_corrupt(mark: Mark, block_is_corrupt: bool) -> bool
    ensures { result ≡ is_corrupt mark block_is_corrupt }
{
    match mark {
        Mark::Corrupt => true,
        Mark::Absent
        | Mark::Decommissioned
        | Mark::Decommissioning
        | Mark::EnteringMaintenance
        | Mark::InMaintenance => block_is_corrupt,
        Mark::Live | Mark::Excess | Mark::StaleNode | Mark::StaleContent => false,
    }
}

/// Whether a node with this mark is being decommissioned, or has been.
pub fn is_draining(mark: Mark) -> bool
    ensures { result ≡ is_draining mark }
{
    matches!(mark, Mark::Decommissioned | Mark::Decommissioning)
}

/// Whether fsck counts a replica with this mark as live. Without a mark it may, unless fsck reports
/// the block as corrupt.
fn claims_live(block_is_corrupt: bool, mark: Mark) -> bool
    ensures { result ≡ claims_live block_is_corrupt mark }
{
    match mark {
        Mark::Absent => !block_is_corrupt,
        Mark::Live | Mark::StaleNode | Mark::StaleContent => true,
        _ => false,
    }
}

fn is_maintained(mark: Mark) -> bool
    ensures { result ≡ is_maintained mark }
{
    matches!(mark, Mark::EnteringMaintenance | Mark::InMaintenance)
}

/// The number of replicas that are live by their marks, or may be without a mark.
pub fn count_maybe_live(block_is_corrupt: bool, listed: &[ListedReplica]) -> usize
    ensures { result ≡ claims block_is_corrupt listed.now }
{
    listed
        .iter()
        .filter(|one| claims_live(block_is_corrupt, one.mark))
        .count()
}

fn is_marked(mark: Mark) -> bool
    ensures { result ≡ is_marked mark }
{
    !matches!(mark, Mark::Absent)
}

/// Whether a block is corrupt, and none of the listed replicas has a mark.
pub fn are_unmarked(block_is_corrupt: bool, listed: &[ListedReplica]) -> bool
    ensures { result ≡ are_unmarked block_is_corrupt listed.now }
{
    let marked = listed.iter().filter(|one| is_marked(one.mark)).count();
    block_is_corrupt && listed.len() > 0 && marked == 0
}

/// The number of replicas on nodes in maintenance that count as good: none of a corrupt block.
pub fn count_in_maintenance(is_corrupt: bool, listed: &[ListedReplica]) -> usize
    ensures { result ≡ maintained is_corrupt listed.now }
{
    if is_corrupt {
        return 0;
    }
    listed.iter().filter(|one| is_maintained(one.mark)).count()
}
