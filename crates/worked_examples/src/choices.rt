// Worked examples of a round's choices on one small cluster: each tie, and each limit at its edge.
#![tactic(auto, unfolding(crate::specs::Runs::run_of))]

ghost use Rattle.worked_examples.specs.Choices as row;

/// A second copy goes to another rack, a third to one of the two racks that hold the block, a
/// fourth to any rack.
pub fn racks_of_copies()
    ensures { row.RacksOfCopies }
{}

/// The target is the storage with the most free bytes, counted without those that the round fills.
/// Of equal ones it is the lesser storage.
pub fn free_bytes_of_targets()
    ensures { row.FreeBytesOfTargets }
{}

/// A block fits a storage that has exactly its length free, but not one with a byte less.
pub fn block_fits()
    ensures { row.BlockFits }
{}

/// A badly distributed block gets its copy on another rack, or none.
pub fn other_rack_or_none()
    ensures { row.OtherRackOrNone }
{}

/// The source whose node sends the fewest transfers is taken, and of equal nodes the lesser.
pub fn source_sends_fewest()
    ensures { row.SourceSendsFewest }
{}

/// A node that does not drain is the source of at most two transfers, or of four at the highest
/// level.
pub fn source_limits()
    ensures { row.SourceLimits }
{}

/// A source on a node that drains comes first, and its node may send four at every level.
pub fn drained_sources_first()
    ensures { row.DrainedSourcesFirst }
{}

/// A node that drains is no target, even if it has the most free bytes.
pub fn draining_node_is_no_target()
    ensures { row.DrainingNodeIsNoTarget }
{}

/// A drained replica is copied if too few are live, and counts neither as live nor as surplus.
pub fn drained_is_copied_and_not_counted()
    ensures { row.DrainedIsCopiedAndNotCounted }
{}

/// Surplus is taken from racks that hold two or more, then by fewer remaining bytes, then by the
/// greater storage.
pub fn surplus_goes_in_order()
    ensures { row.SurplusGoesInOrder }
{}

/// Copies are requested by level and then by block, for each block the number that it lacks.
pub fn wishes_in_order()
    ensures { row.WishesInOrder }
{}

/// The storages that hold a block, and those whose nodes get no copy of it.
pub fn held_and_excluded()
    ensures { row.HeldAndExcluded }
{}

/// The limit of transfers is one for the whole round.
pub fn work_is_shared_by_all()
    ensures { row.WorkIsSharedByAll }
{}

/// A badly distributed block gets one copy more than are wanted, and then has surplus on its first
/// rack.
pub fn one_more_than_wanted()
    ensures { row.OneMoreThanWanted }
{}

/// A round commands each node's deletes by storage and then by block, up to the limit.
pub fn deletes_in_order()
    ensures { row.DeletesInOrder }
{}

/// A transfer is awaited for `pend` rounds.
pub fn expires_after_pend()
    ensures { row.ExpiresAfterPend }
{}

/// Levels at their edges.
pub fn levels_at_their_edges()
    ensures { row.LevelsAtTheirEdges }
{}
