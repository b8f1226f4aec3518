// Which replicas are deleted, and when.
#![tactic(auto, unfolding(crate::specs::Runs::run_of))]

ghost use Rattle.worked_examples.specs.Deletes as example;

/// With three replicas and two wanted, one of the two on the same rack is deleted. Until it is
/// gone, its storage is a place of the block.
pub fn surplus_keeps_two_racks()
    ensures { example.surplus_keeps_two_racks }
{}

/// A round commands at most `invalidate` deletes to a node. If an excess replica is wanted after
/// all, it counts again from the next round on; but if its delete was commanded, it has to be
/// received again first.
pub fn delete_limit_per_node()
    ensures { example.delete_limit_per_node }
{}

/// The number of a deleted block may be used again once its replicas have left all storages.
pub fn deleted_block_must_leave_storages()
    ensures { example.deleted_block_must_leave_storages }
{}

/// A new version makes the old replicas stale, so the block is missing until one of the new version
/// is received. Generations may be skipped.
pub fn restamp_makes_stale()
    ensures { example.restamp_makes_stale }
{}

/// A corrupt replica is deleted only if enough others are live. Its delete is commanded once, and
/// again only after a report that lists the replica.
pub fn corrupt_replica_waits_for_replacement()
    ensures { example.corrupt_replica_waits_for_replacement }
{}
