// What each event changes, and what it keeps.
#![tactic(auto)]

ghost use Rattle.bm_base.specs.Words.{InLawfulStates, AfterAllCalls};
ghost use Rattle.laws_of_events.specs.Changes as law;

/// A registered node exists with its rack and its storages, which have no remaining bytes yet; all
/// else stays.
pub fn registered_node_is_there()
    ensures { law.registered_node_is_there }
{}

/// A dead node leaves with its storages, their replicas and the transfers to them; all else stays.
pub fn dead_node_leaves()
    ensures { law.dead_node_leaves }
{}

/// A failed storage leaves with its replicas and the transfers to it; its node and all else stay.
pub fn failed_storage_leaves()
    ensures { law.failed_storage_leaves }
{}

/// Of several values that a heartbeat reports for a storage the last one counts.
pub fn last_heartbeat_counts()
    ensures { law.last_heartbeat_counts }
{}

/// Storages that a heartbeat does not name stay as they were.
pub fn heartbeat_leaves_others()
    ensures { law.heartbeat_leaves_others }
{}

/// The answer of an event adds up: after it there are `added` more replicas, and `removed` fewer.
pub fn counts_add_up()
    ensures { law.counts_add_up }
{}

/// An event on one block keeps everything of any other: its information, replicas and transfers.
pub fn event_leaves_other_blocks()
    ensures { law.event_leaves_other_blocks }
{}

/// A block that is added is known, with its stamp and the number of replicas wanted; no replica
/// comes.
pub fn added_block_is_known()
    ensures { law.added_block_is_known }
{}

/// A deleted block is not known, its replicas are stray, and no transfer of it is pending.
pub fn deleted_block_is_stray()
    ensures { law.deleted_block_is_stray }
{}

/// A block with a new stamp has no good replica, and no pending transfer; other tags stay.
pub fn restamped_block_has_no_good_replica()
    ensures { law.restamped_block_has_no_good_replica }
{}

/// Another number of replicas is wanted; the block's stamp, the replicas and the transfers stay.
pub fn replication_is_set()
    ensures { law.replication_is_set }
{}

/// A replica that was deleted is gone, and all else stays.
pub fn deleted_replica_is_gone()
    ensures { law.deleted_replica_is_gone }
{}

/// A replica found corrupt is bad, and no longer in excess; none comes, and all else stays.
pub fn corrupt_replica_is_bad()
    ensures { law.corrupt_replica_is_bad }
{}

/// The transfers to a storage of the blocks that its full report names have arrived; all others
/// stay pending.
pub fn report_ends_transfers()
    ensures { law.report_ends_transfers }
{}

/// The transfer of a replica that is received has arrived; all others stay pending.
pub fn received_ends_transfer()
    ensures { law.received_ends_transfer }
{}

/// A full report keeps the replicas of blocks that it does not name on all other storages, those of
/// the same node included.
pub fn report_leaves_unnamed_blocks()
    ensures { law.report_leaves_unnamed_blocks }
{}

/// A bad replica stays bad through every event, as long as it exists and its block is known.
pub fn bad_replica_stays_bad()
    ensures lawful { InLawfulStates law.bad_replica_stays_bad }
    ensures reached { AfterAllCalls law.bad_replica_stays_bad }
{}
