// The deletes that a round commands. The first laws state that no round takes a block's last good
// replica.
ghost use Rattle.bm_base.specs.Words.{InLawfulStates, AfterAllCalls};
ghost use Rattle.laws_of_rounds.specs.Deletes as law;

/// No round commands the delete of a block's last good replica. In a lawful state a round does not
/// command the delete of the only good replica of a known block, in excess or not.
pub fn only_good_replica_is_not_deleted()
    ensures lawful { InLawfulStates law.OnlyGoodReplicaIsNotDeleted }
    ensures reached { AfterAllCalls law.OnlyGoodReplicaIsNotDeleted }
{}

/// More than that: if a round in a lawful state commands the delete of a replica of a known block,
/// another replica is live after the round. The round does not command the delete of that one. Live
/// is good and not in excess, on a node that does not drain.
pub fn last_good_replica_stays()
    ensures lawful { InLawfulStates law.LastGoodReplicaStays }
    ensures reached { AfterAllCalls law.LastGoodReplicaStays }
{}

/// And more: after a round in a lawful state commands the delete of a replica of a known block, at
/// least the wanted number of its replicas are live. At least one is wanted.
pub fn enough_stay_live()
    ensures lawful { InLawfulStates law.EnoughStayLive }
    ensures reached { AfterAllCalls law.EnoughStayLive }
{}

/// In any state, a round commands the delete of no replica that is live after it.
pub fn live_replica_is_not_deleted()
    ensures { law.LiveReplicaIsNotDeleted }
{}

/// In any state, a round commands the delete of no replica that is drained after it.
pub fn drained_replica_is_not_deleted()
    ensures { law.DrainedReplicaIsNotDeleted }
{}

/// A round commands the delete of stray replicas, of replicas in excess and of corrupt ones alone.
pub fn only_stray_excess_or_corrupt_is_deleted()
    ensures { law.OnlyWhatMayBeDeleted }
{}

/// A round commands the delete of a corrupt replica only if at least the wanted number of its
/// block's replicas are live.
pub fn corrupt_waits_for_live()
    ensures lawful { InLawfulStates law.CorruptWaitsForLive }
    ensures reached { AfterAllCalls law.CorruptWaitsForLive }
{}

/// A round does not command a delete again, unless the replica was reported since.
pub fn none_is_ordered_again()
    ensures { law.NoneIsOrderedAgain }
{}

/// A round commands each node at most `invalidate` deletes.
pub fn at_most_invalidate_a_node()
    ensures { law.AtMostInvalidateANode }
{}

/// In a lawful state, a round commands the delete of each replica that is stray, in excess, or
/// corrupt with enough live replicas of its block. The exceptions are a delete that is ordered
/// already, and a node that gets the limit of deletes, which is at least one.
pub fn only_the_limit_defers()
    ensures lawful { InLawfulStates law.OnlyTheLimitDefers }
    ensures reached { AfterAllCalls law.OnlyTheLimitDefers }
{}

/// Whatever calls were made, a replica whose delete a round commanded, and which was not reported
/// since, is neither live nor drained.
pub fn ordered_replica_is_not_usable()
    ensures { law.OrderedReplicaIsNotUsable }
{}

/// Whatever calls were made: if a round commands the delete of a replica of a known block, a
/// replica of the block remains. That one is good and not in excess, on a node that does not drain,
/// and no round has commanded its delete since its last report.
pub fn good_replica_is_left_by_all_rounds()
    ensures { law.GoodReplicaIsLeftByAllRounds }
{}
