// What a round leads to if the nodes obey it, in whatever order, and nothing else happens.
ghost use Rattle.laws_of_rounds.specs.Obedience as law;

/// A round is obeyed if first its transfers are done, node by node, and then its deletes. The other
/// laws here hold in this order and in any other.
pub fn listed_order_obeys_all()
    ensures { law.ListedOrderObeysAll }
{}

/// No check but that of the number of calls refuses the notices of obeyed commands.
pub fn obedience_is_not_refused()
    ensures { law.ObedienceIsNotRefused }
{}

/// A replica that is live after a round stays live while the nodes obey it, all of its commands or
/// some of them.
pub fn live_stays_live()
    ensures { law.LiveStaysLive }
{}

/// The target of each transfer that a round commands is live once the round is obeyed.
pub fn target_becomes_live()
    ensures { law.TargetBecomesLive }
{}

/// Once a round is obeyed, the number of a block's live replicas is that after the round, plus one
/// for each copy that the round commands of it. So no block is further from its replication than
/// after the round, and one that gets a copy has more replicas.
pub fn each_copy_is_gained()
    ensures { law.EachCopyIsGained }
{}
