// Which live replicas a round marks as excess.
ghost use Rattle.bm_base.specs.Words.{InLawfulStates, AfterAllCalls};
ghost use Rattle.laws_of_rounds.specs.Surplus as law;

/// Before a round marks, the live replicas are the good ones on nodes that do not drain, except
/// those in excess whose delete was commanded. What an earlier round marked and did not command
/// counts again.
pub fn live_before_marking()
    ensures { law.LiveBeforeMarking }
{}

/// The drained replicas are, by the same rule, the good ones on nodes that drain.
pub fn drained_before_marking()
    ensures { law.DrainedBeforeMarking }
{}

/// Once a round has marked, a known block has at most the wanted number of live replicas. Those in
/// excess that were ordered keep their marks, and are not live.
pub fn at_most_replication_is_live()
    ensures { law.AtMostReplicationIsLive }
{}

/// If a known block has n live replicas more than are wanted, a round marks exactly n of them.
pub fn surplus_is_marked()
    ensures { law.SurplusIsMarked }
{}

/// A replica that is live once a round has marked was live before.
pub fn marking_makes_none_live()
    ensures { law.MarkingMakesNoneLive }
{}

/// In a lawful state a round marks no block's last live replica on a rack while another rack has
/// two or more of them.
pub fn last_of_rack_stays()
    ensures lawful { InLawfulStates law.LastOfRackStays }
    ensures reached { AfterAllCalls law.LastOfRackStays }
{}

/// A round leaves the wanted number of live replicas of each known block, or all of them if there
/// are no more than that.
pub fn round_leaves_enough_live()
    ensures { law.RoundLeavesEnoughLive }
{}

/// A round marks no replica on a node that drains: the mark goes to live ones alone.
pub fn none_on_a_draining_node_is_marked()
    ensures { law.NoneOnADrainingNodeIsMarked }
{}

/// A replica that is drained as a round begins to mark stays drained through the round, and no
/// other becomes drained.
pub fn drained_stay_drained()
    ensures { law.DrainedStayDrained }
{}

/// An excess replica whose delete was commanded stays in excess when a round marks.
pub fn ordered_excess_stays()
    ensures { law.OrderedExcessStays }
{}

/// Any other replica that is in excess once a round has marked was live before.
pub fn other_excess_is_new()
    ensures { law.OtherExcessIsNew }
{}
